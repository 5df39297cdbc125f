ghost use Rattle.std.specs.Prelude.{◌≡◌, ◌+◌, ◌∷◌, [], MatchOption, length, map};
ghost use Rattle.bye_graph.specs.Orders as spec;

use crate::entry::{Entry, Order};
use crate::search::give;
use crate::steps::Steps;
use std::marker::Model;
use std::sync::ledger::Ledger;

/// The triples that `Graph::find` found and that are still to be given, by the numbers of their terms.
#[derive(Drop)]
pub struct Found<'a> {
    entries: &'a [Entry],
    order: Order,
}

impl<'a> Model for Found<'a> {
    ghost use Rattle.std.specs.Prelude.{List, map};
    ghost use Rattle.bye_graph.specs.Keys.{Key};
    ghost use Rattle.bye_graph.specs.Orders.{key_of};

    ghost Value = { List Key };

    ghost view = { λ f. map (key_of f.order) f.entries.now };
}

impl<'a> Found<'a> {
    /// The triples of a part of an order.
    pub(crate) fn new(entries: &'a [Entry], order: Order) -> Found<'a>
        ensures { result ≡ map (spec.key_of order) entries.now }
    {
        Found { entries, order }
    }

    /// How many are still to be given.
    pub fn len(&self) -> usize
        ensures { result ≡ length self.now }
    {
        self.entries.len()
    }

    /// Gives the next triple, which counts one step. None where all were given.
    pub fn next_counted<L: Ledger>(&mut self, steps: &mut Steps<L>) -> Option<(u32, u32, u32)>
        ensures next { MatchOption result ((self.old ≡ []) × (self.new ≡ [])) (λ key. self.old ≡ key ∷ self.new) }
        ensures cost { MatchOption result (steps.new ≡ steps.old) (λ key. steps.new ≡ steps.old + 1) }
    {
        if self.entries.is_empty() {
            return None;
        }
        let entry = give(self.entries, 0, steps);
        let (_, rest) = self.entries.split_at(1);
        self.entries = rest;
        Some(self.order.key_of(entry))
    }
}
