ghost use Rattle.bye_ntriples.specs.declared.line.LineAt.TheVariants as lines;
ghost use Rattle.std.specs.Prelude.{◌≡◌, MatchOption, OnOk, true};

use crate::line::LineAt;
use bye_terms::{Memory, push_item};
use std::alloc::Global;
use std::marker::Model;

/// A place on the heap for how far the present line was read: it is empty at the line's beginning.
#[derive(Debug, Drop)]
pub struct LineSlot {
    states: Vec<LineAt>,
}

impl Model for LineSlot {
    ghost use Rattle.std.specs.Prelude.{◌≤◌, length};
    ghost use Rattle.bye_ntriples.specs.DocSteps.{in_slot};
    ghost use Rattle.bye_ntriples.specs.declared.line.LineAt.{LineAt};

    ghost Value = { LineAt };

    ghost view = { λ s. in_slot s.states.items };

    ghost invariant = { λ s. length s.states.items ≤ 1 };
}

impl LineSlot {
    /// At a line's beginning.
    pub fn new(alloc: Global) -> LineSlot
        ensures { result ≡ lines.Begin }
    {
        LineSlot {
            states: Vec::new(alloc),
        }
    }

    /// Takes the state away; what stands there then is a line's beginning.
    pub fn take(&mut self) -> LineAt
        ensures taken { result ≡ self.old }
        ensures begin { self.new ≡ lines.Begin }
    {
        match self.states.pop() {
            Some(at) => at,
            None => LineAt::Begin,
        }
    }

    /// Puts a state there.
    pub fn put(&mut self, at: LineAt) -> Result<(), Memory>
        ensures { OnOk result (self.new ≡ at) }
    {
        self.states.clear();
        push_item(&mut self.states, at)
    }

    /// Whether nothing stands there.
    pub fn is_begin(&self) -> bool
        ensures { result ≡ true → self.now ≡ lines.Begin }
    {
        self.states.is_empty()
    }

    /// The state, where it is not a line's beginning.
    pub fn get(&self) -> Option<&LineAt>
        ensures { MatchOption result (self.now ≡ lines.Begin) (λ at. self.now ≡ at.now) }
    {
        self.states.first()
    }
}
