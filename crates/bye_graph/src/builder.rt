ghost use Rattle.std.specs.Prelude.{◌≡◌, ◌+◌, ◌<◌, ◌^◌, ◌++◌, ◌∷◌, ◌↔◌, [], IfOk, OnOk, OnErr, length};
ghost use Rattle.bye_terms.specs.Members.{In};
ghost use Rattle.bye_terms.specs.Terms.{Statement};
ghost use Rattle.bye_graph.specs.Graphs as graphs;
ghost use Rattle.bye_graph.specs.Orders as spec;

use crate::entry::{Entry, Order};
use crate::graph::Graph;
use crate::sorting::{in_order, sorted};
use crate::terms::Terms;
use bye_terms::{Memory, Term, Triple};
use std::alloc::Global;
use std::marker::Model;

/// A graph that grows triple by triple, seen as the list of the triples that were added.
#[derive(Drop)]
pub struct GraphBuilder {
    alloc: Global,
    terms: Terms,
    entries: Vec<Entry>,
}

impl Model for GraphBuilder {
    ghost use Rattle.std.specs.Prelude.{List};
    ghost use Rattle.bye_terms.specs.Terms.{Statement};
    ghost use Rattle.bye_graph.specs.Graphs.{statements};
    ghost use Rattle.bye_graph.specs.Orders.{IsGrowing, keys_of};

    ghost Value = { List Statement };

    ghost view = { λ b. statements (record { terms = b.terms; keys = keys_of b.entries.items }) };

    ghost invariant = { λ b. IsGrowing (record { terms = b.terms; keys = keys_of b.entries.items }) };
}

/// The numbers of a triple's terms. Those that are new are kept.
fn numbers_of(terms: &mut Terms, s: Term, p: Term, o: Term) -> Result<(u32, u32, u32), Memory>
    requires { length terms.old + 3 < 2 ^ 32 }
    ensures grew { spec.Grew terms.old terms.new }
    ensures kept { IfOk result (λ key. spec.AreKept terms.old terms.new key (record { s = s; p = p; o = o })) }
{
    let s = terms.number(s)?;
    let p = terms.number(p)?;
    let o = terms.number(o)?;
    Ok((s, p, o))
}

/// Puts a triple at the end of a list of entries, and its new terms at the end of the terms.
fn put(terms: &mut Terms, entries: &mut Vec<Entry>, triple: Triple) -> Result<(), Memory>
    requires { length terms.old + 3 < 2 ^ 32 }
    ensures grew { spec.Grew terms.old terms.new }
    ensures ok { OnOk result (spec.IsPut terms.old terms.new entries.old.items entries.new.items triple) }
    ensures err { OnErr result (entries.new.items ≡ entries.old.items) }
{
    let Triple { s, p, o } = triple;
    let key = numbers_of(terms, s, p, o)?;
    entries.push(Order::Subject.entry_of(key))?;
    Ok(())
}

impl GraphBuilder {
    /// No triples yet.
    pub fn new(alloc: Global) -> GraphBuilder
        ensures { result ≡ [] }
    {
        GraphBuilder {
            alloc,
            terms: Terms::new(alloc),
            entries: Vec::new(alloc),
        }
    }

    /// How many triples were added.
    pub fn len(&self) -> usize
        ensures { result ≡ length self.now }
    {
        self.entries.as_slice().len()
    }

    /// Adds a triple. Only terms that are new are kept.
    pub fn add(&mut self, triple: Triple) -> Result<(), Memory>
        requires { length self.old < graphs.most_triples }
        ensures ok { OnOk result (self.new ≡ self.old ++ triple ∷ []) }
        ensures err { OnErr result (self.new ≡ self.old) }
    {
        let known = self.terms.count();
        match put(&mut self.terms, &mut self.entries, triple) {
            Ok(()) => Ok(()),
            Err(refused) => {
                self.terms.truncate(known);
                Err(refused)
            }
        }
    }

    /// The graph of the triples that were added.
    pub fn finish(self) -> Result<Graph, Memory>
        ensures { IfOk result (λ g. (f : Statement) → In (graphs.statements g) f ↔ In self f) }
    {
        let GraphBuilder {
            alloc,
            terms,
            entries,
        } = self;
        let spo = sorted(entries);
        let pos = in_order(alloc, spo.as_slice(), Order::Predicate)?;
        let osp = in_order(alloc, spo.as_slice(), Order::Object)?;
        Ok(Graph::new(terms, spo, pos, osp))
    }
}
