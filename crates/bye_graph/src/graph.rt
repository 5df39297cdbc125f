ghost use Rattle.std.specs.Prelude.{◌≡◌, ◌+◌, ◌*◌, ◌<◌, ◌≤◌, ◌↔◌, ℕ, IfOk, IfSome, IsSome, IsTrue, Some, length, slice_get};
ghost use Rattle.bye_terms.specs.Members.{In};
ghost use Rattle.bye_terms.specs.Terms.{Statement};
ghost use Rattle.bye_graph.specs.Graphs as graphs;
ghost use Rattle.bye_graph.specs.Orders as spec;

use crate::builder::GraphBuilder;
use crate::entry::{Entry, Order};
use crate::found::Found;
use crate::search::{first_from, part_within};
use crate::span::span_of;
use crate::steps::Steps;
use crate::terms::Terms;
use bye_terms::{Memory, Term, Triple};
use std::alloc::Global;
use std::marker::Model;
use std::sync::ledger::Ledger;

/// A graph (RDF 1.1 Concepts, section 3). Each of its terms has a number, and its triples are sorted by these numbers in three orders.
#[derive(Drop)]
pub struct Graph {
    terms: Terms,
    spo: Vec<Entry>,
    pos: Vec<Entry>,
    osp: Vec<Entry>,
}

impl Model for Graph {
    ghost use Rattle.bye_graph.specs.Graphs.{GraphValue};
    ghost use Rattle.bye_graph.specs.Orders.{IsGraph, keys_of};

    ghost Value = { GraphValue };

    ghost view = { λ g. record { terms = g.terms; keys = keys_of g.spo.items } };

    ghost invariant = { λ g. IsGraph (record { terms = g.terms; keys = keys_of g.spo.items }) g.spo.items g.pos.items g.osp.items };
}

impl Graph {
    /// The graph of terms and of three orders of its triples.
    pub(crate) fn new(terms: Terms, spo: Vec<Entry>, pos: Vec<Entry>, osp: Vec<Entry>) -> Graph
        requires { spec.IsGraph (record { terms = terms; keys = spec.keys_of spo.items }) spo.items pos.items osp.items }
        ensures { result ≡ record { terms = terms; keys = spec.keys_of spo.items } }
    {
        Graph {
            terms,
            spo,
            pos,
            osp,
        }
    }

    /// The graph of these triples.
    pub fn build(alloc: Global, triples: Vec<Triple>) -> Result<Graph, Memory>
        requires { length triples.items ≤ graphs.most_triples }
        ensures { IfOk result (λ g. (f : Statement) → In (graphs.statements g) f ↔ In triples.items f) }
    {
        let mut builder = GraphBuilder::new(alloc);
        for triple in triples {
            builder.add(triple)?;
        }
        builder.finish()
    }

    /// The number of the term. None exactly where the term is in no triple.
    pub fn id_of(&self, term: &Term) -> Option<u32>
        ensures exactly { IsSome result ↔ graphs.StandsIn (graphs.statements self.now) term.now }
        ensures number { IfSome result (λ number. slice_get self.now.terms number ≡ Some term.now) }
    {
        self.terms.id_of(term)
    }

    /// The term of a number that is used.
    pub fn term(&self, id: u32) -> &Term
        requires { id < length self.now.terms }
        ensures { slice_get self.now.terms id ≡ Some result.now }
    {
        self.terms.term(id)
    }

    /// How many numbers of terms are used: they are 0 to that number less one.
    pub fn terms(&self) -> u32
        ensures count { result ≡ length self.now.terms }
        ensures numbered { graphs.IsNumbered self.now }
    {
        self.terms.count()
    }

    /// Whether the triple of these terms is in the graph.
    pub fn has<L: Ledger>(&self, s: u32, p: u32, o: u32, steps: &mut Steps<L>) -> bool
        ensures found { IsTrue result ↔ In self.now.keys (s, p, o) }
        ensures cost { (d : ℕ) → graphs.IsDepth (length self.now.keys) d → steps.new ≤ steps.old + d }
    {
        let entry = Order::Subject.entry_of((s, p, o));
        match first_from(self.order(Order::Subject), entry, steps).1 {
            Some(there) => there == entry,
            None => false,
        }
    }

    /// The triples that have the given terms, each in its place.
    pub fn find<L: Ledger>(
        &self,
        s: Option<u32>,
        p: Option<u32>,
        o: Option<u32>,
        steps: &mut Steps<L>,
    ) -> Found<'_>
        ensures matches { graphs.AreMatches self.now.keys s p o result }
        ensures cost { (d : ℕ) → graphs.IsDepth (length self.now.keys) d → steps.new ≤ steps.old + 2 * d }
    {
        let (order, span) = span_of(s, p, o);
        Found::new(part_within(self.order(order), span, steps), order)
    }

    /// How many triples have the given terms, each in its place.
    pub fn count<L: Ledger>(
        &self,
        s: Option<u32>,
        p: Option<u32>,
        o: Option<u32>,
        steps: &mut Steps<L>,
    ) -> usize
        ensures count { graphs.IsCount self.now.keys s p o result }
        ensures cost { (d : ℕ) → graphs.IsDepth (length self.now.keys) d → steps.new ≤ steps.old + 2 * d }
    {
        self.find(s, p, o, steps).len()
    }

    fn order(&self, order: Order) -> &[Entry]
        ensures { spec.IsOrder order self.now.keys result.now }
    {
        match order {
            Order::Subject => self.spo.as_slice(),
            Order::Predicate => self.pos.as_slice(),
            Order::Object => self.osp.as_slice(),
        }
    }
}

#[cfg(test)]
mod tests {
    use super::*;
    use bye_terms::{Iri, Text, push_item};
    use std::marker::Brand;
    use std::sync::ledger::Blank;
    use std::test::Fail;

    const LISTED: [(&str, &str, &str); 5] = [
        ("http://e/a", "http://e/p", "http://e/b"),
        ("http://e/a", "http://e/p", "http://e/a"),
        ("http://e/b", "http://e/p", "http://e/a"),
        ("http://e/a", "http://e/q", "http://e/b"),
        ("http://e/b", "http://e/q", "http://e/b"),
    ];

    type Key = (u32, u32, u32);

    fn iri(alloc: Global, text: &str) -> Result<Iri, Fail> {
        Ok(Iri::from_text(Text::copy_of(alloc, text)?).ok_or("no IRI")?)
    }

    fn triple(alloc: Global, s: &Iri, p: &Iri, o: &Iri) -> Result<Triple, Fail> {
        Ok(Triple {
            s: Term::Iri(s.copy(alloc)?),
            p: Term::Iri(p.copy(alloc)?),
            o: Term::Iri(o.copy(alloc)?),
        })
    }

    fn build(alloc: Global, triples: Vec<Triple>) -> Result<Graph, Fail> {
        if triples.as_slice().len() > 1_048_576 {
            Err("too many triples")?;
        }
        Ok(Graph::build(alloc, triples)?)
    }

    fn listed(alloc: Global, s: &str, p: &str, o: &str) -> Result<Triple, Fail> {
        let s = iri(alloc, s)?;
        let p = iri(alloc, p)?;
        let o = iri(alloc, o)?;
        triple(alloc, &s, &p, &o)
    }

    fn push_listed(alloc: Global, triples: &mut Vec<Triple>) -> Result<(), Fail> {
        for (s, p, o) in LISTED {
            push_item(triples, listed(alloc, s, p, o)?)?;
        }
        Ok(())
    }

    fn number(alloc: Global, graph: &Graph, text: &str) -> Result<u32, Fail> {
        let term = Term::Iri(iri(alloc, text)?);
        Ok(graph.id_of(&term).ok_or("no number")?)
    }

    fn listed_keys(alloc: Global, graph: &Graph) -> Result<Vec<Key>, Fail> {
        let mut keys = Vec::new(alloc);
        for (s, p, o) in LISTED {
            let s = number(alloc, graph, s)?;
            let p = number(alloc, graph, p)?;
            let o = number(alloc, graph, o)?;
            push_item(&mut keys, (s, p, o))?;
        }
        Ok(keys)
    }

    fn is_given(given: Option<u32>, number: u32) -> bool {
        match given {
            Some(given) => given == number,
            None => true,
        }
    }

    /// How many of the triples agree with the given numbers.
    fn count_listed(keys: &[Key], s: Option<u32>, p: Option<u32>, o: Option<u32>) -> usize {
        let mut count = 0usize;
        for key in keys {
            if is_given(s, key.0) && is_given(p, key.1) && is_given(o, key.2) {
                count = count.saturating_add(1);
            }
        }
        count
    }

    /// Whether the graph finds and counts as many triples as agree, and gives one of them first.
    fn finds<L: Ledger>(
        graph: &Graph,
        keys: &[Key],
        s: Option<u32>,
        p: Option<u32>,
        o: Option<u32>,
        steps: &mut Steps<L>,
    ) -> bool {
        let count = count_listed(keys, s, p, o);
        let mut found = graph.find(s, p, o, steps);
        if found.len() != count || graph.count(s, p, o, steps) != count {
            return false;
        }
        match found.next_counted(steps) {
            Some(key) => keys.contains(&key),
            None => count == 0,
        }
    }

    /// Whether the graph answers for the numbers of a triple, given all, some or none of them, as a walk over its triples does.
    fn answers<L: Ledger>(graph: &Graph, keys: &[Key], key: Key, steps: &mut Steps<L>) -> bool {
        let (s, p, o) = key;
        if graph.has(s, p, o, steps) != keys.contains(&key) {
            return false;
        }
        let (s, p, o) = (Some(s), Some(p), Some(o));
        let patterns = [
            (None, None, None),
            (s, None, None),
            (None, p, None),
            (None, None, o),
            (s, p, None),
            (None, p, o),
            (s, None, o),
            (s, p, o),
        ];
        for (s, p, o) in patterns {
            if !finds(graph, keys, s, p, o, steps) {
                return false;
            }
        }
        true
    }

    /// The same for each triple, and for two others beside it.
    fn answers_all<L: Ledger>(graph: &Graph, keys: &[Key], blank: Blank) -> bool
        requires name { blank.name ≡ L.name }
        requires parts { blank.parts ≡ L.parts }
        requires some { 0 < blank.parts }
    {
        let mut steps = Steps::<L>::open(blank);
        for key in keys {
            let (s, p, o) = *key;
            for key in [(s, p, o), (o, p, s), (p, 9, o)] {
                if !answers(graph, keys, key, &mut steps) {
                    return false;
                }
            }
        }
        true
    }

    fn answers_once(graph: &Graph, keys: &[Key]) -> bool {
        answers_all::<Brand>(graph, keys, Blank::new(1))
    }

    #[test]
    fn answers_as_a_walk_over_its_triples_does(rt: HostRuntime) -> Result<(), Fail> {
        let alloc = rt.alloc();
        let mut triples = Vec::new(alloc);
        push_listed(alloc, &mut triples)?;
        push_listed(alloc, &mut triples)?;
        let graph = build(alloc, triples)?;
        let keys = listed_keys(alloc, &graph)?;
        assert_eq!(rt; graph.terms(), 4);
        let unlisted = Term::Iri(iri(alloc, "http://e/c")?);
        assert!(rt; graph.id_of(&unlisted).is_none());
        assert!(rt; answers_once(&graph, keys.as_slice()));
        Ok(())
    }

    /// An IRI for each number below 1,024.
    fn numbered(alloc: Global, number: u32) -> Result<Iri, Fail> {
        let mut text = Text::copy_of(alloc, "http://e/")?;
        for bit in 0..10u32 {
            text.push_ascii(if number >> bit & 1 == 1 { "1" } else { "0" })?;
        }
        Ok(Iri::from_text(text).ok_or("no IRI")?)
    }

    fn million(alloc: Global) -> Result<Vec<Triple>, Fail> {
        let mut iris = Vec::new(alloc);
        for number in 0..1024 {
            push_item(&mut iris, numbered(alloc, number)?)?;
        }
        let p = iri(alloc, "http://e/p")?;
        let mut triples = Vec::new(alloc);
        for s in iris.iter() {
            for o in iris.iter() {
                push_item(&mut triples, triple(alloc, s, &p, o)?)?;
            }
        }
        Ok(triples)
    }

    fn count_all<L: Ledger>(graph: &Graph, blank: Blank) -> usize
        requires name { blank.name ≡ L.name }
        requires parts { blank.parts ≡ L.parts }
        requires some { 0 < blank.parts }
    {
        graph.count(None, None, None, &mut Steps::<L>::open(blank))
    }

    fn count_once(graph: &Graph) -> usize {
        count_all::<Brand>(graph, Blank::new(1))
    }

    #[test]
    fn keeps_a_million_triples(rt: HostRuntime) -> Result<(), Fail> {
        let alloc = rt.alloc();
        let graph = build(alloc, million(alloc)?)?;
        assert_eq!(rt; graph.terms(), 1025);
        assert_eq!(rt; count_once(&graph), 1_048_576);
        Ok(())
    }
}
