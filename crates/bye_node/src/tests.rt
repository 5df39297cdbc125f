//! Extensions over a graph of five triples between friends, and of many more of a hub.

ghost use Rattle.std.specs.Prelude.{◌<◌};

use super::*;
use bye_graph::GraphBuilder;
use bye_pattern::{Cond, Constant, Node, Slot, TriplePattern};
use bye_table::Row;
use bye_terms::{Iri, Term, Text, Triple, Var, push_item};
use std::alloc::Global;
use std::test::Fail;

type Triples<'a> = &'a [[&'a str; 3]];

const FRIENDS: Triples<'_> = &[
    ["ann", "knows", "bob"],
    ["ann", "knows", "cid"],
    ["bob", "knows", "dan"],
    ["cid", "knows", "eve"],
    ["eve", "likes", "eve"],
];

const CHAIN: Triples<'_> = &[
    ["?x", "knows", "?y"],
    ["?y", "knows", "?z"],
    ["?z", "likes", "?z"],
];

const KNOWS: Triples<'_> = &[["?x", "knows", "?y"]];

/// Patterns, whether y and w are to have the same term, what the row says of a variable, and the values beside it.
const CASES: &[(Triples<'_>, bool, &str, &str, &str)] = &[
    // The search may go to the first friend, whom nobody likes.
    (CHAIN, false, "v", "eve", "p:ann p:cid p:eve "),
    (CHAIN, false, "y", "bob", "none"),
    (KNOWS, false, "y", "zoe", "none"),
    // The condition holds at the last of many triples, and nowhere for an unbound w.
    (KNOWS, true, "w", "n19999", "p:hub p:n19999 "),
    (KNOWS, true, "v", "eve", "none"),
    (&[["bob", "knows", "?x"]], false, "x", "dan", ""),
];

fn iri(alloc: Global, name: &str) -> Result<Iri, Fail> {
    let text = format!(in alloc; "p:{name}")?;
    Ok(Iri::from_text(Text::copy_of(alloc, text.as_str())?).ok_or("no IRI")?)
}

fn triple(alloc: Global, s: &str, p: &str, o: &str) -> Result<Triple, Fail> {
    Ok(Triple {
        s: Term::Iri(iri(alloc, s)?),
        p: Term::Iri(iri(alloc, p)?),
        o: Term::Iri(iri(alloc, o)?),
    })
}

fn add(builder: &mut GraphBuilder, triple: Triple) -> Result<(), Fail> {
    if builder.len() >= 1_048_576 {
        return Err(Fail::from("too many triples"));
    }
    Ok(builder.add(triple)?)
}

fn variable(alloc: Global, name: &str) -> Result<Var, Fail> {
    Ok(Var::from_name(Text::copy_of(alloc, name)?).ok_or("no name")?)
}

fn slot(alloc: Global, text: &str) -> Result<Slot, Fail> {
    if let Some(name) = text.strip_prefix("?") {
        return Ok(Slot::Var(variable(alloc, name)?));
    }
    let term = Term::Iri(iri(alloc, text)?);
    Ok(Slot::Const(Constant::of_term(term).ok_or("a blank node")?))
}

fn node(alloc: Global, patterns: Triples<'_>, conditioned: bool) -> Result<Node, Fail> {
    let mut triples = Vec::new(alloc);
    for [s, p, o] in patterns {
        let pattern = TriplePattern::of_slots(slot(alloc, s)?, slot(alloc, p)?, slot(alloc, o)?);
        push_item(&mut triples, pattern.ok_or("no pattern")?)?;
    }
    let mut node = Node::of_triples(alloc, triples);
    if conditioned {
        node.conds.push(Cond::SameVar(variable(alloc, "y")?, variable(alloc, "w")?))?;
    }
    Ok(node)
}

/// The values in their order.
fn shown(alloc: Global, values: Option<Row>) -> Result<String, Fail> {
    let Some(row) = values else {
        return Ok(format!(in alloc; "none")?);
    };
    let mut text = String::new(alloc);
    for (_, term) in row.listed() {
        if let Term::Iri(iri) = term {
            text.push_str(iri.text().as_str())?;
            text.push_str(" ")?;
        }
    }
    Ok(text)
}

#[test]
fn finds_values(rt: HostRuntime) -> Result<(), Fail> {
    let alloc = rt.alloc();
    let mut builder = GraphBuilder::new(alloc);
    for [s, p, o] in FRIENDS {
        add(&mut builder, triple(alloc, s, p, o)?)?;
    }
    for n in 0..20_000_u32 {
        let name = format!(in alloc; "n{n}")?;
        add(&mut builder, triple(alloc, "hub", "knows", name.as_str())?)?;
    }
    let graph = builder.finish()?;
    for (patterns, conditioned, name, value, values) in CASES {
        let node = node(alloc, patterns, *conditioned)?;
        let mut row = Row::new(alloc);
        row.bind(variable(alloc, name)?, Term::Iri(iri(alloc, value)?))?;
        let found = extension(alloc, &graph, &node, &row)?;
        assert_eq!(rt; shown(alloc, found)?.as_str(), *values);
    }
    Ok(())
}
