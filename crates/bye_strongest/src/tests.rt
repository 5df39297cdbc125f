//! What rows have in common in a graph of a few triples, and in one of a hub with many.

ghost use Rattle.std.specs.Prelude.{◌≡◌, ◌<◌};

use super::*;
use bye_graph::{Graph, GraphBuilder};
use bye_pattern::{Cond, Kind, Level, Node, Slot, TriplePattern};
use bye_table::{Row, Table};
use bye_terms::{Iri, Label, Term, Text, Triple, Var, push_item};
use std::alloc::Global;
use std::test::Fail;

const TRIPLES: &[[&str; 3]] = &[
    ["ann", "is", "person"],
    ["cid", "is", "person"],
    ["_:b", "is", "person"],
    ["ann", "knows", "bob"],
    ["cid", "knows", "dan"],
    ["cid", "knows", "eve"],
    ["dan", "likes", "dan"],
];

/// Whether kind tests are asked for, variables, rows, and what these have in common.
const CASES: &[(bool, &[&str], &[&[&str]], &str)] = &[
    // A candidate of one row that fails the other is left out.
    (
        false,
        &["x", "y"],
        &[&["cid", "dan"], &["ann", "bob"]],
        "?x is person. ?x knows ?y. bound(x) bound(y) ",
    ),
    (
        true,
        &["x"],
        &[&["ann"], &["_:b"]],
        "?x is person. bound(x) ",
    ),
    // The term of a blank node is no constant.
    (
        true,
        &["x"],
        &[&["_:b"]],
        "?x is person. bound(x) isBlank(x) ",
    ),
    // One triple has both terms of the row, one of them twice: each way to put variables for them.
    (
        false,
        &["p", "x"],
        &[&["likes", "dan"]],
        "cid knows ?x. dan likes ?x. dan ?p dan. ?x likes dan. ?x likes ?x. dan ?p ?x. ?x ?p dan. ?x ?p ?x. bound(p) bound(x) p=likes x=dan ",
    ),
    // A term that is not in the graph is in no triple pattern.
    (
        true,
        &["x", "y"],
        &[&["zoe", "zoe"]],
        "bound(x) bound(y) x=y x=zoe y=zoe isIRI(x) isIRI(y) ",
    ),
];

fn iri(alloc: Global, name: &str) -> Result<Iri, Fail> {
    let text = format!(in alloc; "p:{name}")?;
    Ok(Iri::from_text(Text::copy_of(alloc, text.as_str())?).ok_or("no IRI")?)
}

/// A blank node after `_:`, or an IRI.
fn term(alloc: Global, text: &str) -> Result<Term, Fail> {
    if let Some(label) = text.strip_prefix("_:") {
        let label = Label::from_text(Text::copy_of(alloc, label)?);
        return Ok(Term::Blank(label.ok_or("no label")?));
    }
    Ok(Term::Iri(iri(alloc, text)?))
}

fn add(alloc: Global, builder: &mut GraphBuilder, s: &str, p: &str, o: &str) -> Result<(), Fail> {
    if builder.len() >= 1_048_576 {
        return Err(Fail::from("too many triples"));
    }
    let p = Term::Iri(iri(alloc, p)?);
    let o = term(alloc, o)?;
    let s = match term(alloc, s)? {
        Term::Iri(iri) => Term::Iri(iri),
        Term::Blank(label) => Term::Blank(label),
        Term::Lit(_) => return Err(Fail::from("a literal as subject")),
    };
    Ok(builder.add(Triple { s, p, o })?)
}

fn variable(alloc: Global, name: &str) -> Result<Var, Fail> {
    Ok(Var::from_name(Text::copy_of(alloc, name)?).ok_or("no name")?)
}

fn bind(row: &mut Row, variable: Var, term: Term) -> Result<(), Fail> {
    if row.get(&variable).is_some() {
        return Err(Fail::from("bound twice"));
    }
    Ok(row.bind(variable, term)?)
}

fn table(alloc: Global, vars: &[&str]) -> Result<Table, Fail> {
    let mut names = Vec::new(alloc);
    for name in vars {
        push_item(&mut names, variable(alloc, name)?)?;
    }
    match Table::new(alloc, names) {
        Ok(table) => Ok(table),
        Err(_) => Err(Fail::from("a variable stands twice")),
    }
}

fn push_row(table: &mut Table, row: Row) -> Result<(), Fail> {
    match table.add_row(row) {
        Ok(()) => Ok(()),
        Err(_) => Err(Fail::from("another variable")),
    }
}

/// A row of the terms, in the order of the variables.
fn row_of(alloc: Global, vars: &[&str], terms: &[&str]) -> Result<Row, Fail> {
    let mut row = Row::new(alloc);
    for (name, text) in vars.iter().zip(terms) {
        bind(&mut row, variable(alloc, name)?, term(alloc, text)?)?;
    }
    Ok(row)
}

/// A row of a thing and its hub.
fn row_of_hub(alloc: Global, thing: &str) -> Result<Row, Fail> {
    let mut row = Row::new(alloc);
    bind(&mut row, variable(alloc, "x")?, term(alloc, thing)?)?;
    bind(&mut row, variable(alloc, "h")?, term(alloc, "hub")?)?;
    Ok(row)
}

fn common(alloc: Global, graph: &Graph, level: Level, table: &Table) -> Result<Node, Fail> {
    let rows = table.rows();
    if rows.is_empty() {
        return Err(Fail::from("no row"));
    }
    Ok(strongest(alloc, graph, level, table.vars(), rows)?)
}

fn show_term(text: &mut String, term: &Term) -> Result<(), Fail> {
    match term {
        Term::Iri(iri) => text.push_str(iri.text().as_str().strip_prefix("p:").unwrap_or("?"))?,
        Term::Blank(_) | Term::Lit(_) => text.push_str("_")?,
    }
    Ok(())
}

fn show_slot(text: &mut String, slot: &Slot, after: &str) -> Result<(), Fail> {
    match slot {
        Slot::Var(var) => {
            text.push_str("?")?;
            text.push_str(var.name().as_str())?;
        }
        Slot::Const(constant) => show_term(text, constant.term())?,
    }
    Ok(text.push_str(after)?)
}

fn show_pattern(text: &mut String, pattern: &TriplePattern) -> Result<(), Fail> {
    show_slot(text, pattern.s(), " ")?;
    show_slot(text, pattern.p(), " ")?;
    show_slot(text, pattern.o(), ". ")
}

fn show_test(text: &mut String, test: &str, var: &Var) -> Result<(), Fail> {
    text.push_str(test)?;
    text.push_str("(")?;
    text.push_str(var.name().as_str())?;
    Ok(text.push_str(") ")?)
}

fn kind_test(kind: &Kind) -> &'static str {
    match kind {
        Kind::Iri => "isIRI",
        Kind::Blank => "isBlank",
        Kind::Literal => "isLiteral",
    }
}

fn show_cond(text: &mut String, cond: &Cond) -> Result<(), Fail> {
    match cond {
        Cond::Bound(var) => show_test(text, "bound", var),
        Cond::KindOf(kind, var) => show_test(text, kind_test(kind), var),
        Cond::SameVar(var, other) => {
            text.push_str(var.name().as_str())?;
            text.push_str("=")?;
            text.push_str(other.name().as_str())?;
            Ok(text.push_str(" ")?)
        }
        Cond::SameConst(var, constant) => {
            text.push_str(var.name().as_str())?;
            text.push_str("=")?;
            show_term(text, constant.term())?;
            Ok(text.push_str(" ")?)
        }
    }
}

fn shown(alloc: Global, patterns: &[TriplePattern], conds: &[Cond]) -> Result<String, Fail> {
    let mut text = String::new(alloc);
    for pattern in patterns {
        show_pattern(&mut text, pattern)?;
    }
    for cond in conds {
        show_cond(&mut text, cond)?;
    }
    Ok(text)
}

#[test]
fn rows_have_in_common(rt: HostRuntime) -> Result<(), Fail> {
    let alloc = rt.alloc();
    let mut builder = GraphBuilder::new(alloc);
    for [s, p, o] in TRIPLES {
        add(alloc, &mut builder, s, p, o)?;
    }
    let graph = builder.finish()?;
    for (second, vars, rows, told) in CASES {
        let mut table = table(alloc, vars)?;
        for row in *rows {
            push_row(&mut table, row_of(alloc, vars, row)?)?;
        }
        let level = if *second { Level::Two } else { Level::One };
        let node = common(alloc, &graph, level, &table)?;
        let text = shown(alloc, node.triples.as_slice(), node.conds.as_slice())?;
        assert_eq!(rt; text.as_str(), *told);
        assert!(rt; node.children.as_slice().is_empty());
    }
    Ok(())
}

#[test]
fn a_column_of_one_hub(rt: HostRuntime) -> Result<(), Fail> {
    let alloc = rt.alloc();
    let mut builder = GraphBuilder::new(alloc);
    let mut table = table(alloc, &["x", "h"])?;
    for n in 0..10_000_u32 {
        let name = format!(in alloc; "n{n}")?;
        add(alloc, &mut builder, "hub", "owns", name.as_str())?;
        add(alloc, &mut builder, name.as_str(), "is", "thing")?;
        push_row(&mut table, row_of_hub(alloc, name.as_str())?)?;
    }
    let graph = builder.finish()?;
    let node = common(alloc, &graph, Level::Two, &table)?;
    let triples = node.triples.as_slice();
    let (of_one, of_more) = triples.split_at(triples.len().saturating_sub(1));
    assert_eq!(rt; of_one.len(), 10_002);
    let text = shown(alloc, of_more, node.conds.as_slice())?;
    let told = "?h owns ?x. bound(x) bound(h) h=hub isIRI(x) isIRI(h) ";
    assert_eq!(rt; text.as_str(), told);
    Ok(())
}
