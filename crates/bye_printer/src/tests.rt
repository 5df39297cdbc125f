//! SELECTs and their written texts.

use super::*;
use bye_pattern::{Cond, Constant, Kind, Node, Slot, TriplePattern};
use bye_terms::{Iri, Literal, Term, Text, Var};
use bye_tree::{Select, Tree};
use sqlite_items::Items;
use std::alloc::Global;
use std::test::Fail;

fn var(alloc: Global, name: &str) -> Result<Var, Fail> {
    let name = Text::copy_of(alloc, name)?;
    Ok(Var::from_name(name).ok_or("no name")?)
}

fn iri(alloc: Global, text: &str) -> Result<Slot, Fail> {
    let iri = Iri::from_text(Text::copy_of(alloc, text)?).ok_or("no IRI")?;
    let constant = Constant::of_term(Term::Iri(iri)).ok_or("no constant")?;
    Ok(Slot::Const(constant))
}

fn string(alloc: Global, text: &str) -> Result<Constant, Fail> {
    let literal = Literal::string(alloc, Text::copy_of(alloc, text)?)?;
    Ok(Constant::of_term(Term::Lit(literal)).ok_or("no constant")?)
}

/// The triple pattern of a variable, an IRI and another variable.
fn pattern(alloc: Global, s: &str, p: &str, o: &str) -> Result<TriplePattern, Fail> {
    let s = Slot::Var(var(alloc, s)?);
    let o = Slot::Var(var(alloc, o)?);
    Ok(TriplePattern::of_slots(s, iri(alloc, p)?, o).ok_or("no pattern")?)
}

fn node(triples: Vec<TriplePattern>, conds: Vec<Cond>, children: Vec<Node>) -> Node {
    Node {
        triples: Items::from_vec(triples),
        conds: Items::from_vec(conds),
        children: Items::from_vec(children),
    }
}

/// SELECT DISTINCT of one variable.
fn select(alloc: Global, name: &str, root: Node) -> Result<Select, Fail> {
    let Ok(tree) = Tree::try_new(alloc, root) else {
        return Err("no tree".into());
    };
    let name = var(alloc, name)?;
    Ok(Select::plain(alloc, tree, vec![in alloc; name]?))
}

/// A group of one triple pattern.
fn group(alloc: Global, s: &str, p: &str, o: &str, children: Vec<Node>) -> Result<Node, Fail> {
    let pattern = pattern(alloc, s, p, o)?;
    Ok(node(vec![in alloc; pattern]?, vec![in alloc]?, children))
}

/// A group with a condition of each kind.
fn conditions(alloc: Global) -> Result<Node, Fail> {
    let triples = vec![in alloc; pattern(alloc, "s", "http://e/p", "o")?]?;
    let conds = vec![in alloc;
        Cond::Bound(var(alloc, "s")?),
        Cond::SameVar(var(alloc, "s")?, var(alloc, "o")?),
        Cond::SameConst(var(alloc, "o")?, string(alloc, "a\n\"b\"")?),
        Cond::KindOf(Kind::Iri, var(alloc, "s")?),
        Cond::KindOf(Kind::Blank, var(alloc, "s")?),
        Cond::KindOf(Kind::Literal, var(alloc, "o")?),
    ]?;
    Ok(node(triples, conds, vec![in alloc]?))
}

/// A group with a child that has a child, and another child.
fn nested(alloc: Global) -> Result<Node, Fail> {
    let lowest = group(alloc, "a", "http://e/r", "b", vec![in alloc]?)?;
    let first = group(alloc, "s", "http://e/q", "a", vec![in alloc; lowest]?)?;
    let second = group(alloc, "s", "http://e/t", "c", vec![in alloc]?)?;
    group(
        alloc,
        "s",
        "http://e/p",
        "o",
        vec![in alloc; first, second]?,
    )
}

#[test]
fn writes_selects(rt: HostRuntime) -> Result<(), Fail> {
    let alloc = rt.alloc();
    let one = group(alloc, "s", "http://e/p", "o", vec![in alloc]?)?;
    for (root, want) in [
        (
            one,
            "SELECT DISTINCT ?s\nWHERE {\n  ?s <http://e/p> ?o .\n}\n",
        ),
        (
            conditions(alloc)?,
            "SELECT DISTINCT ?s\nWHERE {\n  ?s <http://e/p> ?o .\n  FILTER (bound(?s))\n  FILTER (sameTerm(?s, ?o))\n  FILTER (sameTerm(?o, \"a\\n\\\"b\\\"\"))\n  FILTER (isIRI(?s))\n  FILTER (isBlank(?s))\n  FILTER (isLiteral(?o))\n}\n",
        ),
        (
            nested(alloc)?,
            "SELECT DISTINCT ?s\nWHERE {\n  ?s <http://e/p> ?o .\n  OPTIONAL {\n    ?s <http://e/q> ?a .\n    OPTIONAL {\n      ?a <http://e/r> ?b .\n    }\n  }\n  OPTIONAL {\n    ?s <http://e/t> ?c .\n  }\n}\n",
        ),
    ] {
        let select = select(alloc, "s", root)?;
        let bytes = write_query(alloc, &select)?;
        assert_eq!(rt; str::from_utf8(bytes.as_slice()), Ok(want));
    }
    Ok(())
}
