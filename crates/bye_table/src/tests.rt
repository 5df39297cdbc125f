//! Tables and their sorted sets.

use super::*;
use bye_terms::{Iri, Label, Literal, Term, Text, Var, push_item};
use std::alloc::Global;
use std::test::Fail;

/// Pairs of a variable and a term: an IRI in its brackets, a label after `_:`, or a string.
type Pairs<'a> = &'a [(&'a str, &'a str)];

/// Variables, rows, and the rows of the sorted set.
const SETS: &[(&[&str], &[Pairs<'_>], &[Pairs<'_>])] = &[
    (&[], &[], &[]),
    // Without variables all rows are equal.
    (&[], &[&[], &[]], &[&[]]),
    (&["x"], &[], &[]),
    // An unbound cell stands before a bound one, and a string before an IRI before a blank node.
    (
        &["x"],
        &[
            &[("x", "_:a")],
            &[("x", "a")],
            &[],
            &[("x", "<p:a>")],
            &[],
            &[("x", "a")],
        ],
        &[&[], &[("x", "a")], &[("x", "<p:a>")], &[("x", "_:a")]],
    ),
    // The cells go by the order of the variables, whatever that of the pairs is.
    (
        &["y", "x"],
        &[
            &[("x", "1"), ("y", "2")],
            &[("y", "1"), ("x", "2")],
            &[("x", "1")],
            &[("x", "2"), ("y", "1")],
            &[("y", "2")],
        ],
        &[
            &[("x", "1")],
            &[("y", "1"), ("x", "2")],
            &[("y", "2")],
            &[("x", "1"), ("y", "2")],
        ],
    ),
    // Terms go by their whole spellings: the bracket of the shorter IRI stands after the digit of the longer one.
    (
        &["x", "y"],
        &[
            &[("x", "<p:1>"), ("y", "a")],
            &[("x", "<p:10>"), ("y", "b")],
            &[("x", "<p:1>")],
        ],
        &[
            &[("x", "<p:10>"), ("y", "b")],
            &[("x", "<p:1>")],
            &[("x", "<p:1>"), ("y", "a")],
        ],
    ),
];

fn variable(alloc: Global, name: &str) -> Result<Var, Fail> {
    Ok(Var::from_name(Text::copy_of(alloc, name)?).ok_or("no name")?)
}

fn variables(alloc: Global, names: &[&str]) -> Result<Vec<Var>, Fail> {
    let mut vars = Vec::new(alloc);
    for name in names {
        push_item(&mut vars, variable(alloc, name)?)?;
    }
    Ok(vars)
}

fn term(alloc: Global, text: &str) -> Result<Term, Fail> {
    if let Some(rest) = text.strip_prefix("<") {
        let iri = Text::copy_of(alloc, rest.strip_suffix(">").ok_or("no bracket")?)?;
        return Ok(Term::Iri(Iri::from_text(iri).ok_or("no IRI")?));
    }
    if let Some(label) = text.strip_prefix("_:") {
        return Ok(Term::Blank(Label::from_text(Text::copy_of(alloc, label)?).ok_or("no label")?));
    }
    Ok(Term::Lit(Literal::string(alloc, Text::copy_of(alloc, text)?)?))
}

fn row(alloc: Global, pairs: Pairs<'_>) -> Result<Row, Fail> {
    let mut row = Row::new(alloc);
    for (name, text) in pairs {
        let variable = variable(alloc, name)?;
        if row.get(&variable).is_some() {
            return Err(Fail::from("bound twice"));
        }
        row.bind(variable, term(alloc, text)?)?;
    }
    Ok(row)
}

fn table(alloc: Global, names: &[&str], rows: &[Pairs<'_>]) -> Result<Table, Fail> {
    let Ok(mut table) = Table::new(alloc, variables(alloc, names)?) else {
        return Err(Fail::from("no table"));
    };
    for pairs in rows {
        if table.add_row(row(alloc, pairs)?).is_err() {
            return Err(Fail::from("no row"));
        }
    }
    Ok(table)
}

#[test]
fn sorts_rows_and_leaves_one_of_each(rt: HostRuntime) -> Result<(), Fail> {
    let alloc = rt.alloc();
    for (names, rows, sorted) in SETS {
        let set = sorted_set(alloc, &table(alloc, names, rows)?)?;
        let wanted = table(alloc, names, sorted)?;
        assert_eq!(rt;
            format!(in alloc; "{set:?}")?,
            format!(in alloc; "{wanted:?}")?
        );
    }
    Ok(())
}

#[test]
fn sorts_many_rows(rt: HostRuntime) -> Result<(), Fail> {
    let alloc = rt.alloc();
    let mut many = table(alloc, &["x", "y", "z"], &[])?;
    for i in 0..20_000_u32 {
        let n = i * 7_919 % 10_000;
        let text = format!(in alloc; "<p:{n}>")?;
        let row = row(alloc, &[("x", text.as_str()), ("z", "z")])?;
        assert!(rt; many.add_row(row).is_ok());
    }
    assert_eq!(rt; sorted_set(alloc, &many)?.rows().len(), 10_000);
    Ok(())
}

#[test]
fn refuses_repeated_and_foreign_variables(rt: HostRuntime) -> Result<(), Fail> {
    let alloc = rt.alloc();
    assert!(rt;
        matches!(
            Table::new(alloc, variables(alloc, &["x", "y", "x"])?),
            Err(TableErr::Repeated)
        )
    );
    let mut table = table(alloc, &["x"], &[])?;
    let row = row(alloc, &[("x", "a"), ("y", "b")])?;
    assert!(rt; matches!(row.get(&variable(alloc, "y")?), Some(Term::Lit(_))));
    assert!(rt; matches!(table.add_row(row), Err(TableErr::Foreign)));
    assert_eq!(rt; table.rows().len(), 0);
    Ok(())
}
