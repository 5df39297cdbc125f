//! Tables and their texts.

use super::*;
use bye_table::{Row, Table};
use bye_terms::{Iri, Label, Literal, Tag, Term, Text, Var, push_item};
use std::alloc::Global;
use std::str;
use std::test::Fail;

#[derive(Clone, Copy)]
enum Cell {
    Iri(&'static str),
    Blank(&'static str),
    String(&'static str),
    Tagged(&'static str, &'static str),
    Typed(&'static str, &'static str),
}

use Cell::{Blank, Iri as Ref, String as Plain, Tagged, Typed};

/// Variables, rows, and the texts in TSV and in CSV.
const TABLES: &[(&[&str], &[&[(&str, Cell)]], &str, &str)] = &[
    // No line is empty in CSV.
    (&[], &[], "\n", "\"\"\r\n"),
    (&[], &[&[], &[]], "\n\n\n", "\"\"\r\n\"\"\r\n\"\"\r\n"),
    (
        &["x"],
        &[&[], &[("x", Plain(""))]],
        "?x\n\n\"\"\n",
        "x\r\n\"\"\r\n\"\"\r\n",
    ),
    // Cells stand in the order of the variables, and unbound ones are empty.
    (
        &["x", "y", "z"],
        &[
            &[],
            &[("z", Plain("c")), ("x", Plain("a"))],
            &[("y", Plain("b"))],
        ],
        "?x\t?y\t?z\n\t\t\n\"a\"\t\t\"c\"\n\t\"b\"\t\n",
        "x,y,z\r\n,,\r\na,,c\r\n,b,\r\n",
    ),
    // CSV tells neither kinds nor tags nor datatypes.
    (
        &["x", "name"],
        &[
            &[
                ("x", Ref("http://example.org/a,b")),
                ("name", Tagged("Ada", "en-GB")),
            ],
            &[
                ("x", Blank("b.1")),
                (
                    "name",
                    Typed("1", "http://www.w3.org/2001/XMLSchema#integer"),
                ),
            ],
        ],
        "?x\t?name\n<http://example.org/a,b>\t\"Ada\"@en-GB\n_:b.1\t\"1\"^^<http://www.w3.org/2001/XMLSchema#integer>\n",
        "x,name\r\n\"http://example.org/a,b\",Ada\r\n_:b.1,1\r\n",
    ),
    // What is escaped in TSV, and what is quoted in CSV.
    (
        &["t"],
        &[
            &[("t", Plain("a\tb"))],
            &[("t", Plain("say \"hi\""))],
            &[("t", Plain("\""))],
            &[("t", Plain("a,b"))],
            &[("t", Plain("a\nb"))],
            &[("t", Plain("a\rb"))],
            &[("t", Plain("a\\b 'c' "))],
            &[("t", Plain("\u{E9}\u{10FFFF}"))],
        ],
        "?t\n\"a\\tb\"\n\"say \\\"hi\\\"\"\n\"\\\"\"\n\"a,b\"\n\"a\\nb\"\n\"a\\rb\"\n\"a\\\\b 'c' \"\n\"\u{E9}\u{10FFFF}\"\n",
        "t\r\na\tb\r\n\"say \"\"hi\"\"\"\r\n\"\"\"\"\r\n\"a,b\"\r\n\"a\nb\"\r\n\"a\rb\"\r\na\\b 'c' \r\n\u{E9}\u{10FFFF}\r\n",
    ),
];

fn variable(alloc: Global, name: &str) -> Result<Var, Fail> {
    Ok(Var::from_name(Text::copy_of(alloc, name)?).ok_or("no name")?)
}

fn iri(alloc: Global, text: &str) -> Result<Iri, Fail> {
    Ok(Iri::from_text(Text::copy_of(alloc, text)?).ok_or("no IRI")?)
}

fn label(alloc: Global, text: &str) -> Result<Label, Fail> {
    Ok(Label::from_text(Text::copy_of(alloc, text)?).ok_or("no label")?)
}

fn tagged(alloc: Global, lexical: &str, tag: &str) -> Result<Literal, Fail> {
    let tag = Tag::from_text(Text::copy_of(alloc, tag)?).ok_or("no tag")?;
    Ok(Literal::tagged(alloc, Text::copy_of(alloc, lexical)?, tag)?)
}

fn typed(alloc: Global, lexical: &str, datatype: &str) -> Result<Literal, Fail> {
    let datatype = iri(alloc, datatype)?;
    Ok(Literal::typed(Text::copy_of(alloc, lexical)?, datatype).ok_or("no literal")?)
}

fn term(alloc: Global, cell: Cell) -> Result<Term, Fail> {
    match cell {
        Ref(text) => Ok(Term::Iri(iri(alloc, text)?)),
        Blank(text) => Ok(Term::Blank(label(alloc, text)?)),
        Plain(text) => Ok(Term::Lit(Literal::string(alloc, Text::copy_of(alloc, text)?)?)),
        Tagged(text, tag) => Ok(Term::Lit(tagged(alloc, text, tag)?)),
        Typed(text, datatype) => Ok(Term::Lit(typed(alloc, text, datatype)?)),
    }
}

fn row(alloc: Global, pairs: &[(&str, Cell)]) -> Result<Row, Fail> {
    let mut row = Row::new(alloc);
    for (name, cell) in pairs {
        let variable = variable(alloc, name)?;
        if row.get(&variable).is_some() {
            return Err(Fail::from("bound twice"));
        }
        row.bind(variable, term(alloc, *cell)?)?;
    }
    Ok(row)
}

fn table(alloc: Global, names: &[&str], rows: &[&[(&str, Cell)]]) -> Result<Table, Fail> {
    let mut vars = Vec::new(alloc);
    for name in names {
        push_item(&mut vars, variable(alloc, name)?)?;
    }
    let Ok(mut table) = Table::new(alloc, vars) else {
        return Err(Fail::from("no table"));
    };
    for pairs in rows {
        if table.add_row(row(alloc, pairs)?).is_err() {
            return Err(Fail::from("no row"));
        }
    }
    Ok(table)
}

#[test]
fn writes_tables(rt: HostRuntime) -> Result<(), Fail> {
    let alloc = rt.alloc();
    for (names, rows, tsv, csv) in TABLES {
        let table = table(alloc, names, rows)?;
        assert_eq!(rt; str::from_utf8(write_tsv(alloc, &table)?.as_slice())?, *tsv);
        assert_eq!(rt; str::from_utf8(write_csv(alloc, &table)?.as_slice())?, *csv);
    }
    Ok(())
}
