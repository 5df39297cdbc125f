//! Terms and how each format writes them.

use super::*;
use bye_terms::{Iri, Label, Literal, Tag, Term, Text};
use std::alloc::Global;
use std::test::Fail;

/// What a term is made of.
#[derive(Copy, Clone)]
enum Spelled {
    Iri(&'static str),
    Blank(&'static str),
    Tagged(&'static str, &'static str),
    Typed(&'static str, &'static str),
}

const STRING: &str = "http://www.w3.org/2001/XMLSchema#string";

const MARKS: &str = "\"\\\n\r\t'";

fn text(alloc: Global, s: &str) -> Result<Text, Fail> {
    Ok(Text::copy_of(alloc, s)?)
}

fn iri(alloc: Global, s: &str) -> Result<Iri, Fail> {
    Ok(Iri::from_text(text(alloc, s)?).ok_or("no IRI")?)
}

fn tagged(alloc: Global, lexical: &str, tag: &str) -> Result<Literal, Fail> {
    let tag = Tag::from_text(text(alloc, tag)?).ok_or("no tag")?;
    Ok(Literal::tagged(alloc, text(alloc, lexical)?, tag)?)
}

fn typed(alloc: Global, lexical: &str, datatype: &str) -> Result<Literal, Fail> {
    Ok(Literal::typed(text(alloc, lexical)?, iri(alloc, datatype)?).ok_or("no literal")?)
}

fn term(alloc: Global, parts: Spelled) -> Result<Term, Fail> {
    Ok(match parts {
        Spelled::Iri(s) => Term::Iri(iri(alloc, s)?),
        Spelled::Blank(s) => Term::Blank(Label::from_text(text(alloc, s)?).ok_or("no label")?),
        Spelled::Tagged(lexical, tag) => Term::Lit(tagged(alloc, lexical, tag)?),
        Spelled::Typed(lexical, datatype) => Term::Lit(typed(alloc, lexical, datatype)?),
    })
}

#[test]
fn writes_terms(rt: HostRuntime) -> Result<(), Fail> {
    for (parts, style, spelling) in [
        (
            Spelled::Iri("http://e/\u{E9}?q#f"),
            Style::Triples,
            "<http://e/\u{E9}?q#f>",
        ),
        (Spelled::Iri("a:b"), Style::Tsv, "<a:b>"),
        (Spelled::Iri("a:b"), Style::Query, "<a:b>"),
        (Spelled::Blank("a.b"), Style::Triples, "_:a.b"),
        (Spelled::Blank("0"), Style::Tsv, "_:0"),
        (Spelled::Blank("0"), Style::Query, "_:0"),
        (Spelled::Typed("", STRING), Style::Triples, "\"\""),
        (
            Spelled::Typed("\u{10348}", STRING),
            Style::Tsv,
            "\"\u{10348}\"",
        ),
        (
            Spelled::Typed(MARKS, STRING),
            Style::Triples,
            "\"\\\"\\\\\\n\\r\t'\"",
        ),
        (
            Spelled::Typed(MARKS, STRING),
            Style::Tsv,
            "\"\\\"\\\\\\n\\r\\t'\"",
        ),
        (
            Spelled::Typed(MARKS, STRING),
            Style::Query,
            "\"\\\"\\\\\\n\\r\t'\"",
        ),
        (
            Spelled::Typed("\u{8}\u{C}\u{7F}", STRING),
            Style::Tsv,
            "\"\u{8}\u{C}\u{7F}\"",
        ),
        (
            Spelled::Typed("1", "a:int"),
            Style::Triples,
            "\"1\"^^<a:int>",
        ),
        (Spelled::Typed("1", "a:int"), Style::Tsv, "\"1\"^^<a:int>"),
        (Spelled::Typed("1", "a:int"), Style::Query, "\"1\"^^<a:int>"),
        (Spelled::Tagged("x", "en-GB"), Style::Triples, "\"x\"@en-GB"),
        (Spelled::Tagged("\t", "en"), Style::Tsv, "\"\\t\"@en"),
        (Spelled::Tagged("\t", "en"), Style::Query, "\"\t\"@en"),
    ] {
        let mut out = Vec::new(rt.alloc());
        out.push(b'>')?;
        push_term(rt.alloc(), &mut out, &term(rt.alloc(), parts)?, style)?;
        let (before, after) = out.as_slice().split_at(1);
        assert_eq!(rt; before, b">".as_slice(), "{spelling:?}");
        assert_eq!(rt; str::from_utf8(after).unwrap_or("no text"), spelling);
    }
    Ok(())
}
