//! Query texts that are read, and where others go wrong.

use super::*;
use std::alloc::Global;
use std::test::Fail;

/// What reading a text answers, as the tests write it: how many elements the outermost group has, or the place of the refusal.
fn told(alloc: Global, text: &str) -> Result<String, Fail> {
    let answer = match read_written(alloc, text) {
        Ok(query) => {
            let count = query.elements.len();
            format!(in alloc; "{count} elements")?
        }
        Err(Stopped::UnknownPrefix(place)) => format!(in alloc; "unknown {place}")?,
        Err(Stopped::WrongToken(place, None)) => format!(in alloc; "wrong {place}")?,
        Err(Stopped::WrongToken(place, Some(feature))) => {
            let word = feature.word();
            format!(in alloc; "{word} {place}")?
        }
        Err(Stopped::DeepToken(place)) => format!(in alloc; "deep {place}")?,
        Err(Stopped::Memory) => format!(in alloc; "memory")?,
    };
    Ok(answer)
}

#[test]
fn reads_texts(rt: HostRuntime) -> Result<(), Fail> {
    for (text, want) in [
        ("SELECT * {}", "0 elements"),
        ("select distinct ?a $b where { ?a a ?b }", "1 elements"),
        ("SELECT ?a ?a {}", "wrong 10"),
        ("SELECT {}", "wrong 7"),
        ("SELECT * { ?s ?p ?o ", "wrong 20"),
        ("SELECT * {} ?x", "wrong 12"),
        (
            "PREFIX p: <http://a/> SELECT * { ?s p:b 1, 'v'@en ; ; a p:C . }",
            "1 elements",
        ),
        ("SELECT * { ?s p:b 1 }", "unknown 14"),
        ("SELECT * {?x e:p ?y}", "unknown 13"),
        ("PREFIX e: e:a SELECT * {}", "unknown 10"),
        (
            "PREFIX e: <http://a/> PREFIX f: e:a SELECT * {}",
            "wrong 32",
        ),
        ("PREFIX a:b <http://x> SELECT * {}", "wrong 7"),
        (
            "PREFIX e: <http://a/> SELECT * { ?s f:a e:b }",
            "unknown 36",
        ),
        ("SELECT * { FILTER e:a }", "wrong 18"),
        ("SELECT * { ?s ?p 'v'^^e:t }", "unknown 22"),
        ("SELECT ?x e:a {}", "wrong 10"),
        ("PREFIX p:x <http://a/> SELECT * {}", "wrong 7"),
        ("PREFIX p: <a> SELECT * {}", "wrong 10"),
        ("SELECT * { 'v' ?p ?o }", "wrong 11"),
        (
            "SELECT * { ?s ?p 'v'^^<http://www.w3.org/1999/02/22-rdf-syntax-ns#langString> }",
            "wrong 22",
        ),
        (
            "SELECT * { ?s ?p ?o OPTIONAL { ?s ?q ?r FILTER ( bound(?r) && isIRI(?r) ) } . FILTER ( ! bound(?r) || sameTerm(?s, ?r) ) }",
            "3 elements",
        ),
        (
            "SELECT * { OPTIONAL { FILTER ( bound(?r) || isIRI(?r) ) } }",
            "|| 41",
        ),
        ("SELECT * { FILTER (bound(?r) &&) }", "wrong 31"),
        ("ask {}", "ASK 0"),
        ("SELECT * { ?s ?p [] }", "[ 17"),
        ("SELECT * { { ?s ?p ?o } UNION {} }", "wrong 11"),
    ] {
        let got = told(rt.alloc(), text)?;
        assert_eq!(rt; got.as_str(), want, "{text:?}");
    }
    Ok(())
}

/// So many groups in one another.
fn nested(alloc: Global, groups: usize) -> Result<String, Fail> {
    let mut text = String::new(alloc);
    text.push_str("SELECT * {")?;
    for _ in 1..groups {
        text.push_str(" OPTIONAL {")?;
    }
    for _ in 0..groups {
        text.push_str("}")?;
    }
    Ok(text)
}

#[test]
fn counts_open_brackets(rt: HostRuntime) -> Result<(), Fail> {
    for (groups, want) in [(64, "1 elements"), (65, "deep 713")] {
        let text = nested(rt.alloc(), groups)?;
        let got = told(rt.alloc(), text.as_str())?;
        assert_eq!(rt; got.as_str(), want, "{groups}");
    }
    Ok(())
}
