//! Texts that are read as queries, and where others are refused.

use super::*;
use bye_pattern::Rule;
use bye_tree::{Select, Shape};
use std::alloc::Global;
use std::test::Fail;

/// What the reading of a text is to answer.
#[derive(Drop)]
enum Want {
    Read,
    Syntax(usize),
    LeftOut(usize, &'static str),
    UnknownPrefix(usize),
    TooDeep(usize),
    Broken(Rule, &'static [u32]),
    Projected,
}

fn is_rule(rule: &Rule, want: &Rule) -> bool {
    matches!(
        (rule, want),
        (Rule::NoTriples, Rule::NoTriples)
            | (Rule::NoNewVariable, Rule::NoNewVariable)
            | (Rule::NotWellDesigned, Rule::NotWellDesigned)
            | (Rule::UnsafeCondition, Rule::UnsafeCondition)
    )
}

fn is_shape(shape: &Shape, rule: &Rule, path: &[u32]) -> bool {
    is_rule(&shape.rule, rule) && shape.path.as_slice() == path
}

/// Whether this was answered.
fn is_wanted(answer: &Result<Select, QueryErr>, want: &Want) -> bool {
    match (answer, want) {
        (Ok(_), Want::Read) => true,
        (Err(QueryErr::Syntax(place)), Want::Syntax(at)) => place == at,
        (Err(QueryErr::LeftOut(place, feature)), Want::LeftOut(at, word)) => {
            place == at && feature.word() == *word
        }
        (Err(QueryErr::UnknownPrefix(place)), Want::UnknownPrefix(at)) => place == at,
        (Err(QueryErr::TooDeep(place)), Want::TooDeep(at)) => place == at,
        (Err(QueryErr::Broken(shape)), Want::Broken(rule, path)) => is_shape(shape, rule, path),
        (Err(QueryErr::Projected), Want::Projected) => true,
        _ => false,
    }
}

#[test]
fn answers_texts(rt: HostRuntime) -> Result<(), Fail> {
    for (text, want) in [
        ("SELECT * {?s ?p 1.}", Want::Read),
        ("SELECT * {?s ?p 1.e5}", Want::Read),
        ("SELECT * {?s ?p .5}", Want::Read),
        ("PREFIX e: <http://e/> SELECT * {?s ?p e:a.b.}", Want::Read),
        (
            "PREFIX e: <http://e/> SELECT * {?s e:%41 e:\\, }",
            Want::Read,
        ),
        ("PREFIX : <http://e/> SELECT * {:a : ?c}", Want::Read),
        ("SELECT * {?s a TRUE ; ?p false, -1, +.5}", Want::Read),
        ("SELECT * {?s ?p \"\"\"a\n\"\"'\"\"\"}", Want::Read),
        ("SELECT $a\n# a comment }\nwhere{?a a?b}", Want::Projected),
        ("SELECT DISTINCT $a where{?a a?b}", Want::Read),
        (
            "SELECT * {?x <http://e/p> ?y OPTIONAL {?y <http://e/q> ?z} ?x <http://e/r> ?w}",
            Want::Read,
        ),
        (
            "SELECT * {?x <http://e/p> ?y OPTIONAL {?y <http://e/q> ?z FILTER (isIRI(?z))}}",
            Want::Read,
        ),
        (
            "PREFIX e: <http://a/> PREFIX e: <http://b/> SELECT * {?s e:p ?o}",
            Want::Read,
        ),
        ("", Want::Syntax(0)),
        ("SELECT * {?s ?p ?o", Want::Syntax(18)),
        ("SELECT ?a ?a {?a ?b ?c}", Want::Syntax(10)),
        ("SELECT {?a ?b ?c}", Want::Syntax(7)),
        ("SELECT * {?s A ?o}", Want::Syntax(13)),
        ("SELECT * {?s ?p \"\"\"a\"\"\"\"}", Want::Syntax(23)),
        ("SELECT * {?s ?p \"a\n\"}", Want::Syntax(16)),
        ("SELECT * {?s <p> ?o}", Want::Syntax(13)),
        ("SELECT * {?s ?p ?o} &", Want::Syntax(20)),
        (
            "SELECT * {?s ?p \"a\"^<http://e/t>}",
            Want::LeftOut(19, "^"),
        ),
        ("SELECT * {?s ?p \"a\"@en-}", Want::LeftOut(22, "-")),
        ("SELECT * {_:a ?p ?o}", Want::LeftOut(10, "_:")),
        ("SELECT ? {?s ?p ?o}", Want::LeftOut(7, "?")),
        (
            "SELECT ?x WHERE {?x ?p ?o} ORDER BY ?x",
            Want::LeftOut(27, "ORDER"),
        ),
        ("SELECT * {?x e:p ?y}", Want::UnknownPrefix(13)),
        (
            "SELECT * {?x e:p ?y} PREFIX e: <http://e/>",
            Want::UnknownPrefix(13),
        ),
        ("SELECT * {?x ?p \"a\"^^e:t}", Want::UnknownPrefix(21)),
        ("PREFIX e: e:p <http://e/>", Want::UnknownPrefix(10)),
        ("PREFIX e:p <http://e/>", Want::Syntax(7)),
        ("SELECT * {?x ?p ?o FILTER e:p(?x)}", Want::Syntax(26)),
        ("SELECT ?x {?x ?p ?o}", Want::Projected),
        (
            "SELECT * {OPTIONAL {?x <http://e/p> ?y}}",
            Want::Broken(Rule::NoTriples, &[]),
        ),
        (
            "SELECT * {?x ?y ?z OPTIONAL {FILTER bound(?x)}}",
            Want::Broken(Rule::NoTriples, &[1]),
        ),
        (
            "SELECT * {?x ?y ?z OPTIONAL {?x ?y ?a OPTIONAL {}}}",
            Want::Broken(Rule::NoTriples, &[1, 1]),
        ),
        (
            "SELECT * {<http://e/a> a <http://e/b>}",
            Want::Broken(Rule::NoNewVariable, &[]),
        ),
        (
            "SELECT * {?x ?y ?z OPTIONAL {?x ?y ?a} OPTIONAL {?x ?y ?z}}",
            Want::Broken(Rule::NoNewVariable, &[2]),
        ),
        (
            "SELECT * {?x ?y ?z OPTIONAL {?x ?y ?a OPTIONAL {?x ?y ?b} OPTIONAL {?x a ?a}}}",
            Want::Broken(Rule::NoNewVariable, &[1, 2]),
        ),
        (
            "SELECT * {?x ?y ?z OPTIONAL {?x ?y ?a} OPTIONAL {?x ?y ?a}}",
            Want::Broken(Rule::NotWellDesigned, &[2]),
        ),
        (
            "SELECT * {?x <http://e/p> ?y OPTIONAL {?z <http://e/p> ?w OPTIONAL {?x <http://e/q> ?v}}}",
            Want::Broken(Rule::NotWellDesigned, &[1, 1]),
        ),
        (
            "SELECT * { ?x <http://e/type> ?t OPTIONAL { ?x <http://e/mail> ?m . ?x <http://e/q> ?v } ?y <http://e/mail> ?m }",
            Want::Broken(Rule::NotWellDesigned, &[1]),
        ),
        (
            "SELECT * {?x ?y ?z OPTIONAL {?x ?y ?a FILTER bound(?q)}}",
            Want::Broken(Rule::UnsafeCondition, &[1]),
        ),
        (
            "SELECT * {?x ?y ?z OPTIONAL {?x ?y ?a OPTIONAL {?a ?y ?b FILTER bound(?z)}}}",
            Want::Broken(Rule::UnsafeCondition, &[1, 1]),
        ),
        (
            "SELECT * { ?x <http://e/type> ?t OPTIONAL { ?x <http://e/mail> ?m FILTER (bound(?y)) } ?y <http://e/mail> \"m1\" }",
            Want::Broken(Rule::UnsafeCondition, &[1]),
        ),
    ] {
        let answer = read_query(rt.alloc(), text.as_bytes());
        assert!(rt; is_wanted(&answer, &want), "{text:?}");
    }
    Ok(())
}

#[test]
fn names_what_is_left_out(rt: HostRuntime) -> Result<(), Fail> {
    for (before, word) in [
        ("", "ASK"),
        ("", "CONSTRUCT"),
        ("", "DESCRIBE"),
        ("", "BASE"),
        ("", "INSERT"),
        ("", "DELETE"),
        ("", "LOAD"),
        ("", "CLEAR"),
        ("", "CREATE"),
        ("", "DROP"),
        ("", "COPY"),
        ("", "MOVE"),
        ("", "ADD"),
        ("", "WITH"),
        ("SELECT ", "REDUCED"),
        ("SELECT ", "("),
        ("SELECT * ", "FROM"),
        ("SELECT * ", "NAMED"),
        ("SELECT * {", "MINUS"),
        ("SELECT * {", "GRAPH"),
        ("SELECT * {", "SERVICE"),
        ("SELECT * {", "BIND"),
        ("SELECT * {", "SELECT"),
        ("SELECT * {", "_:"),
        ("SELECT * {", "["),
        ("SELECT * {?s ?p ?o} ", "UNION"),
        ("SELECT * {?s ?p ?o} ", "ORDER"),
        ("SELECT * {?s ?p ?o} ", "GROUP"),
        ("SELECT * {?s ?p ?o} ", "HAVING"),
        ("SELECT * {?s ?p ?o} ", "LIMIT"),
        ("SELECT * {?s ?p ?o} ", "OFFSET"),
        ("SELECT * {?s ?p ?o} ", "VALUES"),
        ("SELECT * {?s ?p ?o FILTER ", "NOT"),
        ("SELECT * {?s ?p ?o FILTER ", "EXISTS"),
        ("SELECT * {?s ", "^"),
        ("SELECT * {?s ", "!"),
        ("SELECT * {?s <http://e/p>", "|"),
        ("SELECT * {?s <http://e/p>", "/"),
        ("SELECT * {?s <http://e/p>", "*"),
        ("SELECT * {?s <http://e/p>", "+"),
        ("SELECT * {?s <http://e/p>", "-"),
        ("SELECT * {?s <http://e/p>", "?"),
        (
            "SELECT * {?s ?p ?o OPTIONAL {?s ?q ?r FILTER (bound(?r) ",
            "||",
        ),
        ("SELECT * {?s ?p ?o FILTER (bound(?o) ", "="),
        ("SELECT * {?s ?p ?o FILTER (bound(?o) ", "!="),
        ("SELECT * {?s ?p ?o FILTER (bound(?o) ", "<"),
        ("SELECT * {?s ?p ?o FILTER (bound(?o) ", ">"),
        ("SELECT * {?s ?p ?o FILTER (bound(?o) ", "<="),
        ("SELECT * {?s ?p ?o FILTER (bound(?o) ", ">="),
    ] {
        let mut text = String::from_str(rt.alloc(), before)?;
        text.push_str(word)?;
        text.push_str(" ")?;
        let answer = read_query(rt.alloc(), text.as_bytes());
        assert!(rt;
            is_wanted(&answer, &Want::LeftOut(before.len(), word)),
            "{text:?}"
        );
    }
    Ok(())
}

/// So many groups in one another.
fn nested(alloc: Global, groups: usize) -> Result<String, Fail> {
    let mut text = String::from_str(alloc, "SELECT * {?a ?b ?c")?;
    for _ in 1..groups {
        text.push_str(" OPTIONAL {?a ?b ?c")?;
    }
    for _ in 0..groups {
        text.push_str("}")?;
    }
    Ok(text)
}

#[test]
fn counts_brackets_and_bytes(rt: HostRuntime) -> Result<(), Fail> {
    for (groups, want) in [
        (64, Want::Broken(Rule::NoNewVariable, &[1])),
        (65, Want::TooDeep(1225)),
    ] {
        let text = nested(rt.alloc(), groups)?;
        let answer = read_query(rt.alloc(), text.as_bytes());
        assert!(rt; is_wanted(&answer, &want), "{groups}");
    }
    let answer = read_query(rt.alloc(), b"SELECT\xFF");
    assert!(rt; matches!(answer, Err(QueryErr::NotUtf8(6))));
    Ok(())
}

/// A query of three variables, and lines after it up to so many bytes.
fn long(alloc: Global, bytes: usize) -> Result<String, Fail> {
    let mut lines = String::from_str(alloc, "\n")?;
    for _ in 0..24 {
        let copy = String::from_str(alloc, lines.as_str())?;
        lines.push_str(copy.as_str())?;
    }
    let mut text = String::from_str(alloc, "SELECT * {?s ?p ?o}")?;
    let more = lines
        .as_str()
        .get(..bytes.saturating_sub(text.len()))
        .ok_or("no line")?;
    text.push_str(more)?;
    Ok(text)
}

#[test]
fn reads_the_longest_text(rt: HostRuntime) -> Result<(), Fail> {
    let text = long(rt.alloc(), 16_777_216)?;
    let answer = read_query(rt.alloc(), text.as_bytes());
    assert!(rt; is_wanted(&answer, &Want::Read));
    let text = long(rt.alloc(), 16_777_217)?;
    let answer = read_query(rt.alloc(), text.as_bytes());
    assert!(rt; matches!(answer, Err(QueryErr::TooLong)));
    Ok(())
}
