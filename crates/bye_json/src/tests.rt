//! Documents, each with what it is read as, and tables with what they are written as.

use super::*;
use bye_lex::{Style, push_term};
use bye_table::{Row, Table};
use bye_terms::Term;
use std::alloc::Global;
use std::test::Fail;

/// What a document of at most three variables and two rows was read as: the variables, and on a line for each row its cells, each
/// the variable's name and the term as N-Triples writes it. Or the fault.
fn told(alloc: Global, bytes: &[u8]) -> Result<String, Fail> {
    match read_json(alloc, bytes, 3, 2) {
        Ok(table) => shown(alloc, &table),
        Err(fault) => Ok(format!(in alloc; "{fault:?}")?),
    }
}

fn shown(alloc: Global, table: &Table) -> Result<String, Fail> {
    let mut bytes = Vec::new(alloc);
    for var in table.vars() {
        bytes.extend_from_slice(b"?")?;
        bytes.extend_from_slice(var.name().as_str().as_bytes())?;
    }
    for row in table.rows() {
        bytes.extend_from_slice(b"\n")?;
        push_row(alloc, &mut bytes, row)?;
    }
    let text = str::from_utf8(bytes.as_slice()).or(Err("no text"))?;
    Ok(String::from_str(alloc, text)?)
}

fn push_row(alloc: Global, bytes: &mut Vec<u8>, row: &Row) -> Result<(), Fail> {
    for pair in row.listed() {
        bytes.extend_from_slice(pair.0.name().as_str().as_bytes())?;
        bytes.extend_from_slice(b"=")?;
        push_cell(alloc, bytes, &pair.1)?;
    }
    Ok(())
}

fn push_cell(alloc: Global, bytes: &mut Vec<u8>, term: &Term) -> Result<(), Fail> {
    push_term(alloc, bytes, term, Style::Triples)?;
    bytes.extend_from_slice(b" ")?;
    Ok(())
}

/// A document with variables x and y and these rows, as far as `"bindings":[` and from `]}}` on.
const FRONT: &str = "{\"head\":{\"vars\":[\"x\",\"y\"]},\"results\":{\"bindings\":[";

const BACK: &str = "]}}";

/// Documents with what they are read as.
const DOCUMENTS: &[(&str, &str)] = &[
    // No JSON: nothing, cut, trailing text, a mark of byte order, a lone surrogate, a raw control character, a number too large.
    ("", "NotJson"),
    ("{\"head\":{\"vars\":[]}", "NotJson"),
    ("{}x", "NotJson"),
    ("\u{FEFF}{}", "NotJson"),
    ("{\"head\":\"\\uD800\"}", "NotJson"),
    ("{\"head\":\"\n\"}", "NotJson"),
    ("[1e999]", "NotJson"),
    // No lists.
    ("[]", "NotBindings"),
    ("{}", "NotBindings"),
    ("{\"head\":{},\"boolean\":true}", "NotBindings"),
    (
        "{\"head\":{\"vars\":[]},\"results\":{\"bindings\":[]},\"boolean\":0}",
        "NotBindings",
    ),
    ("{\"head\":{},\"results\":{\"bindings\":[]}}", "NotBindings"),
    (
        "{\"head\":{\"vars\":{}},\"results\":{\"bindings\":[]}}",
        "NotBindings",
    ),
    ("{\"head\":{\"vars\":[]},\"results\":[]}", "NotBindings"),
    (
        "{\"head\":{\"vars\":[1]},\"results\":{\"bindings\":[{},[]]}}",
        "NotBindings",
    ),
    // Faults of the variables come before those of the rows, and a bound before a name.
    (
        "{\"head\":{\"vars\":[1,2,3,4]},\"results\":{\"bindings\":[]}}",
        "TooManyVars",
    ),
    (
        "{\"head\":{\"vars\":[\"x\",\"x\",1]},\"results\":{\"bindings\":[{},{},{}]}}",
        "BadVariable(2)",
    ),
    (
        "{\"head\":{\"vars\":[\"x\",\"y\",1]},\"results\":{\"bindings\":[]}}",
        "BadVariable(3)",
    ),
    (
        "{\"head\":{\"vars\":[\"?x\"]},\"results\":{\"bindings\":[]}}",
        "BadVariable(1)",
    ),
    (
        "{\"head\":{\"vars\":[\"x\"]},\"results\":{\"bindings\":[{\"y\":1},{},{}]}}",
        "TooManyRows",
    ),
    // Other members are passed over, and of equal ones the last counts.
    (
        "{\"head\":{\"link\":[\"a\"],\"vars\":[]},\"results\":{\"ordered\":true,\"bindings\":[{}]},\"x\":1}",
        "\n",
    ),
    (
        " {\"results\" : {\"bindings\":[1],\"bindings\":[ ]},\"head\":{\"vars\":[\"\\u0078\"]}}\r\n",
        "?x",
    ),
];

/// Rows of a document with variables x and y, with what they are read as.
const ROWS: &[(&str, &str)] = &[
    // Terms, each in the order of the variables.
    ("{},{}", "?x?y\n\n"),
    (
        "{\"y\":{\"type\":\"bnode\",\"value\":\"b.1\"},\"x\":{\"value\":\"http://e/\u{E9}\",\"type\":\"uri\"}}",
        "?x?y\nx=<http://e/\u{E9}> y=_:b.1 ",
    ),
    (
        "{\"x\":{\"type\":\"literal\",\"value\":\"\\u00e9\\t\\\"\\uD83D\\uDE00\"}}",
        "?x?y\nx=\"\u{E9}\t\\\"\u{1F600}\" ",
    ),
    (
        "{\"x\":{\"type\":\"literal\",\"value\":\"a\",\"xml:lang\":\"en-GB\"},\"y\":{\"type\":\"literal\",\"value\":\"\",\"datatype\":\"http://e/t\"}}",
        "?x?y\nx=\"a\"@en-GB y=\"\"^^<http://e/t> ",
    ),
    (
        "{\"x\":{\"type\":\"typed-literal\",\"value\":\"1\",\"datatype\":\"http://www.w3.org/2001/XMLSchema#string\"}}",
        "?x?y\nx=\"1\" ",
    ),
    (
        "{\"x\":{\"type\":\"literal\",\"value\":\"a\",\"xml:lang\":\"a\",\"datatype\":\"http://www.w3.org/1999/02/22-rdf-syntax-ns#langString\"}}",
        "?x?y\nx=\"a\"@a ",
    ),
    // Names that are no variables, in the first wrong row.
    (
        "{},{\"X\":{\"type\":\"uri\",\"value\":\"a:\"}}",
        "Unlisted(2)",
    ),
    ("{\"x\":1,\"z\":1},{\"z\":1}", "Unlisted(1)"),
    ("{\"x\":1},{\"z\":1}", "BadTerm(1, 1)"),
    // Values that are no term objects.
    ("{\"y\":null}", "BadTerm(1, 2)"),
    (
        "{},{\"y\":{},\"x\":{\"type\":\"uri\",\"value\":\"a:\"}}",
        "BadTerm(2, 2)",
    ),
    (
        "{\"x\":{\"type\":\"uri\",\"value\":\"a\"}}",
        "BadTerm(1, 1)",
    ),
    (
        "{\"x\":{\"type\":\"uri\",\"value\":\"a:\",\"xml:lang\":\"en\"}}",
        "BadTerm(1, 1)",
    ),
    // A label may begin with `_:`.
    (
        "{\"x\":{\"type\":\"bnode\",\"value\":\"_:b\"}}",
        "?x?y\nx=_:_:b ",
    ),
    (
        "{\"x\":{\"type\":\"bnode\",\"value\":\"b.\"}}",
        "BadTerm(1, 1)",
    ),
    (
        "{\"x\":{\"type\":\"bnode\",\"value\":\"b\",\"datatype\":\"a:\"}}",
        "BadTerm(1, 1)",
    ),
    (
        "{\"x\":{\"type\":\"literal\",\"value\":1}}",
        "BadTerm(1, 1)",
    ),
    (
        "{\"x\":{\"type\":\"literal\",\"value\":\"\",\"a\":\"\"}}",
        "BadTerm(1, 1)",
    ),
    (
        "{\"x\":{\"type\":\"literal\",\"value\":\"\",\"xml:lang\":\"\"}}",
        "BadTerm(1, 1)",
    ),
    (
        "{\"x\":{\"type\":\"literal\",\"value\":\"\",\"xml:lang\":null}}",
        "BadTerm(1, 1)",
    ),
    (
        "{\"x\":{\"type\":\"literal\",\"value\":\"\",\"xml:lang\":\"a\",\"datatype\":\"a:\"}}",
        "BadTerm(1, 1)",
    ),
    (
        "{\"x\":{\"type\":\"literal\",\"value\":\"\",\"datatype\":\"http://www.w3.org/1999/02/22-rdf-syntax-ns#langString\"}}",
        "BadTerm(1, 1)",
    ),
    (
        "{\"x\":{\"type\":\"typed-literal\",\"value\":\"\"}}",
        "BadTerm(1, 1)",
    ),
    (
        "{\"x\":{\"type\":\"URI\",\"value\":\"a:\"}}",
        "BadTerm(1, 1)",
    ),
];

#[test]
fn reads_documents(rt: HostRuntime) -> Result<(), Fail> {
    for (document, wanted) in DOCUMENTS {
        assert_eq!(rt;
            told(rt.alloc(), document.as_bytes())?.as_str(),
            *wanted,
            "{document}"
        );
    }
    assert_eq!(rt; told(rt.alloc(), b"\"\xFF\"")?.as_str(), "NotJson");
    Ok(())
}

#[test]
fn reads_rows(rt: HostRuntime) -> Result<(), Fail> {
    for (rows, wanted) in ROWS {
        let document = format!(in rt.alloc(); "{FRONT}{rows}{BACK}")?;
        assert_eq!(rt;
            told(rt.alloc(), document.as_str().as_bytes())?.as_str(),
            *wanted,
            "{rows}"
        );
    }
    Ok(())
}

/// Documents that are read, with those that their tables are written as.
const WRITTEN: &[(&str, &str)] = &[
    (
        "{\"results\":{\"bindings\":[]},\"head\":{\"vars\":[],\"link\":[]}}",
        "{\"head\":{\"vars\":[]},\"results\":{\"bindings\":[]}}",
    ),
    (
        "{\"head\":{\"vars\":[\"y\",\"\u{E9}\",\"x\"]},\"results\":{\"bindings\":[{\"\u{E9}\":{\"type\":\"uri\",\"value\":\"a:\"},\
         \"y\":{\"type\":\"typed-literal\",\"value\":\"1\",\"datatype\":\"http://www.w3.org/2001/XMLSchema#string\"},\
         \"x\":{\"type\":\"bnode\",\"value\":\"b\"}},{}]}}",
        "{\"head\":{\"vars\":[\"y\",\"\u{E9}\",\"x\"]},\"results\":{\"bindings\":[{\"x\":{\"type\":\"bnode\",\"value\":\"b\"},\
         \"y\":{\"type\":\"literal\",\"value\":\"1\"},\"\u{E9}\":{\"type\":\"uri\",\"value\":\"a:\"}},{}]}}",
    ),
    (
        "{\"head\":{\"vars\":[\"x\",\"y\"]},\"results\":{\"bindings\":[{\"x\":{\"type\":\"literal\",\"value\":\
         \"\\u0022\\u005C\\u002F\\u0008\\u0009\\u000A\\u000C\\u000D\\u0000\\u001F\\u007F\\u00e9\",\"xml:lang\":\"en\",\
         \"datatype\":\"http://www.w3.org/1999/02/22-rdf-syntax-ns#langString\"},\
         \"y\":{\"type\":\"typed-literal\",\"value\":\"1\",\"datatype\":\"a:b\"}}]}}",
        "{\"head\":{\"vars\":[\"x\",\"y\"]},\"results\":{\"bindings\":[{\"x\":{\"type\":\"literal\",\"value\":\
         \"\\\"\\\\/\\b\\t\\n\\f\\r\\u0000\\u001f\u{7F}\u{E9}\",\"xml:lang\":\"en\"},\
         \"y\":{\"datatype\":\"a:b\",\"type\":\"literal\",\"value\":\"1\"}}]}}",
    ),
];

/// The document that the table of a document is written as.
fn rewritten(alloc: Global, document: &[u8], rows: u32) -> Result<Vec<u8>, Fail> {
    match read_json(alloc, document, 3, rows) {
        Ok(table) => Ok(write_json(alloc, &table)?),
        Err(_) => Err(Fail::from("no table")),
    }
}

#[test]
fn writes_tables(rt: HostRuntime) -> Result<(), Fail> {
    for (document, wanted) in WRITTEN {
        let bytes = rewritten(rt.alloc(), document.as_bytes(), 2)?;
        assert_eq!(rt; str::from_utf8(bytes.as_slice()), Ok(*wanted), "{document}");
    }
    Ok(())
}

#[test]
fn reads_and_writes_many_rows(rt: HostRuntime) -> Result<(), Fail> {
    let mut document = Vec::new(rt.alloc());
    document.extend_from_slice(b"{\"head\":{\"vars\":[\"x\"]},\"results\":{\"bindings\":[{}")?;
    for _ in 0..9_999 {
        document.extend_from_slice(b",{\"x\":{\"type\":\"literal\",\"value\":\"a\"}}")?;
    }
    document.extend_from_slice(b"]}}")?;
    let written = rewritten(rt.alloc(), document.as_slice(), 10_000)?;
    assert!(rt; written.as_slice() == document.as_slice());
    assert!(rt;
        matches!(
            read_json(rt.alloc(), document.as_slice(), 1, 9_999),
            Err(JsonErr::TooManyRows)
        )
    );
    Ok(())
}
