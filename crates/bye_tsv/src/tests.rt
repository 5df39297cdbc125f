//! Table documents, read whole and in pieces.

ghost use Rattle.bye_tsv.specs.Feeding.{HasRoom};
ghost use Rattle.std.specs.Prelude.{◌<◌, length as len};

use super::*;
use bye_lex::{Style, push_term};
use bye_table::Table;
use std::alloc::Global;
use std::test::Fail;

/// What a document was read as: its variables, and after a `/` what each row binds; or its fault.
fn told(alloc: Global, read: Result<Table, TsvErr>) -> Result<String, Fail> {
    let table = match read {
        Ok(table) => table,
        Err(fault) => return Ok(format!(in alloc; "{fault:?}")?),
    };
    let mut bytes = Vec::new(alloc);
    for var in table.vars() {
        bytes.extend_from_slice(b"?")?;
        bytes.extend_from_slice(var.name().as_str().as_bytes())?;
    }
    for row in table.rows() {
        bytes.extend_from_slice(b"/")?;
        for (var, term) in row.listed() {
            bytes.extend_from_slice(var.name().as_str().as_bytes())?;
            bytes.extend_from_slice(b"=")?;
            push_term(alloc, &mut bytes, term, Style::Tsv)?;
        }
    }
    let text = str::from_utf8(bytes.as_slice()).or(Err("no text"))?;
    Ok(String::from_str(alloc, text)?)
}

/// Feeds a reader all bytes, in pieces of this length and a last one that may be shorter.
fn feed_all(reader: &mut TsvReader, bytes: &[u8], length: usize) -> Result<(), TsvErr>
    requires some { 0 < length }
    requires room { HasRoom reader.old.state (len bytes.now) }
{
    let mut rest = bytes;
    while rest.len() > length {
        let (piece, others) = rest.split_at(length);
        reader.feed(piece)?;
        rest = others;
    }
    reader.feed(rest)
}

/// The answer of a reader that is fed all bytes so.
fn fed(alloc: Global, bytes: &[u8], bounds: Bounds, length: usize) -> Result<Table, TsvErr>
    requires { 0 < length }
{
    let mut reader = TsvReader::new(alloc, bounds);
    feed_all(&mut reader, bytes, length)?;
    reader.finish()
}

/// Documents with what they are read as, where three variables and three rows are allowed.
const DOCUMENTS: &[(&[u8], &str)] = &[
    (b"", "Header(0)"),
    (b"\n", ""),
    (b"\r\n\r\n\n", "//"),
    (b"?x", "?x"),
    (b"?x\n", "?x"),
    (b"?x\n\n", "?x/"),
    (b"?x\t?xy\n\t", "?x?xy/"),
    (
        b"?x\t?y\r\n<http://e/a>\t\r\n\t\"b\"@en-GB",
        "?x?y/x=<http://e/a>/y=\"b\"@en-GB",
    ),
    (
        b"?x\n'a\"\\u00e9'^^<http://e/t>\n_:b.c\n\"\\t\"\n",
        "?x/x=\"a\\\"\u{E9}\"^^<http://e/t>/x=_:b.c/x=\"\\t\"",
    ),
    (
        b"?x\n+05\n-.5\n1.e-3",
        "?x/x=\"+05\"^^<http://www.w3.org/2001/XMLSchema#integer>\
        /x=\"-.5\"^^<http://www.w3.org/2001/XMLSchema#decimal>\
        /x=\"1.e-3\"^^<http://www.w3.org/2001/XMLSchema#double>",
    ),
    (
        b"?x\t?y\ntrue\tfalse",
        "?x?y/x=\"true\"^^<http://www.w3.org/2001/XMLSchema#boolean>\
        y=\"false\"^^<http://www.w3.org/2001/XMLSchema#boolean>",
    ),
    (b"x", "Header(0)"),
    (b"?x y\n", "Header(2)"),
    (b"?x\t", "Header(3)"),
    (b"?a\t?a\n", "Header(5)"),
    (b"?a\t?b\t?a", "Header(8)"),
    (b"?x\rz", "Header(3)"),
    (b"?x\n5.", "Term(5)"),
    (b"?x\n5.\n", "Term(5)"),
    (b"?x\n.e5\n", "Term(4)"),
    (b"?x\n\"a\tb\"\n", "Term(5)"),
    (b"?x\n\"a\" @en\n", "Term(6)"),
    (b"?x\n<http://e/a> \n", "Term(15)"),
    (b"?x\ne:a\n", "Term(3)"),
    (b"?x\n1\r", "Term(5)"),
    (b"?x\n1\rz", "Term(5)"),
    (b"?x\n1\r\r\n", "Term(5)"),
    (b"?x\n\r", "Term(4)"),
    (b"\nx", "Term(1)"),
    (
        b"?x\n\"a\"^^<http://www.w3.org/1999/02/22-rdf-syntax-ns#langString>\n",
        "Term(62)",
    ),
    (b"\n\t", "Fields(2)"),
    (b"?x\n1\t2\n", "Fields(2)"),
    (b"?x\t?y\n1\t2\r\n1\r\n", "Fields(3)"),
    (b"?x\t?y\n1", "Fields(2)"),
    (b"?x\n\"\xC3", "NotUtf8(4)"),
    (b"?x\n\"\xC3\xA9\xFF\"\n", "NotUtf8(6)"),
    (b"?x\n,\xFF", "Term(3)"),
    (b"?a\t?b\t?c\t?d", "TooManyVars"),
    (b"?a\t?b\t?c\t?d\t,", "TooManyVars"),
    (b"?a\t?b\t?c\t?d\rx", "Header(12)"),
    (b"\n\n\n\n\n", "TooManyRows"),
    (b"?x\n1\n2\n3\n4", "TooManyRows"),
    (b"?x\n1\n2\n3\n4 ", "Term(10)"),
    (b"?x\n1\n2\n3\n\xC3", "NotUtf8(9)"),
];

#[test]
fn reads_documents(rt: HostRuntime) -> Result<(), Fail> {
    let bounds = Bounds { vars: 3, rows: 3 };
    for (bytes, wanted) in DOCUMENTS {
        let whole = told(rt.alloc(), read_tsv(rt.alloc(), bytes, bounds))?;
        assert_eq!(rt; whole.as_str(), *wanted, "{bytes:?}");
        for length in [1, 2, 7] {
            let pieces = told(rt.alloc(), fed(rt.alloc(), bytes, bounds, length))?;
            assert_eq!(rt; pieces.as_str(), *wanted, "{bytes:?} by {length}");
        }
    }
    Ok(())
}

/// How much a reader carries that was fed all bytes, or those up to its refusal, so.
fn carried(alloc: Global, bytes: &[u8], bounds: Bounds, length: usize) -> u64
    requires { 0 < length }
{
    let mut reader = TsvReader::new(alloc, bounds);
    let _fed = feed_all(&mut reader, bytes, length);
    reader.carried()
}

/// Fronts of documents, with how many bytes of the line that is not ended a reader of each carries.
const FRONTS: &[(&[u8], u64)] = &[
    (b"", 0),
    (b"?x\t?", 1),
    (b"?x\t?n\xC3", 3),
    (b"?x\t?n\xC3\xA9\r", 4),
    (b"?x\t?n\xC3\xA9\r\n", 0),
    (b"?x\t?y\n<http://e/\\u00", 13),
    (b"?x\t?y\n<http://e/\\u00e9", 11),
    (b"?x\t?y\n<http://e/\\u00e9>\t", 11),
    (b"?x\t?y\n<http://e/\\u00e9>\t\"a\"@en-", 15),
    (b"?x\t?y\n<http://e/\\u00e9>\t\"a\"@en-GB\r", 17),
    (b"?x\t?y\n<http://e/\\u00e9>\t\"a\"@en-GB\r\n", 0),
    (b"?x\n_:a.", 2),
    (b"?x\n_:a.b", 3),
    (b"?x\n\"\\t\\", 2),
    (b"?x\n\"a\"^^<http://e/t", 11),
    (b"?x\n\"a\"^^<http://e/t ", 0),
    (b"?x\t?y\t?z\n1.5\ttr", 5),
    (b"?x\t?y\t?z\n1.5\ttrue\t'\xF0\x9F", 9),
];

#[test]
fn carries_the_line_that_is_not_ended(rt: HostRuntime) -> Result<(), Fail> {
    let bounds = Bounds { vars: 3, rows: 3 };
    for (front, wanted) in FRONTS {
        for length in [1, 2, 7, 100] {
            let carried = carried(rt.alloc(), front, bounds, length);
            assert_eq!(rt; carried, *wanted, "{front:?} by {length}");
        }
    }
    Ok(())
}
