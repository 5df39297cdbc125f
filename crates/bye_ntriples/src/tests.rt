//! Graph documents, read whole and in pieces.

ghost use Rattle.bye_ntriples.specs.Pieces.{HasRoom};
ghost use Rattle.std.specs.Prelude.{◌<◌, length as len};

use super::*;
use bye_terms::Triple;
use std::alloc::Global;
use std::test::Fail;

/// What a document was read as: its canonical document, or its fault.
fn told(alloc: Global, read: Result<Vec<Triple>, NtErr>) -> Result<String, Fail> {
    match read {
        Ok(triples) => {
            let bytes = write_triples(alloc, triples.as_slice())?;
            let text = str::from_utf8(bytes.as_slice()).or(Err("no text"))?;
            Ok(String::from_str(alloc, text)?)
        }
        Err(fault) => Ok(format!(in alloc; "{fault:?}")?),
    }
}

/// Feeds a reader all bytes, in pieces of this length and a last one that may be shorter.
fn feed_all(reader: &mut NtReader, bytes: &[u8], length: usize) -> Result<(), NtErr>
    requires some { 0 < length }
    requires room { HasRoom reader.old (len bytes.now) }
{
    let mut rest = bytes;
    while rest.len() > length {
        let (piece, others) = rest.split_at(length);
        reader.feed(piece)?;
        rest = others;
    }
    reader.feed(rest)
}

/// The answer of a reader that is fed all bytes so.
fn fed(alloc: Global, bytes: &[u8], length: usize) -> Result<Vec<Triple>, NtErr>
    requires { 0 < length }
{
    let mut reader = NtReader::new(alloc);
    feed_all(&mut reader, bytes, length)?;
    reader.finish()
}

const LINE: &str = "<http://e/a> <http://e/p> _:b .\n";

const DOCUMENTS: &[(&[u8], &str)] = &[
    (b"", ""),
    (b" \t\r\n# no triple\n\n", ""),
    (b"<http://e/a><http://e/p>_:b.", LINE),
    (
        b"\r<http://e/a>\t<http://e/p> _:b. # b\r\n<http://e/a> <http://e/p> _:b .#\n",
        LINE,
    ),
    (
        b"<http://e/a> <http://e/p> \"1\" ^^ <http://e/t> .\n",
        "<http://e/a> <http://e/p> \"1\"^^<http://e/t> .\n",
    ),
    (
        b"_:b.c <http://e/p> \"#\\t\\u00e9\xC3\xA9\" @en-GB .",
        "_:b.c <http://e/p> \"#\t\u{E9}\u{E9}\"@en-GB .\n",
    ),
    (
        b"_:a <http://e/p> _:b..c.\n_:a <http://e/p> \"\"^^<http://www.w3.org/2001/XMLSchema#string>.",
        "_:a <http://e/p> \"\" .\n_:a <http://e/p> _:b..c .\n",
    ),
    (b"<http://e/a\\u0020>", "Syntax(16)"),
    (b"<a>", "Syntax(2)"),
    (b"<http://e/\xC3", "NotUtf8(10)"),
    (b"# \xC3\xA9\xFF\n<", "NotUtf8(4)"),
    (b"<http://e/a> <http://e/p> _:b .\n ,\xFF", "Syntax(33)"),
    (b"<http://e/a> <http://e/p> _:b\n", "Syntax(29)"),
    (b"<http://e/a> <http://e/p> _:b", "Syntax(29)"),
    (
        b"<http://e/a> <http://e/p> _:b . <http://e/a>",
        "Syntax(32)",
    ),
    (b"\"a\" <http://e/p> _:b .", "Syntax(0)"),
    (b"_:a _:p _:b .", "Syntax(4)"),
    (
        b"_:a <http://e/p> \"a\"^^<http://www.w3.org/1999/02/22-rdf-syntax-ns#langString> .",
        "Syntax(76)",
    ),
];

#[test]
fn reads_documents(rt: HostRuntime) -> Result<(), Fail> {
    for (bytes, wanted) in DOCUMENTS {
        let whole = told(rt.alloc(), read_triples(rt.alloc(), bytes))?;
        assert_eq!(rt; whole.as_str(), *wanted, "{bytes:?}");
        for length in [1, 2, 7] {
            let pieces = told(rt.alloc(), fed(rt.alloc(), bytes, length))?;
            assert_eq!(rt; pieces.as_str(), *wanted, "{bytes:?} by {length}");
        }
    }
    Ok(())
}

/// A document of all kinds of tokens, with characters of one to four bytes.
const KINDS: &str =
    "\t<http://e/\u{E9}> <http://e/\\u20AC> \"\\\"\\u0041\\U0001F600\u{1F600}\"@en-a1 . # \u{20AC}\r\n\
    _:b <http://e/p>_:c..d.\n\n_:b <http://e/p> \"\"^^ <http://e/t> .";

#[test]
fn fronts_fail_at_their_ends(rt: HostRuntime) -> Result<(), Fail> {
    let mut documents: u64 = 0;
    for (length, _) in KINDS.as_bytes().iter().enumerate() {
        let Some(front) = KINDS.as_bytes().get(..length) else {
            return Err(Fail::from("no front"));
        };
        let mut reader = NtReader::new(rt.alloc());
        assert!(rt; feed_all(&mut reader, front, 3).is_ok(), "{length} bytes");
        match reader.finish() {
            Ok(_) => documents = documents.saturating_add(1),
            Err(NtErr::Syntax(place)) => assert_eq!(rt; place, length),
            Err(NtErr::NotUtf8(place)) => assert!(rt;
                place < length && !KINDS.is_char_boundary(length),
                "{length} bytes"
            ),
            Err(_) => return Err(Fail::from("another fault")),
        }
    }
    assert_eq!(rt; documents, 13);
    Ok(())
}

/// So many lines with a triple.
fn lines(alloc: Global, count: usize) -> Result<Vec<u8>, Fail> {
    let mut bytes = Vec::new(alloc);
    for _ in 0..count {
        bytes.extend_from_slice(b"_:a<http://e/p>_:b.\n")?;
    }
    Ok(bytes)
}

#[test]
fn counts_triples(rt: HostRuntime) -> Result<(), Fail> {
    let mut bytes = lines(rt.alloc(), 1_048_576)?;
    let most = read_triples(rt.alloc(), bytes.as_slice());
    assert_eq!(rt; most.map(|triples| triples.len()).unwrap_or(0), 1_048_576);
    bytes.extend_from_slice(b"_:a<http://e/p>_:b.")?;
    let more = told(rt.alloc(), read_triples(rt.alloc(), bytes.as_slice()))?;
    assert_eq!(rt; more.as_str(), "TooMany");
    bytes.extend_from_slice(b"c")?;
    let longer = told(rt.alloc(), read_triples(rt.alloc(), bytes.as_slice()))?;
    assert_eq!(rt; longer.as_str(), "Syntax(20971540)");
    Ok(())
}
