//! Canonical documents of the triples of documents.

use super::*;
use std::str;
use std::test::Fail;

/// Documents, each with the canonical document of its triples.
const DOCUMENTS: &[(&str, &str)] = &[
    ("", ""),
    (
        "_:s <p:b> _:o .\n_:s <p:a> _:o .\n_:s <p:b> _:o .\n_:s <p:a> _:o .\n",
        "_:s <p:a> _:o .\n_:s <p:b> _:o .\n",
    ),
    // Whole lines are compared, so a bracket counts.
    (
        "<s:> <p:1> <o:> .\n<s:> <p:10> <o:> .\n<s:> <p:1> <o:1> .\n<s:1> <p:> <o:> .\n",
        "<s:1> <p:> <o:> .\n<s:> <p:10> <o:> .\n<s:> <p:1> <o:1> .\n<s:> <p:1> <o:> .\n",
    ),
    (
        "_:b <p:> _:a.b .\n<s:> <p:> _:0 .\n<s:> <p:> <o:> .\n<s:> <p:> \"\" .\n",
        "<s:> <p:> \"\" .\n<s:> <p:> <o:> .\n<s:> <p:> _:0 .\n_:b <p:> _:a.b .\n",
    ),
    // The escape of the line feed stands between the letters P and p.
    (
        "<s:> <p:> \"\\\"\\\\\\n\\r\\t\\'\" .\n<s:> <p:> \"a\\n\" .\n<s:> <p:> \"ap\" .\n<s:> <p:> \"aP\" .\n",
        "<s:> <p:> \"\\\"\\\\\\n\\r\t'\" .\n<s:> <p:> \"aP\" .\n<s:> <p:> \"a\\n\" .\n<s:> <p:> \"ap\" .\n",
    ),
    (
        "<s:> <p:> \"1\"^^<d:> .\n<s:> <p:> \"1\"@en-GB .\n<s:> <p:> \"1\"@en .\n\
         <s:> <p:> \"1\"^^<http://www.w3.org/2001/XMLSchema#string> .\n",
        "<s:> <p:> \"1\" .\n<s:> <p:> \"1\"@en .\n<s:> <p:> \"1\"@en-GB .\n<s:> <p:> \"1\"^^<d:> .\n",
    ),
    (
        "_:s <p:\u{10000}> _:o .\n_:s <p:\u{FFFD}> _:o .\n_:s <p:\u{E9}> \"\\U0010FFFF\" .\n",
        "_:s <p:\u{E9}> \"\u{10FFFF}\" .\n_:s <p:\u{FFFD}> _:o .\n_:s <p:\u{10000}> _:o .\n",
    ),
];

#[test]
fn writes_canonical_documents(rt: HostRuntime) -> Result<(), Fail> {
    for (document, canonical) in DOCUMENTS {
        let Ok(triples) = read_triples(rt.alloc(), document.as_bytes()) else {
            return Err(Fail::from("no document"));
        };
        let bytes = write_triples(rt.alloc(), triples.as_slice())?;
        assert_eq!(rt; str::from_utf8(bytes.as_slice())?, *canonical);
    }
    Ok(())
}
