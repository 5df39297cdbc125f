//! Tokens, near misses and places, from the rules of the grammars.

use super::*;
use bye_terms::Text;

/// What a test wants where no token stands there, with the place of the fault.
const NONE: &str = "no token";

/// What it wants where the text is cut, with no place.
const CUT: &str = "cut";

/// The value and the place after it, or what is wrong and where.
fn told(answer: &Result<(Text, usize), LexErr>) -> (&str, usize) {
    match answer {
        Ok((value, end)) => (value.as_str(), *end),
        Err(LexErr::NoToken(place)) => (NONE, *place),
        Err(LexErr::Cut) => (CUT, 0),
        Err(LexErr::Memory) => ("memory", 0),
    }
}

#[test]
fn reads_iris(rt: HostRuntime) {
    for (text, style, value, place) in [
        ("<a:>", Style::Tsv, "a:", 4),
        (
            "<http://e/\u{E9}?q#f> .",
            Style::Tsv,
            "http://e/\u{E9}?q#f",
            17,
        ),
        (
            "<urn:x:\u{10348}\u{10FFFF}>>",
            Style::Tsv,
            "urn:x:\u{10348}\u{10FFFF}",
            16,
        ),
        ("<a+.-9:b><c:d>", Style::Tsv, "a+.-9:b", 9),
        ("<a:\\u0062\\U00010348>", Style::Tsv, "a:b\u{10348}", 20),
        (
            "<a:\\u00e9\\u00E9\\u0021>",
            Style::Tsv,
            "a:\u{E9}\u{E9}!",
            22,
        ),
        (
            "<a:\\uD7FF\\uE000\\U0010FFFF>",
            Style::Tsv,
            "a:\u{D7FF}\u{E000}\u{10FFFF}",
            26,
        ),
        ("", Style::Triples, CUT, 0),
        ("<", Style::Triples, CUT, 0),
        ("<a", Style::Triples, CUT, 0),
        ("<a:b", Style::Query, CUT, 0),
        ("<a:\\", Style::Triples, CUT, 0),
        ("<a:\\u00e", Style::Tsv, CUT, 0),
        ("a:b", Style::Triples, NONE, 0),
        ("<>", Style::Triples, NONE, 1),
        ("<\\u0061:b>", Style::Triples, NONE, 1),
        ("</a:b>", Style::Triples, NONE, 1),
        ("<a/b:c>", Style::Triples, NONE, 2),
        ("<a:b c>", Style::Triples, NONE, 4),
        ("<a:\u{E9}\u{E9}\">", Style::Triples, NONE, 7),
        ("<a:\\n>", Style::Triples, NONE, 4),
        ("<a:\\u00g0>", Style::Triples, NONE, 7),
        ("<a:\\u0020>", Style::Triples, NONE, 8),
        ("<a:\\u001F>", Style::Triples, NONE, 7),
        ("<a:\\u003C>", Style::Triples, NONE, 8),
        ("<a:\\uD800>", Style::Triples, NONE, 6),
        ("<a:\\uDC", Style::Triples, NONE, 6),
        ("<a:\\U00110000>", Style::Triples, NONE, 8),
        ("<a:\\U01", Style::Triples, NONE, 6),
        ("<a:\\U0000D800>", Style::Triples, NONE, 10),
        ("<a:\\u0062>", Style::Query, NONE, 3),
    ] {
        let answer = iri_at(rt.alloc(), text.as_bytes(), 0, style);
        let answer = match answer {
            Ok((iri, end)) => Ok((iri.into_text(), end)),
            Err(fault) => Err(fault),
        };
        assert_eq!(rt; told(&answer), (value, place), "{text:?}");
    }
}

#[test]
fn reads_labels(rt: HostRuntime) {
    for (text, value, place) in [
        ("_:a", "a", 3),
        ("_:a.", "a", 3),
        ("_:a..", "a", 3),
        ("_:a..b.", "a..b", 6),
        ("_:0:_-\u{B7}\u{203F} .", "0:_-\u{B7}\u{203F}", 11),
        ("_:\u{10000}\u{EFFFF}\u{F0000}", "\u{10000}\u{EFFFF}", 10),
        ("_:::", "::", 4),
        ("", CUT, 0),
        ("_", CUT, 0),
        ("_:", CUT, 0),
        ("a", NONE, 0),
        ("_a", NONE, 1),
        ("_:.a", NONE, 2),
        ("_:-", NONE, 2),
        ("_:\u{B7}", NONE, 2),
        ("_: ", NONE, 2),
    ] {
        let answer = label_at(rt.alloc(), text.as_bytes(), 0);
        let answer = match answer {
            Ok((label, end)) => Ok((label.into_text(), end)),
            Err(fault) => Err(fault),
        };
        assert_eq!(rt; told(&answer), (value, place), "{text:?}");
    }
}

#[test]
fn reads_tags(rt: HostRuntime) {
    for (text, value, place) in [
        ("@en", "en", 3),
        ("@en-", "en", 3),
        ("@en--us", "en", 3),
        ("@en-1.", "en-1", 5),
        ("@zh-Hant-2a\u{E9}", "zh-Hant-2a", 11),
        ("@e1", "e", 2),
        ("", CUT, 0),
        ("@", CUT, 0),
        ("en", NONE, 0),
        ("@-", NONE, 1),
        ("@1", NONE, 1),
        ("@\u{E9}", NONE, 1),
    ] {
        let answer = tag_at(rt.alloc(), text.as_bytes(), 0);
        let answer = match answer {
            Ok((tag, end)) => Ok((tag.into_text(), end)),
            Err(fault) => Err(fault),
        };
        assert_eq!(rt; told(&answer), (value, place), "{text:?}");
    }
}

#[test]
fn reads_names(rt: HostRuntime) {
    for (text, value, place) in [
        ("x", "x", 1),
        ("0_a-b", "0_a", 3),
        (
            "_\u{B7}\u{300}\u{203F}\u{2040} ",
            "_\u{B7}\u{300}\u{203F}\u{2040}",
            11,
        ),
        ("x:y", "x", 1),
        ("x.y", "x", 1),
        ("\u{10000}\u{F0000}", "\u{10000}", 4),
        ("", CUT, 0),
        ("-", NONE, 0),
        ("\u{B7}", NONE, 0),
        ("\u{D7}", NONE, 0),
        ("?x", NONE, 0),
    ] {
        let answer = name_at(rt.alloc(), text.as_bytes(), 0);
        let answer = match answer {
            Ok((name, end)) => Ok((name.into_name(), end)),
            Err(fault) => Err(fault),
        };
        assert_eq!(rt; told(&answer), (value, place), "{text:?}");
    }
}

#[test]
fn reads_strings(rt: HostRuntime) {
    for (text, style, value, place) in [
        ("\"\"", Style::Triples, "", 2),
        ("\"\"\"", Style::Triples, "", 2),
        (
            "\"a'b\u{E9}\u{10348}\t\" .",
            Style::Triples,
            "a'b\u{E9}\u{10348}\t",
            12,
        ),
        (
            "\"\\t\\b\\n\\r\\f\\\"\\'\\\\\"",
            Style::Triples,
            "\t\u{8}\n\r\u{C}\"'\\",
            18,
        ),
        (
            "\"\\u00e9\\U0001F600\\u0000\\uFFFF\"",
            Style::Tsv,
            "\u{E9}\u{1F600}\u{0}\u{FFFF}",
            30,
        ),
        ("'a\"b'\t", Style::Tsv, "a\"b", 5),
        ("'a\\tb'", Style::Query, "a\tb", 6),
        ("\"a\tb\"", Style::Query, "a\tb", 5),
        ("\"\" \"", Style::Query, "", 2),
        ("\"\"\"\"\"\"", Style::Query, "", 6),
        (
            "\"\"\"a\n\r'\"b\"\"c\"\"\"\"",
            Style::Query,
            "a\n\r'\"b\"\"c",
            15,
        ),
        ("'''\"\\'\\n'''", Style::Query, "\"'\n", 11),
        ("'''a''\\u'''", Style::Query, "", 2),
        ("\"\"\"a\"\"", Style::Query, "", 2),
        ("", Style::Query, CUT, 0),
        ("\"", Style::Query, CUT, 0),
        ("\"a", Style::Triples, CUT, 0),
        ("\"a\\", Style::Triples, CUT, 0),
        ("\"\\uD7F", Style::Triples, CUT, 0),
        ("a\"", Style::Triples, NONE, 0),
        ("'a'", Style::Triples, NONE, 0),
        ("\"a\nb\"", Style::Triples, NONE, 2),
        ("\"a\rb\"", Style::Query, NONE, 2),
        ("\"a\tb\"", Style::Tsv, NONE, 2),
        ("'\u{E9}\n'", Style::Tsv, NONE, 3),
        ("\"\\a\"", Style::Triples, NONE, 2),
        ("\"\\u0041\"", Style::Query, NONE, 2),
        ("\"\\ud8", Style::Triples, NONE, 4),
        ("\"\\uDFFF\"", Style::Triples, NONE, 4),
        ("\"\\U0011", Style::Triples, NONE, 6),
        ("\"\\U00110000\"", Style::Tsv, NONE, 6),
        ("\"\\U02", Style::Tsv, NONE, 4),
        ("\"\\u00G0\"", Style::Tsv, NONE, 5),
    ] {
        let answer = string_at(rt.alloc(), text.as_bytes(), 0, style);
        assert_eq!(rt; told(&answer), (value, place), "{text:?}");
    }
}
