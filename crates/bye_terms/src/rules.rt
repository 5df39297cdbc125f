//! Which texts are IRIs, labels, tags and names (RDF 1.1 N-Triples, section 7; SPARQL 1.1 Query, section 19.8).

ghost use Rattle.std.specs.Prelude.{◌≡◌, true, false};
ghost use Rattle.std.specs.Str.{chars};
ghost use Rattle.std.specs.List.{list_all};
ghost use Rattle.bye_terms.specs.Characters as characters;
ghost use Rattle.bye_terms.specs.Names as spec;

use crate::characters::{
    is_iri_char, is_label_part, is_label_start, is_letter, is_letter_or_digit, is_name_part,
    is_name_start, is_scheme_char,
};
use crate::cursor::Cursor;

fn all_iri_chars(text: &str) -> bool
    ensures { result ≡ list_all characters.is_iri_char (chars text.now) }
{
    text.chars().all(is_iri_char)
}

fn all_name_parts(text: &str) -> bool
    ensures { result ≡ list_all characters.is_name_part (chars text.now) }
{
    text.chars().all(is_name_part)
}

fn is_after_letter(mut rest: Cursor<'_>) -> bool
    ensures { result ≡ spec.is_after_letter rest.entry }
{
    while let Some(c) = rest.next() {
        if c == ':' {
            return all_iri_chars(rest.rest());
        }
        if !is_scheme_char(c) {
            return false;
        }
    }
    false
}

pub fn is_iri(text: &str) -> bool
    ensures { result ≡ spec.is_iri (chars text.now) }
{
    let mut rest = Cursor::new(text);
    match rest.next() {
        Some(c) => is_letter(c) && is_after_letter(rest),
        None => false,
    }
}

fn is_label_rest(mut rest: Cursor<'_>) -> bool
    ensures { result ≡ spec.is_label_rest false rest.entry }
{
    let mut due = false;
    while let Some(c) = rest.next() {
        if is_label_part(c) {
            due = false;
        } else if c == '.' {
            due = true;
        } else {
            return false;
        }
    }
    !due
}

pub fn is_label(text: &str) -> bool
    ensures { result ≡ spec.is_label (chars text.now) }
{
    let mut rest = Cursor::new(text);
    match rest.next() {
        Some(c) => is_label_start(c) && is_label_rest(rest),
        None => false,
    }
}

fn is_subtags(mut rest: Cursor<'_>) -> bool
    ensures { result ≡ spec.is_subtags true rest.entry }
{
    let mut due = true;
    while let Some(c) = rest.next() {
        if is_letter_or_digit(c) {
            due = false;
        } else if c == '-' && !due {
            due = true;
        } else {
            return false;
        }
    }
    !due
}

fn is_tag_rest(mut rest: Cursor<'_>) -> bool
    ensures { result ≡ spec.is_tag_rest rest.entry }
{
    while let Some(c) = rest.next() {
        if c == '-' {
            return is_subtags(rest);
        }
        if !is_letter(c) {
            return false;
        }
    }
    true
}

pub fn is_tag(text: &str) -> bool
    ensures { result ≡ spec.is_tag (chars text.now) }
{
    let mut rest = Cursor::new(text);
    match rest.next() {
        Some(c) => is_letter(c) && is_tag_rest(rest),
        None => false,
    }
}

pub fn is_name(text: &str) -> bool
    ensures { result ≡ spec.is_name (chars text.now) }
{
    let mut rest = Cursor::new(text);
    match rest.next() {
        Some(c) => is_name_start(c) && all_name_parts(rest.rest()),
        None => false,
    }
}

#[cfg(test)]
mod tests {
    use super::*;

    #[test]
    fn tells_iris(rt: HostRuntime) {
        for (text, want) in [
            ("a:", true),
            ("urn:x:1", true),
            ("a+.-9:#?\u{E9}", true),
            ("A:\u{10FFFF}", true),
            ("", false),
            ("a", false),
            (":", false),
            ("1a:", false),
            ("a b:", false),
            ("a:b c", false),
            ("a:<", false),
            ("a:\\", false),
            ("a:\n", false),
            ("/a", false),
            ("\u{E9}:", false),
        ] {
            assert_eq!(rt; is_iri(text), want, "{text:?}");
        }
    }

    #[test]
    fn tells_labels(rt: HostRuntime) {
        for (text, want) in [
            ("0", true),
            ("_", true),
            (":", true),
            ("a..b", true),
            ("a-", true),
            ("a\u{B7}", true),
            ("\u{C0}", true),
            ("", false),
            (".", false),
            ("a.", false),
            ("-a", false),
            ("\u{B7}a", false),
            ("a b", false),
            ("\u{D7}", false),
        ] {
            assert_eq!(rt; is_label(text), want, "{text:?}");
        }
    }

    #[test]
    fn tells_tags(rt: HostRuntime) {
        for (text, want) in [
            ("Z", true),
            ("en-US", true),
            ("zz-0-9-z", true),
            ("", false),
            ("-a", false),
            ("a-", false),
            ("a--b", false),
            ("1a", false),
            ("a1", false),
            ("a-_", false),
            ("@en", false),
        ] {
            assert_eq!(rt; is_tag(text), want, "{text:?}");
        }
    }

    #[test]
    fn tells_names(rt: HostRuntime) {
        for (text, want) in [
            ("x_1", true),
            ("0", true),
            ("\u{F8}\u{2FF}\u{37F}\u{200C}\u{EFFFF}", true),
            ("x\u{B7}\u{300}\u{2040}", true),
            ("", false),
            ("x-", false),
            ("x.", false),
            (":", false),
            ("\u{D7}", false),
            ("\u{37E}", false),
            ("\u{B7}", false),
            ("\u{2041}", false),
            ("\u{F0000}", false),
        ] {
            assert_eq!(rt; is_name(text), want, "{text:?}");
        }
    }
}
