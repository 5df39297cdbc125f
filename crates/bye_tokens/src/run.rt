//! Runs of characters of a class.

ghost use Rattle.bye_terms.specs.Characters as characters;
ghost use Rattle.bye_tokens.specs.Reading.{after_all as spec_after_all};
ghost use Rattle.bye_tokens.specs.Classes.{is_space as spec_space, is_line_end as spec_line_end};
ghost use Rattle.bye_tokens.specs.Splitting.{skip as spec_skip};
ghost use Rattle.std.specs.Prelude.{◌≡◌, false};

use crate::classes::{is_line_end, is_space};
use bye_terms::Cursor;
use bye_terms::characters::{is_iri_char, is_name_part};

/// What is left after the characters of an IRI at the front.
pub fn after_iri_chars<'a>(mut rest: Cursor<'a>) -> Cursor<'a>
    ensures { result ≡ spec_after_all characters.is_iri_char rest.entry }
{
    loop {
        let mut ahead = Cursor::new(rest.rest());
        match ahead.next() {
            Some(c) if is_iri_char(c) => rest = ahead,
            _ => return rest,
        }
    }
}

/// What is left after the characters of a name at the front.
pub fn after_name_parts<'a>(mut rest: Cursor<'a>) -> Cursor<'a>
    ensures { result ≡ spec_after_all characters.is_name_part rest.entry }
{
    loop {
        let mut ahead = Cursor::new(rest.rest());
        match ahead.next() {
            Some(c) if is_name_part(c) => rest = ahead,
            _ => return rest,
        }
    }
}

/// What is left after spaces and comments.
pub fn skip<'a>(mut rest: Cursor<'a>) -> Cursor<'a>
    ensures { result ≡ spec_skip false rest.entry }
{
    let mut comment = false;
    loop {
        let mut ahead = Cursor::new(rest.rest());
        let Some(c) = ahead.next() else {
            return rest;
        };
        if comment {
            comment = !is_line_end(c);
        } else if c == '#' {
            comment = true;
        } else if !is_space(c) {
            return rest;
        }
        rest = ahead;
    }
}
