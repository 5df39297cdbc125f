//! Classes of characters (SPARQL 1.1 Query, section 19.8).

ghost use Rattle.std.specs.Prelude.{◌≡◌};
ghost use Rattle.bye_terms.specs.Characters as characters;
ghost use Rattle.bye_tokens.specs.Classes as spec;

use bye_terms::characters::{is_letter_or_digit, is_name_part, is_name_start};

pub fn is_space(c: char) -> bool
    ensures { result ≡ spec.is_space c }
{
    matches!(c, ' ' | '\t' | '\n' | '\r')
}

/// LF or CR.
pub fn is_line_end(c: char) -> bool
    ensures { result ≡ spec.is_line_end c }
{
    c == '\n' || c == '\r'
}

/// The mark before a variable.
pub fn is_mark(c: char) -> bool
    ensures { result ≡ spec.is_mark c }
{
    c == '?' || c == '$'
}

fn is_digit(c: char) -> bool
    ensures { result ≡ characters.is_digit c }
{
    matches!(c, '0'..='9')
}

/// PN_CHARS_BASE: what may begin a name, but for the underscore and digits.
#[tactic(auto, using(crate::proofs::ClassTests::base_is))]
pub fn is_name_base(c: char) -> bool
    ensures { result ≡ characters.is_name_base c }
{
    is_name_start(c) && c != '_' && !is_digit(c)
}

/// A later character of a word.
pub fn is_word_part(c: char) -> bool
    ensures { result ≡ spec.is_word_part c }
{
    is_letter_or_digit(c) || c == '_'
}

/// PN_CHARS.
pub fn is_prefix_part(c: char) -> bool
    ensures { result ≡ spec.is_prefix_part c }
{
    is_name_part(c) || c == '-'
}

/// HEX.
pub fn is_hex(c: char) -> bool
    ensures { result ≡ spec.is_hex c }
{
    matches!(c, '0'..='9' | 'A'..='F' | 'a'..='f')
}

/// What may stand after the backslash of an escape in a local part (PN_LOCAL_ESC).
pub fn may_be_escaped(c: char) -> bool
    ensures { result ≡ spec.may_be_escaped c }
{
    matches!(
        c,
        '_' | '~'
            | '.'
            | '-'
            | '!'
            | '$'
            | '&'
            | '\''
            | '('
            | ')'
            | '*'
            | '+'
            | ','
            | ';'
            | '='
            | '/'
            | '?'
            | '#'
            | '@'
            | '%'
    )
}
