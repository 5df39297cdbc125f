//! The machine of words and prefixed names, which begin alike (SPARQL 1.1 Query, section 19.8).

ghost use Rattle.bye_tokens.specs.NameSteps as spec;
ghost use Rattle.std.specs.Prelude.{◌≡◌};

use crate::classes::{is_hex, is_name_base, is_prefix_part, is_word_part, may_be_escaped};
use bye_lex::Scanner;
use bye_terms::characters::{is_label_part, is_label_start, is_letter};

/// Which of the two.
#[derive(Debug, Copy, Clone)]
pub enum Plain {
    Word,
    Prefixed,
}

/// How far one of them was read.
#[derive(Debug, Copy, Clone)]
pub enum PlainAt {
    Start,
    /// In a word that a prefix may begin with.
    InWord,
    /// In a prefix that is no word.
    InPrefix,
    /// After a dot, with which a prefix does not end.
    PrefixDot,
    /// After the colon.
    Colon,
    InLocal,
    /// After a dot, with which a local part does not end.
    LocalDot,
    /// After a percent sign.
    Percent,
    /// After the first of its two digits.
    LastHex,
    Backslash,
}

fn start(c: char) -> Option<PlainAt>
    ensures { result ≡ spec.step PlainAt.Start c }
{
    if is_letter(c) {
        return Some(PlainAt::InWord);
    }
    if is_name_base(c) {
        return Some(PlainAt::InPrefix);
    }
    if c == ':' {
        return Some(PlainAt::Colon);
    }
    None
}

fn after_prefix(c: char) -> Option<PlainAt>
    ensures { result ≡ spec.after_prefix c }
{
    if is_prefix_part(c) {
        return Some(PlainAt::InPrefix);
    }
    if c == '.' {
        return Some(PlainAt::PrefixDot);
    }
    if c == ':' {
        return Some(PlainAt::Colon);
    }
    None
}

fn in_word(c: char) -> Option<PlainAt>
    ensures { result ≡ spec.step PlainAt.InWord c }
{
    if is_word_part(c) {
        return Some(PlainAt::InWord);
    }
    after_prefix(c)
}

fn prefix_dot(c: char) -> Option<PlainAt>
    ensures { result ≡ spec.step PlainAt.PrefixDot c }
{
    if is_prefix_part(c) {
        return Some(PlainAt::InPrefix);
    }
    if c == '.' {
        return Some(PlainAt::PrefixDot);
    }
    None
}

fn escaped(c: char) -> Option<PlainAt>
    ensures { result ≡ spec.escaped c }
{
    match c {
        '%' => Some(PlainAt::Percent),
        '\\' => Some(PlainAt::Backslash),
        _ => None,
    }
}

fn colon(c: char) -> Option<PlainAt>
    ensures { result ≡ spec.step PlainAt.Colon c }
{
    if is_label_start(c) {
        return Some(PlainAt::InLocal);
    }
    escaped(c)
}

fn in_local(c: char) -> Option<PlainAt>
    ensures { result ≡ spec.in_local c }
{
    if is_label_part(c) {
        return Some(PlainAt::InLocal);
    }
    if c == '.' {
        return Some(PlainAt::LocalDot);
    }
    escaped(c)
}

fn percent(c: char) -> Option<PlainAt>
    ensures { result ≡ spec.step PlainAt.Percent c }
{
    if is_hex(c) {
        return Some(PlainAt::LastHex);
    }
    None
}

fn last_hex(c: char) -> Option<PlainAt>
    ensures { result ≡ spec.step PlainAt.LastHex c }
{
    if is_hex(c) {
        return Some(PlainAt::InLocal);
    }
    None
}

fn backslash(c: char) -> Option<PlainAt>
    ensures { result ≡ spec.step PlainAt.Backslash c }
{
    if may_be_escaped(c) {
        return Some(PlainAt::InLocal);
    }
    None
}

impl Scanner for PlainAt {
    ghost use Rattle.bye_tokens.specs.NameSteps as spec;

    type Form = Plain;

    ghost next = { spec.step };

    ghost whole = { spec.form };

    fn step(self, c: char) -> Option<PlainAt> {
        match self {
            PlainAt::Start => start(c),
            PlainAt::InWord => in_word(c),
            PlainAt::InPrefix => after_prefix(c),
            PlainAt::PrefixDot => prefix_dot(c),
            PlainAt::Colon => colon(c),
            PlainAt::InLocal | PlainAt::LocalDot => in_local(c),
            PlainAt::Percent => percent(c),
            PlainAt::LastHex => last_hex(c),
            PlainAt::Backslash => backslash(c),
        }
    }

    fn form(self) -> Option<Plain> {
        match self {
            PlainAt::InWord => Some(Plain::Word),
            PlainAt::Colon | PlainAt::InLocal => Some(Plain::Prefixed),
            _ => None,
        }
    }
}
