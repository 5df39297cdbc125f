//! The token at the front of a text, by kinds. Each function gives it with what is left after it.

ghost use Rattle.bye_tokens.specs.Beginnings as beginnings;
ghost use Rattle.bye_tokens.specs.Fronts as spec;
ghost use Rattle.std.specs.Prelude.{◌≡◌, IfOk};
ghost use Rattle.std.specs.Str.{chars};

use crate::classes::is_mark;
use crate::escape::prefixed;
use crate::front::before;
use crate::machine::read_front;
use crate::name::{Plain, PlainAt};
use crate::run::{after_iri_chars, after_name_parts};
use crate::scanner::scan;
use crate::sign::{double, single};
use crate::token::Token;
use crate::word::word_of;
use bye_lex::{NumberAt, StringAt, Style, TagAt};
use bye_terms::characters::is_name_start;
use bye_terms::{Cursor, Memory, Text, Var};
use std::alloc::Global;

fn begins_string(rest: &Cursor<'_>) -> bool
    ensures { result ≡ beginnings.begins_string rest.now }
{
    let mut ahead = Cursor::new(rest.rest());
    match ahead.next() {
        Some(c) => c == '"' || c == '\'',
        None => false,
    }
}

fn begins_tag(rest: &Cursor<'_>) -> bool
    ensures { result ≡ beginnings.begins_tag rest.now }
{
    let mut ahead = Cursor::new(rest.rest());
    match ahead.next() {
        Some(c) => c == '@',
        None => false,
    }
}

#[tactic(auto, using(crate::proofs::Starting::no_string))]
fn string<'a>(alloc: Global, rest: &Cursor<'a>) -> Result<Option<(Token, Cursor<'a>)>, Memory>
    ensures { IfOk result (λ o. o ≡ spec.string_front rest.now) }
{
    if !begins_string(rest) {
        return Ok(None);
    }
    match read_front(
        alloc,
        StringAt::Start,
        Cursor::new(rest.rest()),
        Style::Query,
    ) {
        Ok(Some((text, after))) => Ok(Some((Token::Quoted(text), after))),
        Ok(None) => Ok(None),
        Err(memory) => Err(memory),
    }
}

fn iri<'a>(alloc: Global, rest: &Cursor<'a>) -> Result<Option<(Token, Cursor<'a>)>, Memory>
    ensures { IfOk result (λ o. o ≡ spec.iri_front rest.now) }
{
    let mut inner = Cursor::new(rest.rest());
    if !inner.take('<') {
        return Ok(None);
    }
    let mut after = after_iri_chars(Cursor::new(inner.rest()));
    let value = before(&inner, &after);
    if !after.take('>') {
        return Ok(None);
    }
    let text = Text::copy_of(alloc, value)?;
    Ok(Some((Token::IriRef(text), after)))
}

#[tactic(auto, using(crate::proofs::Starting::no_tag))]
fn tag<'a>(alloc: Global, rest: &Cursor<'a>) -> Result<Option<(Token, Cursor<'a>)>, Memory>
    ensures { IfOk result (λ o. o ≡ spec.tag_front rest.now) }
{
    if !begins_tag(rest) {
        return Ok(None);
    }
    match read_front(alloc, TagAt::Start, Cursor::new(rest.rest()), Style::Query) {
        Ok(Some((tag, after))) => Ok(Some((Token::Tagged(tag), after))),
        Ok(None) => Ok(None),
        Err(memory) => Err(memory),
    }
}

/// A variable, after its mark.
fn name<'a>(alloc: Global, rest: &Cursor<'a>) -> Result<Option<(Token, Cursor<'a>)>, Memory>
    ensures { IfOk result (λ o. o ≡ spec.name_front rest.now) }
{
    let mut later = Cursor::new(rest.rest());
    let Some(c) = later.next() else {
        return Ok(None);
    };
    if is_name_start(c) {
        let after = after_name_parts(later);
        let text = Text::copy_of(alloc, before(rest, &after))?;
        return Ok(Some((Token::Variable(Var::new(text)), after)));
    }
    Ok(None)
}

fn variable<'a>(alloc: Global, rest: &Cursor<'a>) -> Result<Option<(Token, Cursor<'a>)>, Memory>
    ensures { IfOk result (λ o. o ≡ spec.variable_front rest.now) }
{
    let mut later = Cursor::new(rest.rest());
    match later.next() {
        Some(c) if is_mark(c) => name(alloc, &later),
        _ => Ok(None),
    }
}

fn number<'a>(alloc: Global, rest: &Cursor<'a>) -> Result<Option<(Token, Cursor<'a>)>, Memory>
    ensures { IfOk result (λ o. o ≡ spec.number_front rest.now) }
{
    let Some((kind, after)) = scan(NumberAt::Start, Cursor::new(rest.rest())) else {
        return Ok(None);
    };
    let text = Text::copy_of(alloc, before(rest, &after))?;
    Ok(Some((Token::Numeral(kind, text), after)))
}

/// A word or a prefixed name, by its text.
fn plain_token(alloc: Global, kind: Plain, text: &str) -> Result<Token, Memory>
    ensures { IfOk result (λ t. t ≡ spec.plain_token kind (chars text.now)) }
{
    match kind {
        Plain::Prefixed => prefixed(alloc, text),
        Plain::Word => Ok(Token::Keyword(word_of(text))),
    }
}

fn plain<'a>(alloc: Global, rest: &Cursor<'a>) -> Result<Option<(Token, Cursor<'a>)>, Memory>
    ensures { IfOk result (λ o. o ≡ spec.plain_front rest.now) }
{
    let Some((kind, after)) = scan(PlainAt::Start, Cursor::new(rest.rest())) else {
        return Ok(None);
    };
    let token = plain_token(alloc, kind, before(rest, &after))?;
    Ok(Some((token, after)))
}

fn sign<'a>(rest: &Cursor<'a>) -> Option<(Token, Cursor<'a>)>
    ensures { result ≡ spec.sign_front rest.now }
{
    let mut later = Cursor::new(rest.rest());
    let Some(c) = later.next() else {
        return None;
    };
    let mut last = Cursor::new(later.rest());
    if let Some(d) = last.next() {
        if let Some(sign) = double(c, d) {
            return Some((Token::Mark(sign), last));
        }
    }
    match single(c) {
        Some(sign) => Some((Token::Mark(sign), later)),
        None => None,
    }
}

/// The token at the front, of any kind.
pub fn found<'a>(alloc: Global, rest: &Cursor<'a>) -> Result<Option<(Token, Cursor<'a>)>, Memory>
    ensures { IfOk result (λ o. o ≡ spec.found rest.now) }
{
    match string(alloc, rest) {
        Ok(None) => {}
        other => return other,
    }
    match iri(alloc, rest) {
        Ok(None) => {}
        other => return other,
    }
    match tag(alloc, rest) {
        Ok(None) => {}
        other => return other,
    }
    match variable(alloc, rest) {
        Ok(None) => {}
        other => return other,
    }
    match number(alloc, rest) {
        Ok(None) => {}
        other => return other,
    }
    match plain(alloc, rest) {
        Ok(None) => {}
        other => return other,
    }
    Ok(sign(rest))
}
