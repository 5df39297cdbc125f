//! Lines whose tokens have no escapes, read at once and not character by character. Nearly all lines are such.

ghost use Rattle.bye_ntriples.specs.PlainLines as spec;
ghost use Rattle.bye_terms.specs.declared.term.Term.TheVariants as terms;
ghost use Rattle.std.specs.Prelude.{◌≡◌, IfOk, Some, None, cond, true};
ghost use Rattle.std.specs.List.{list_all};
ghost use Rattle.std.specs.Option.{option_map};
ghost use Rattle.std.specs.Str.{chars};

use crate::line::{is_line_end, is_space};
use crate::line_triple::LineTriple;
use crate::subject::Subject;
use bye_terms::{Cursor, Label, Literal, Memory, Tag, Term, Text, raw_iri};
use std::alloc::Global;

/// Goes past spaces and TABs.
fn skip_spaces<'a>(rest: &mut Cursor<'a>)
    ensures { rest.new ≡ spec.after_spaces rest.old }
{
    loop {
        let mut after = Cursor::new(rest.rest());
        match after.next() {
            Some(c) if is_space(c) => *rest = after,
            _ => return,
        }
    }
}

/// Takes what stands before the first space or line end.
fn word<'a>(alloc: Global, rest: &mut Cursor<'a>) -> Result<Text, Memory>
    ensures { IfOk result (λ t. (t, rest.new) ≡ spec.word rest.old) }
{
    let mut text = Text::new(alloc);
    loop {
        let mut after = Cursor::new(rest.rest());
        match after.next() {
            Some(c) if !is_space(c) && !is_line_end(c) => {
                text.push_char(c)?;
                *rest = after;
            }
            _ => return Ok(text),
        }
    }
}

/// A label, after its underscore.
#[tactic(auto, unfolding(crate::specs::PlainLines::label))]
fn label(alloc: Global, rest: &mut Cursor<'_>) -> Result<Option<Label>, Memory>
    ensures { IfOk result (λ o. option_map (λ label. (label, rest.new)) o ≡ spec.label rest.old) }
{
    if !rest.take(':') {
        return Ok(None);
    }
    Ok(Label::from_text(word(alloc, rest)?))
}

/// A subject.
fn subject(alloc: Global, rest: &mut Cursor<'_>) -> Result<Option<Subject>, Memory>
    ensures { IfOk result (λ o. option_map (λ s. (s, rest.new)) o ≡ spec.subject rest.old) }
{
    if rest.take('_') {
        return Ok(label(alloc, rest)?.map(Subject::blank));
    }
    Ok(raw_iri(alloc, rest)?.map(Subject::iri))
}

/// A literal with a tag, after the mark of the tag.
#[tactic(auto, unfolding(crate::specs::PlainLines::tagged))]
fn tagged(alloc: Global, lexical: Text, rest: &mut Cursor<'_>) -> Result<Option<Term>, Memory>
    ensures { IfOk result (λ o. option_map (λ t. (t, rest.new)) o ≡ spec.tagged lexical rest.old) }
{
    let Some(tag) = Tag::from_text(word(alloc, rest)?) else {
        return Ok(None);
    };
    Ok(Some(Term::Lit(Literal::tagged(alloc, lexical, tag)?)))
}

/// A literal with a datatype, after the first of its marks.
#[tactic(auto, unfolding(crate::specs::PlainLines::typed))]
fn typed(alloc: Global, lexical: Text, rest: &mut Cursor<'_>) -> Result<Option<Term>, Memory>
    ensures { IfOk result (λ o. option_map (λ t. (t, rest.new)) o ≡ spec.typed lexical rest.old) }
{
    if !rest.take('^') {
        return Ok(None);
    }
    let Some(datatype) = raw_iri(alloc, rest)? else {
        return Ok(None);
    };
    match Literal::typed(lexical, datatype) {
        Some(literal) => Ok(Some(Term::Lit(literal))),
        None => Ok(None),
    }
}

/// The literal of a string, by what follows the string.
fn suffixed(alloc: Global, lexical: Text, rest: &mut Cursor<'_>) -> Result<Option<Term>, Memory>
    ensures { IfOk result (λ o. option_map (λ t. (t, rest.new)) o ≡ spec.suffixed lexical rest.old) }
{
    if rest.take('@') {
        return tagged(alloc, lexical, rest);
    }
    if rest.take('^') {
        return typed(alloc, lexical, rest);
    }
    Ok(Some(Term::Lit(Literal::string(alloc, lexical)?)))
}

/// A character that stands for itself in a string.
fn is_plain(c: char) -> bool
    ensures { result ≡ spec.is_plain c }
{
    !matches!(c, '"' | '\\' | '\n' | '\r')
}

fn all_plain(text: &str) -> bool
    ensures { result ≡ list_all spec.is_plain (chars text.now) }
{
    text.chars().all(is_plain)
}

/// A literal, after its first quote.
#[tactic(auto, unfolding(crate::specs::PlainLines::literal))]
fn literal(alloc: Global, rest: &mut Cursor<'_>) -> Result<Option<Term>, Memory>
    ensures { IfOk result (λ o. option_map (λ t. (t, rest.new)) o ≡ spec.literal rest.old) }
{
    let Some(text) = rest.until('"') else {
        return Ok(None);
    };
    if !all_plain(text) {
        return Ok(None);
    }
    suffixed(alloc, Text::copy_of(alloc, text)?, rest)
}

/// An object.
fn object(alloc: Global, rest: &mut Cursor<'_>) -> Result<Option<Term>, Memory>
    ensures { IfOk result (λ o. option_map (λ t. (t, rest.new)) o ≡ spec.object rest.old) }
{
    if rest.take('"') {
        return literal(alloc, rest);
    }
    Ok(subject(alloc, rest)?.map(Subject::into_term))
}

/// Takes a line's end. False where none stands there.
fn take_end(rest: &mut Cursor<'_>) -> bool
    ensures { spec.after_end rest.old ≡ cond result (Some rest.new) None }
{
    match rest.next() {
        Some(c) => is_line_end(c),
        None => false,
    }
}

/// A line with a triple and no comment, and its end. Where none stands there, what is left of the text is open.
#[tactic(auto, unfolding(crate::specs::PlainLines::plain_line))]
pub fn plain_line(alloc: Global, rest: &mut Cursor<'_>) -> Result<Option<LineTriple>, Memory>
    ensures { IfOk result (λ o. option_map (λ t. (t, rest.new)) o ≡ spec.plain_line rest.old) }
{
    let Some(s) = subject(alloc, rest)? else {
        return Ok(None);
    };
    skip_spaces(rest);
    let Some(p) = raw_iri(alloc, rest)? else {
        return Ok(None);
    };
    skip_spaces(rest);
    let Some(o) = object(alloc, rest)? else {
        return Ok(None);
    };
    skip_spaces(rest);
    if !rest.take('.') {
        return Ok(None);
    }
    skip_spaces(rest);
    if !take_end(rest) {
        return Ok(None);
    }
    Ok(Some(LineTriple::new(s, p, o)))
}
