//! Readers of single tokens, by what they stand for.

ghost use Rattle.std.specs.Prelude.{◌≡◌, ◌↔◌, [], IfOk, IsTrue, true, false, is_some};
ghost use Rattle.bye_tokens.specs.declared.token.Token.TheVariants.{Prefixed};
ghost use Rattle.bye_terms.specs.Literals.{is_lang_string};
ghost use Rattle.bye_pattern.specs.Patterns.{is_place};
ghost use Rattle.bye_grammar.specs.Fits as fits;
ghost use Rattle.bye_grammar.specs.Reading.{read_one};
ghost use Rattle.bye_descent.specs.Told.{Told};

use crate::iris::only_iri;
use crate::left::Left;
use crate::prefixes::Prefixes;
use crate::slots::{constant_of, datatype_of, object_of, subject_of, verb_of};
use crate::stop::Stop;
use bye_pattern::{Kind, Slot};
use bye_terms::{Iri, Tag, Text, Var};
use bye_tokens::{Token, Word};
use std::alloc::Global;

/// The variable of a token.
fn variable_of(token: Token) -> Option<Var>
    ensures { result ≡ fits.variable token }
{
    match token {
        Token::Variable(v) => Some(v),
        _ => None,
    }
}

/// The text of a string.
fn string_of(token: Token) -> Option<Text>
    ensures { result ≡ fits.string token }
{
    match token {
        Token::Quoted(text) => Some(text),
        _ => None,
    }
}

/// The name of a language tag.
fn tag_of(token: Token) -> Option<Tag>
    ensures { result ≡ fits.tag token }
{
    match token {
        Token::Tagged(tag) => Some(tag),
        _ => None,
    }
}

/// A variable.
pub fn variable(left: &mut Left<'_>) -> Result<Var, Stop>
    ensures { Told result left.new (read_one fits.variable left.old) }
{
    let Some(token) = left.peek() else {
        return Err(Stop::Wrong);
    };
    if !matches!(token, Token::Variable(_)) {
        return Err(Stop::Wrong);
    }
    let Some(placed) = left.next()? else {
        return Err(Stop::Wrong);
    };
    variable_of(placed.token).ok_or(Stop::Wrong)
}

/// The text of a string.
pub fn quoted(left: &mut Left<'_>) -> Result<Text, Stop>
    ensures { Told result left.new (read_one fits.string left.old) }
{
    let Some(token) = left.peek() else {
        return Err(Stop::Wrong);
    };
    if !matches!(token, Token::Quoted(_)) {
        return Err(Stop::Wrong);
    }
    let Some(placed) = left.next()? else {
        return Err(Stop::Wrong);
    };
    string_of(placed.token).ok_or(Stop::Wrong)
}

/// A language tag.
pub fn tag(left: &mut Left<'_>) -> Result<Tag, Stop>
    ensures { Told result left.new (read_one fits.tag left.old) }
{
    let Some(token) = left.peek() else {
        return Err(Stop::Wrong);
    };
    if !matches!(token, Token::Tagged(_)) {
        return Err(Stop::Wrong);
    }
    let Some(placed) = left.next()? else {
        return Err(Stop::Wrong);
    };
    tag_of(placed.token).ok_or(Stop::Wrong)
}

/// Which kind a word asks for.
fn kind_of(token: &Token) -> Option<Kind>
    ensures { result ≡ fits.kind_test token.now }
{
    match token {
        Token::Keyword(Word::IsIri | Word::IsUri) => Some(Kind::Iri),
        Token::Keyword(Word::IsBlank) => Some(Kind::Blank),
        Token::Keyword(Word::IsLiteral) => Some(Kind::Literal),
        _ => None,
    }
}

/// The word of a kind test.
pub fn kind_test(left: &mut Left<'_>) -> Result<Kind, Stop>
    ensures { Told result left.new (read_one fits.kind_test left.old) }
{
    let Some(token) = left.peek() else {
        return Err(Stop::Wrong);
    };
    match kind_of(token) {
        Some(kind) => {
            left.skip()?;
            Ok(kind)
        }
        None => Err(Stop::Wrong),
    }
}

/// Whether the text is empty.
pub fn is_empty(alloc: Global, text: &Text) -> bool
    ensures { IsTrue result ↔ (text.now ≡ []) }
{
    let empty = Text::new(alloc);
    text.same(&empty)
}

/// The name, where no local part stands after it.
#[tactic(auto, using(crate::proofs::Looking::alone, crate::proofs::Looking::not_alone))]
fn name_alone(alloc: Global, name: Text, local: Text) -> Option<Text>
    ensures { result ≡ fits.prefix (Prefixed name local) }
{
    if is_empty(alloc, &local) {
        Some(name)
    } else {
        None
    }
}

/// The name that the token declares.
fn prefix_of(alloc: Global, token: Token) -> Option<Text>
    ensures { result ≡ fits.prefix token }
{
    match token {
        Token::Prefixed(name, local) => name_alone(alloc, name, local),
        _ => None,
    }
}

/// Whether the token declares a name.
#[tactic(auto, using(crate::proofs::Looking::alone, crate::proofs::Looking::not_alone))]
fn is_prefix(alloc: Global, token: &Token) -> bool
    ensures { result ≡ is_some (fits.prefix token.now) }
{
    match token {
        Token::Prefixed(_, local) => is_empty(alloc, local),
        _ => false,
    }
}

/// A prefix before its IRI.
pub fn prefix(alloc: Global, left: &mut Left<'_>) -> Result<Text, Stop>
    ensures { Told result left.new (read_one fits.prefix left.old) }
{
    let Some(token) = left.peek() else {
        return Err(Stop::Wrong);
    };
    if !is_prefix(alloc, token) {
        return Err(Stop::Wrong);
    }
    let Some(placed) = left.next()? else {
        return Err(Stop::Wrong);
    };
    prefix_of(alloc, placed.token).ok_or(Stop::Wrong)
}

/// An IRI reference.
pub fn reference(alloc: Global, left: &mut Left<'_>) -> Result<Iri, Stop>
    ensures { Told result left.new (read_one fits.iri_reference left.old) }
{
    let Some(token) = left.peek() else {
        return Err(Stop::Wrong);
    };
    let Token::IriRef(text) = token else {
        return Err(Stop::Wrong);
    };
    match only_iri(alloc, text)? {
        Some(iri) => {
            left.skip()?;
            Ok(iri)
        }
        None => Err(Stop::Wrong),
    }
}

/// A subject.
pub fn subject(alloc: Global, prefixes: &Prefixes, left: &mut Left<'_>) -> Result<Slot, Stop>
    ensures told { Told result left.new (read_one (fits.subject prefixes.now) left.old) }
    ensures place { IfOk result (λ s. is_place s ≡ true) }
{
    let Some(token) = left.peek() else {
        return Err(Stop::Wrong);
    };
    match subject_of(alloc, prefixes, token)? {
        Some(slot) => {
            left.skip()?;
            Ok(slot)
        }
        None => Err(Stop::Wrong),
    }
}

/// A verb.
pub fn verb(alloc: Global, prefixes: &Prefixes, left: &mut Left<'_>) -> Result<Slot, Stop>
    ensures told { Told result left.new (read_one (fits.verb prefixes.now) left.old) }
    ensures place { IfOk result (λ s. is_place s ≡ true) }
{
    let Some(token) = left.peek() else {
        return Err(Stop::Wrong);
    };
    match verb_of(alloc, prefixes, token)? {
        Some(slot) => {
            left.skip()?;
            Ok(slot)
        }
        None => Err(Stop::Wrong),
    }
}

/// An object of one token.
pub fn short_object(alloc: Global, prefixes: &Prefixes, left: &mut Left<'_>) -> Result<Slot, Stop>
    ensures { Told result left.new (read_one (fits.short_object prefixes.now) left.old) }
{
    let Some(token) = left.peek() else {
        return Err(Stop::Wrong);
    };
    match object_of(alloc, prefixes, token)? {
        Some(slot) => {
            left.skip()?;
            Ok(slot)
        }
        None => Err(Stop::Wrong),
    }
}

/// A constant of one token.
pub fn short_constant(alloc: Global, prefixes: &Prefixes, left: &mut Left<'_>) -> Result<Slot, Stop>
    ensures { Told result left.new (read_one (fits.short_constant prefixes.now) left.old) }
{
    let Some(token) = left.peek() else {
        return Err(Stop::Wrong);
    };
    match constant_of(alloc, prefixes, token)? {
        Some(slot) => {
            left.skip()?;
            Ok(slot)
        }
        None => Err(Stop::Wrong),
    }
}

/// A datatype.
pub fn datatype(alloc: Global, prefixes: &Prefixes, left: &mut Left<'_>) -> Result<Iri, Stop>
    ensures told { Told result left.new (read_one (fits.datatype prefixes.now) left.old) }
    ensures plain { IfOk result (λ i. is_lang_string i ≡ false) }
{
    let Some(token) = left.peek() else {
        return Err(Stop::Wrong);
    };
    match datatype_of(alloc, prefixes, token)? {
        Some(iri) => {
            left.skip()?;
            Ok(iri)
        }
        None => Err(Stop::Wrong),
    }
}
