//! Reading of a whole text.

ghost use Rattle.std.specs.Prelude.{◌≡◌, ◌++◌, ◌∷◌, [], List, length, Err, IfOk, OnOk, Some};
ghost use Rattle.std.specs.Option.{option_map};
ghost use Rattle.std.specs.Str.{chars};
ghost use Rattle.bye_parts.specs.Answers.{WrongToken};
ghost use Rattle.bye_parts.specs.Parts.{any};
ghost use Rattle.bye_parts.specs.Readers.{left_of, to_end};
ghost use Rattle.bye_tokens.specs.Fronts.{tokens_of};
ghost use Rattle.bye_tokens.specs.Left.{first_place};
ghost use Rattle.bye_tokens.specs.Splitting.{AreTokens};
ghost use Rattle.bye_tokens.specs.declared.token.Placed.{Placed as APlaced};
ghost use Rattle.bye_grammar.specs.Grammar as grammar;
ghost use Rattle.bye_grammar.specs.Reading as spec;
ghost use Rattle.bye_grammar.specs.TokenKinds.{turn};
ghost use Rattle.bye_descent.specs.Answer.{Answered, IsAnswer};
ghost use Rattle.bye_descent.specs.Ending.{up_to};
ghost use Rattle.bye_descent.specs.Features.{next_feature as spec_feature};
ghost use Rattle.bye_descent.specs.Opening.{max_open};
ghost use Rattle.bye_descent.specs.Told.{ToldAs};
ghost use Rattle.bye_descent.specs.Unknown.{an_iri, is_unknown as spec_is_unknown, leaves_none as spec_leaves_none, next_prefix as spec_next_prefix};
ghost use Rattle.bye_tree.specs.Written.{written_of};

use crate::document::document;
use crate::feature::{Feature, feature_of};
use crate::iris::rdf_type;
use crate::left::Left;
use crate::stop::{Stop, give_up};
use crate::stopped::Stopped;
use crate::unknown::is_declared;
use bye_grammar::{documents_are_read, fitting_iris_are_read};
use bye_terms::{Memory, Text};
use bye_tokens::{Placed, Token, Tokens, splits_one_way};
use bye_tree::WrittenQuery;
use std::alloc::Global;

/// So many brackets may be open in one another.
const MAX_OPEN: u8 = 64;

/// All tokens as a document.
fn whole(alloc: Global, left: &mut Left<'_>) -> Result<WrittenQuery, Stop>
    ensures { ToldAs written_of result left.new (to_end (spec.read_document max_open left.old)) }
{
    let query = document(alloc, MAX_OPEN, left)?;
    match left.place() {
        None => Ok(query),
        Some(_) => give_up(query, Stop::Wrong),
    }
}

/// The place of the next token in bytes, or that of the end of the text.
fn next_place(left: &Left<'_>, text: &str) -> usize
    ensures { result ≡ first_place left.now (length text.now) }
{
    match left.place() {
        Some(place) => place,
        None => text.len(),
    }
}

/// What the next token is, where it is left out of queries.
fn next_feature(left: &Left<'_>) -> Option<Feature>
    ensures { result ≡ spec_feature left.now }
{
    match left.peek() {
        Some(token) => feature_of(token),
        None => None,
    }
}

/// Reads as far as a document goes on.
fn read_on(alloc: Global, left: &mut Left<'_>) -> Result<(), Memory>
    ensures { OnOk result (left.new ≡ left_of (to_end (spec.read_document max_open left.old))) }
{
    match whole(alloc, left) {
        Ok(query) => {
            drop(query);
            Ok(())
        }
        Err(Stop::Wrong) => Ok(()),
        Err(Stop::Deep) => Ok(()),
        Err(Stop::Memory) => Err(Memory),
    }
}

/// Whether these are read as a document, or up to their end.
fn leaves_none(alloc: Global, left: Left<'_>) -> Result<bool, Memory>
    ensures { IfOk result (λ none. none ≡ spec_leaves_none left.entry) }
{
    let mut rest = left;
    let read = read_on(alloc, &mut rest);
    let none = rest.place().is_none();
    drop(rest);
    match read {
        Ok(()) => Ok(none),
        Err(_) => Err(Memory),
    }
}

/// Whether an IRI reference fits in this place of the text.
fn fits_iri(alloc: Global, text: &str, place: usize) -> Result<bool, Memory>
    ensures { IfOk result (λ fits. fits ≡ spec_leaves_none (up_to (Some place) (tokens_of (length text.now) (chars text.now)) ++ an_iri place ∷ [])) }
{
    let token = Token::IriRef(rdf_type(alloc)?.into_text());
    let tokens = Tokens::new(alloc, text)?;
    leaves_none(
        alloc,
        Left::ending(tokens, place, Some(Placed { place, token })),
    )
}

/// Whether the prefix is not declared before this place, where an IRI reference fits.
fn is_unknown(alloc: Global, text: &str, place: usize, name: &Text) -> Result<bool, Memory>
    ensures { IfOk result (λ unknown. unknown ≡ spec_is_unknown place (up_to (Some place) (tokens_of (length text.now) (chars text.now))) (Some name.now)) }
{
    let tokens = Tokens::new(alloc, text)?;
    if is_declared(alloc, Left::ending(tokens, place, None), name)? {
        return Ok(false);
    }
    fits_iri(alloc, text, place)
}

/// The prefix of the next token.
fn next_prefix<'x>(left: &'x Left<'_>) -> Option<&'x Text>
    ensures { option_map (λ t. t.now) result ≡ spec_next_prefix left.now }
{
    match left.peek() {
        Some(Token::Prefixed(name, _)) => Some(name),
        _ => None,
    }
}

/// Whether the next token has such a prefix.
fn next_unknown(alloc: Global, text: &str, place: usize, left: &Left<'_>) -> Result<bool, Memory>
    ensures { IfOk result (λ unknown. unknown ≡ spec_is_unknown place (up_to (Some place) (tokens_of (length text.now) (chars text.now))) (spec_next_prefix left.now)) }
{
    match next_prefix(left) {
        Some(name) => is_unknown(alloc, text, place, name),
        None => Ok(false),
    }
}

/// What is told of the wrong token, which is the next one.
fn refused(alloc: Global, text: &str, left: &Left<'_>) -> Stopped
    ensures { (ts : List APlaced) → AreTokens (chars text.now) ts → WrongToken (any grammar.document) turn max_open ts left.now → Answered (length text.now) ts (Err result) }
{
    splits_one_way();
    fitting_iris_are_read();
    let place = next_place(left, text);
    match next_unknown(alloc, text, place, left) {
        Ok(true) => Stopped::UnknownPrefix(place),
        Ok(false) => Stopped::WrongToken(place, next_feature(left)),
        Err(_) => Stopped::Memory,
    }
}

/// Reads a text as a query (SPARQL 1.1 Query, section 19.8). It answers Memory for want of memory alone.
pub fn read_written(alloc: Global, text: &str) -> Result<WrittenQuery, Stopped>
    ensures { IsAnswer text.now result }
{
    documents_are_read();
    let tokens = match Tokens::new(alloc, text) {
        Ok(tokens) => tokens,
        Err(_) => return Err(Stopped::Memory),
    };
    let mut left = Left::new(tokens);
    match whole(alloc, &mut left) {
        Ok(query) => Ok(query),
        Err(Stop::Wrong) => Err(refused(alloc, text, &left)),
        Err(Stop::Deep) => Err(Stopped::DeepToken(next_place(&left, text))),
        Err(Stop::Memory) => Err(Stopped::Memory),
    }
}
