//! Readers of documents (SPARQL 1.1 Query, sections 4.1 and 8).

ghost use Rattle.std.specs.Prelude.{◌≡◌, ◌++◌, ◌∷◌, [], reverse, None, Some};
ghost use Rattle.std.specs.Option.{option_map};
ghost use Rattle.bye_parts.specs.Readers.{Got, onward, read_either, read_mapped, read_optional, read_repeated};
ghost use Rattle.bye_grammar.specs.Fits as fits;
ghost use Rattle.bye_grammar.specs.Reading as spec;
ghost use Rattle.bye_grammar.specs.TokenKinds as kinds;
ghost use Rattle.bye_grammar.specs.TokenKinds.{of, a_word};
ghost use Rattle.bye_grammar.specs.declared.place.Place.TheVariants as places;
ghost use Rattle.bye_tokens.specs.declared.sign.Sign.TheVariants as signs;
ghost use Rattle.bye_tokens.specs.declared.word.Word.TheVariants as words;
ghost use Rattle.bye_descent.specs.Told.{Told, ToldAs};
ghost use Rattle.bye_tree.specs.Written.{written_of};

use crate::group::group;
use crate::left::Left;
use crate::names::names;
use crate::prefixes::{Declared, Prefixes};
use crate::singles::{prefix, reference};
use crate::stop::{Stop, give_up};
use bye_grammar::Place;
use bye_terms::{Var, push_item};
use bye_tokens::{Sign, Word};
use bye_tree::WrittenQuery;
use std::alloc::Global;

/// The declaration of a prefix.
#[tactic(auto, unfolding(bye_grammar::specs::Reading::read_declaration))]
fn declaration(alloc: Global, left: &mut Left<'_>) -> Result<Declared, Stop>
    ensures { Told result left.new (spec.read_declaration left.old) }
{
    left.take_word(Word::Prefix)?;
    let name = prefix(alloc, left)?;
    match reference(alloc, left) {
        Ok(iri) => Ok(Declared::new(name, iri)),
        Err(stop) => give_up(name, stop),
    }
}

/// All declarations.
fn declarations(alloc: Global, left: &mut Left<'_>) -> Result<Vec<Declared>, Stop>
    ensures { ToldAs (λ v. v.items) result left.new (read_repeated (of (a_word words.Prefix)) spec.read_declaration left.old) }
{
    let mut declared = Vec::new(alloc);
    'rounds: while left.begins_with_word(Word::Prefix) {
        match declaration(alloc, left) {
            Ok(one) => push_item(&mut declared, one)?,
            Err(stop) => return Err(stop),
        }
    }
    Ok(declared)
}

/// Whether the next token is this word, which is taken.
fn optional_word(word: Word, left: &mut Left<'_>) -> Result<Option<()>, Stop>
    ensures { Told result left.new (read_optional (of (a_word word)) (spec.read_word word) left.old) }
{
    if left.begins_with_word(word) {
        left.take_word(word)?;
        return Ok(Some(()));
    }
    Ok(None)
}

/// The variables after SELECT, or `*`.
fn selected(alloc: Global, left: &mut Left<'_>) -> Result<Option<Vec<Var>>, Stop>
    ensures { ToldAs (option_map (λ v. v.items)) result left.new (read_either (of (kinds.Variable ∷ [])) (read_mapped Some spec.read_names) (read_mapped (λ _. None) (spec.read_sign signs.Star)) left.old) }
{
    if left.begins_with_variable() {
        let vars = names(alloc, left)?;
        return Ok(Some(vars));
    }
    left.take_sign(Sign::Star)?;
    Ok(None)
}

/// What stands after the variables that are selected.
fn selection_of(
    alloc: Global,
    prefixes: &Prefixes,
    depth: u8,
    distinct: bool,
    vars: Option<Vec<Var>>,
    left: &mut Left<'_>,
) -> Result<WrittenQuery, Stop>
    ensures { ToldAs written_of result left.new (onward (read_optional (of (a_word words.Where)) (spec.read_word words.Where) left.old) (λ _ rest. onward (spec.read_group prefixes.now places.Outer depth rest) (λ g rest. Got (record { distinct = distinct; vars = option_map (λ v. v.items) vars; group = g }) rest))) }
{
    match optional_word(Word::Where, left) {
        Ok(_) => {}
        Err(stop) => return give_up(vars, stop),
    }
    match group(alloc, prefixes, Place::Outer, depth, left) {
        Ok(elements) => Ok(WrittenQuery {
            distinct,
            vars,
            elements,
        }),
        Err(stop) => give_up(vars, stop),
    }
}

/// The query after the declarations.
#[tactic(auto, unfolding(bye_grammar::specs::Reading::read_selection))]
fn selection(
    alloc: Global,
    prefixes: &Prefixes,
    depth: u8,
    left: &mut Left<'_>,
) -> Result<WrittenQuery, Stop>
    ensures { ToldAs written_of result left.new (spec.read_selection prefixes.now depth left.old) }
{
    left.take_word(Word::Select)?;
    let distinct = optional_word(Word::Distinct, left)?;
    let vars = selected(alloc, left)?;
    selection_of(alloc, prefixes, depth, distinct.is_some(), vars, left)
}

/// A document, in which so many brackets may be open in one another.
#[tactic(auto, unfolding(bye_grammar::specs::Reading::read_document))]
pub fn document(alloc: Global, depth: u8, left: &mut Left<'_>) -> Result<WrittenQuery, Stop>
    ensures { ToldAs written_of result left.new (spec.read_document depth left.old) }
{
    let declared = declarations(alloc, left)?;
    let prefixes = Prefixes::new(alloc, declared)?;
    let query = selection(alloc, &prefixes, depth, left);
    drop(prefixes);
    query
}
