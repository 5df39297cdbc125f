//! Readers of groups (SPARQL 1.1 Query, sections 5.2 and 6).

ghost use Rattle.std.specs.Prelude.{◌≡◌, ◌++◌, ◌∷◌, [], IfOk, map};
ghost use Rattle.std.specs.List.{flat_map};
ghost use Rattle.std.specs.Option.{option_map};
ghost use Rattle.bye_parts.specs.Readers.{Got, onward, read_either, read_optional, read_repeated};
ghost use Rattle.bye_pattern.specs.Written as written;
ghost use Rattle.bye_grammar.specs.Reading as spec;
ghost use Rattle.bye_grammar.specs.TokenKinds.{of, a_sign, a_word, subjects, elements as element_kinds};
ghost use Rattle.bye_grammar.specs.Values.{block_of};
ghost use Rattle.bye_grammar.specs.declared.place.Place.TheVariants as places;
ghost use Rattle.bye_tokens.specs.declared.sign.Sign.TheVariants as signs;
ghost use Rattle.bye_tokens.specs.declared.word.Word.TheVariants as words;
ghost use Rattle.bye_descent.specs.Told.{Told, ToldAs};
ghost use Rattle.bye_tree.specs.Exprs.{expr_of};
ghost use Rattle.bye_tree.specs.Written.{element_of, elements_of};

use crate::filter::primary;
use crate::left::Left;
use crate::prefixes::Prefixes;
use crate::stop::{Stop, give_up};
use crate::triples::{append, block};
use bye_grammar::Place;
use bye_pattern::TriplePattern;
use bye_terms::{Memory, push_item};
use bye_tokens::{Sign, Word};
use bye_tree::{Element, Expr};
use std::alloc::Global;

fn block_element(triples: Vec<TriplePattern>) -> Element
    ensures { element_of result ≡ written.Block triples.items }
{
    Element::Block(triples)
}

fn optional_element(elements: Vec<Element>) -> Element
    ensures { element_of result ≡ written.Optional (elements_of elements.items) }
{
    Element::Optional(elements)
}

fn filter_element(e: Expr) -> Element
    ensures { element_of result ≡ written.Filter (expr_of e) }
{
    Element::Filter(e)
}

fn optional_dot(left: &mut Left<'_>) -> Result<Option<()>, Stop>
    ensures { Told result left.new (read_optional (of (a_sign signs.Dot)) (spec.read_sign signs.Dot) left.old) }
{
    if left.begins_with_sign(Sign::Dot) {
        left.take_sign(Sign::Dot)?;
        return Ok(Some(()));
    }
    Ok(None)
}

fn optional_block(
    alloc: Global,
    prefixes: &Prefixes,
    left: &mut Left<'_>,
) -> Result<Option<Vec<TriplePattern>>, Stop>
    ensures { ToldAs (option_map (λ v. v.items)) result left.new (read_optional (of subjects) (spec.read_block prefixes.now) left.old) }
{
    if left.begins_with_subject() {
        let triples = block(alloc, prefixes, left)?;
        return Ok(Some(triples));
    }
    Ok(None)
}

/// The block as the only element, where there is one.
fn block_alone(alloc: Global, triples: Option<Vec<TriplePattern>>) -> Result<Vec<Element>, Memory>
    ensures { IfOk result (λ v. map element_of v.items ≡ block_of (option_map (λ v. v.items) triples)) }
{
    let mut all = Vec::new(alloc);
    match triples {
        None => Ok(all),
        Some(triples) => {
            push_item(&mut all, block_element(triples))?;
            Ok(all)
        }
    }
}

/// An element, and the block after it, where there is one.
fn with_block(
    alloc: Global,
    e: Element,
    triples: Option<Vec<TriplePattern>>,
) -> Result<Vec<Element>, Memory>
    ensures { IfOk result (λ v. map element_of v.items ≡ element_of e ∷ block_of (option_map (λ v. v.items) triples)) }
{
    let mut all = Vec::new(alloc);
    push_item(&mut all, e)?;
    match triples {
        None => Ok(all),
        Some(triples) => {
            push_item(&mut all, block_element(triples))?;
            Ok(all)
        }
    }
}

fn after_element(
    alloc: Global,
    prefixes: &Prefixes,
    e: Element,
    left: &mut Left<'_>,
) -> Result<Vec<Element>, Stop>
    ensures { ToldAs (λ v. map element_of v.items) result left.new (spec.read_after_element prefixes.now (element_of e) left.old) }
{
    match optional_dot(left) {
        Ok(_) => {}
        Err(stop) => return give_up(e, stop),
    }
    match optional_block(alloc, prefixes, left) {
        Ok(triples) => Ok(with_block(alloc, e, triples)?),
        Err(stop) => give_up(e, stop),
    }
}

#[tactic(auto, unfolding(bye_grammar::specs::Reading::read_filter))]
fn filter(
    alloc: Global,
    prefixes: &Prefixes,
    place: Place,
    depth: u8,
    left: &mut Left<'_>,
) -> Result<Element, Stop>
    ensures { ToldAs element_of result left.new (spec.read_filter prefixes.now place depth left.old) }
{
    left.take_word(Word::Filter)?;
    let e = primary(alloc, prefixes, place, depth, left)?;
    Ok(filter_element(e))
}

/// The closing brace after a group's elements.
fn close_group(value: Vec<Element>, left: &mut Left<'_>) -> Result<Vec<Element>, Stop>
    ensures { Told result left.new (onward (spec.read_sign signs.CloseGroup left.old) (λ _ rest. Got value rest)) }
{
    match left.take_sign(Sign::CloseGroup) {
        Ok(()) => Ok(value),
        Err(stop) => give_up(value, stop),
    }
}

#[cycle(groups)]
fn one_element(
    alloc: Global,
    prefixes: &Prefixes,
    place: Place,
    depth: u8,
    left: &mut Left<'_>,
) -> Result<Element, Stop>
    ensures { ToldAs element_of result left.new (read_either (of (a_word words.Optional)) (spec.read_optional_group (spec.read_group prefixes.now places.Inner depth)) (spec.read_filter prefixes.now place depth) left.old) }
{
    if left.begins_with_word(Word::Optional) {
        left.take_word(Word::Optional)?;
        let elements = group(alloc, prefixes, Place::Inner, depth, left)?;
        return Ok(optional_element(elements));
    }
    filter(alloc, prefixes, place, depth, left)
}

#[cycle(groups)]
#[tactic(auto, unfolding(bye_grammar::specs::Reading::read_element))]
fn next_elements(
    alloc: Global,
    prefixes: &Prefixes,
    place: Place,
    depth: u8,
    left: &mut Left<'_>,
) -> Result<Vec<Element>, Stop>
    ensures { ToldAs (λ v. map element_of v.items) result left.new (spec.read_element prefixes.now (spec.read_optional_group (spec.read_group prefixes.now places.Inner depth)) (spec.read_filter prefixes.now place depth) left.old) }
{
    let e = one_element(alloc, prefixes, place, depth, left)?;
    after_element(alloc, prefixes, e, left)
}

#[cycle(groups)]
fn more_elements(
    alloc: Global,
    prefixes: &Prefixes,
    place: Place,
    depth: u8,
    first: Vec<Element>,
    left: &mut Left<'_>,
) -> Result<Vec<Element>, Stop>
    ensures { ToldAs (λ v. map element_of v.items) result left.new (onward (read_repeated (of element_kinds) (spec.read_element prefixes.now (spec.read_optional_group (spec.read_group prefixes.now places.Inner depth)) (spec.read_filter prefixes.now place depth)) left.old) (λ es rest. Got (map element_of first.items ++ flat_map (λ e. e) es) rest)) }
{
    let mut all = first;
    'rounds: while left.begins_with_element() {
        match next_elements(alloc, prefixes, place, depth, left) {
            Ok(more) => append(&mut all, more)?,
            Err(stop) => return give_up(all, stop),
        }
    }
    Ok(all)
}

#[cycle(groups)]
#[tactic(auto, using(crate::proofs::Joining::body_of), unfolding(bye_grammar::specs::Reading::read_body))]
fn body(
    alloc: Global,
    prefixes: &Prefixes,
    place: Place,
    depth: u8,
    left: &mut Left<'_>,
) -> Result<Vec<Element>, Stop>
    ensures { ToldAs (λ v. elements_of v.items) result left.new (spec.read_body prefixes.now (spec.read_optional_group (spec.read_group prefixes.now places.Inner depth)) (spec.read_filter prefixes.now place depth) left.old) }
{
    let triples = optional_block(alloc, prefixes, left)?;
    let first = block_alone(alloc, triples)?;
    more_elements(alloc, prefixes, place, depth, first, left)
}

/// A group, where so many more brackets may be open.
#[cycle(groups)]
#[tactic(auto, using(crate::proofs::Depths::group_some), unfolding(bye_grammar::specs::Reading::read_group))]
pub fn group(
    alloc: Global,
    prefixes: &Prefixes,
    place: Place,
    depth: u8,
    left: &mut Left<'_>,
) -> Result<Vec<Element>, Stop>
    ensures { ToldAs (λ v. elements_of v.items) result left.new (spec.read_group prefixes.now place depth left.old) }
{
    if depth == 0 {
        if left.begins_with_sign(Sign::OpenGroup) {
            return Err(Stop::Deep);
        }
        return Err(Stop::Wrong);
    }
    left.take_sign(Sign::OpenGroup)?;
    let all = body(alloc, prefixes, place, depth - 1, left)?;
    close_group(all, left)
}
