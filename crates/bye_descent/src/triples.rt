//! Readers of triple patterns (SPARQL 1.1 Query, section 4.2).

ghost use Rattle.std.specs.Prelude.{◌≡◌, ◌++◌, ◌∷◌, [], IfOk, OnOk, map, true, false};
ghost use Rattle.std.specs.List.{flat_map};
ghost use Rattle.bye_parts.specs.Readers.{Got, onward, read_repeated, read_trailing};
ghost use Rattle.bye_pattern.specs.Patterns.{is_place};
ghost use Rattle.bye_grammar.specs.Reading as spec;
ghost use Rattle.bye_grammar.specs.TokenKinds.{of, a_sign, subjects};
ghost use Rattle.bye_grammar.specs.Values.{pattern};
ghost use Rattle.bye_tokens.specs.declared.sign.Sign.TheVariants as signs;
ghost use Rattle.bye_descent.specs.Told.{Told, ToldAs};

use crate::left::Left;
use crate::prefixes::Prefixes;
use crate::singles::{datatype, quoted, short_object, subject, tag, verb};
use crate::slots::{plain, tagged, typed};
use crate::stop::Stop;
use bye_pattern::{Slot, TriplePattern};
use bye_terms::{Memory, Text, push_item};
use bye_tokens::Sign;
use std::alloc::Global;

/// A tag, or a datatype after its mark, of the string that was read.
#[tactic(auto, unfolding(bye_grammar::specs::Reading::read_suffix))]
fn suffix(alloc: Global, prefixes: &Prefixes, text: Text, left: &mut Left<'_>) -> Result<Slot, Stop>
    ensures { Told result left.new (spec.read_suffix prefixes.now text left.old) }
{
    if left.begins_with_tag() {
        let tag = tag(left)?;
        return Ok(tagged(alloc, text, tag)?);
    }
    left.take_sign(Sign::Carets)?;
    let datatype = datatype(alloc, prefixes, left)?;
    Ok(typed(text, datatype))
}

/// A string with its tag or datatype.
#[tactic(auto, unfolding(bye_grammar::specs::Reading::read_string))]
pub fn string(alloc: Global, prefixes: &Prefixes, left: &mut Left<'_>) -> Result<Slot, Stop>
    ensures { Told result left.new (spec.read_string prefixes.now left.old) }
{
    let text = quoted(left)?;
    if left.begins_with_suffix() {
        return suffix(alloc, prefixes, text, left);
    }
    Ok(plain(alloc, text)?)
}

/// A variable, an IRI or a literal.
#[tactic(auto, unfolding(bye_grammar::specs::Reading::read_object))]
pub fn object(alloc: Global, prefixes: &Prefixes, left: &mut Left<'_>) -> Result<Slot, Stop>
    ensures { Told result left.new (spec.read_object prefixes.now left.old) }
{
    if left.begins_with_string() {
        return string(alloc, prefixes, left);
    }
    short_object(alloc, prefixes, left)
}

fn next_object(alloc: Global, prefixes: &Prefixes, left: &mut Left<'_>) -> Result<Slot, Stop>
    ensures { Told result left.new (spec.read_next_object prefixes.now left.old) }
{
    left.take_sign(Sign::Comma)?;
    object(alloc, prefixes, left)
}

/// The triple pattern of copies of a subject and a predicate, and of an object.
fn triple(alloc: Global, s: &Slot, p: &Slot, o: Slot) -> Result<TriplePattern, Memory>
    requires subject { is_place s.now ≡ true }
    requires predicate { is_place p.now ≡ true }
    ensures { IfOk result (λ t. t ≡ pattern s.now p.now o) }
{
    match (s.copy(alloc), p.copy(alloc)) {
        (Ok(s), Ok(p)) => match TriplePattern::of_slots(s, p, o) {
            Some(triple) => Ok(triple),
            None => unreachable!(),
        },
        _ => Err(Memory),
    }
}

/// Adds the triple pattern of a subject, a predicate and an object.
fn push_triple(
    alloc: Global,
    s: &Slot,
    p: &Slot,
    o: Slot,
    all: &mut Vec<TriplePattern>,
) -> Result<(), Memory>
    requires subject { is_place s.now ≡ true }
    requires predicate { is_place p.now ≡ true }
    ensures { OnOk result (all.new.items ≡ all.old.items ++ pattern s.now p.now o ∷ []) }
{
    let triple = triple(alloc, s, p, o)?;
    push_item(all, triple)
}

/// The objects after a comma each, as triple patterns after the first one.
fn more_objects(
    alloc: Global,
    prefixes: &Prefixes,
    s: &Slot,
    p: &Slot,
    first: Vec<TriplePattern>,
    left: &mut Left<'_>,
) -> Result<Vec<TriplePattern>, Stop>
    requires subject { is_place s.now ≡ true }
    requires predicate { is_place p.now ≡ true }
    ensures { ToldAs (λ v. v.items) result left.new (onward (read_repeated (of (a_sign signs.Comma)) (spec.read_next_object prefixes.now) left.old) (λ os rest. Got (first.items ++ map (pattern s.now p.now) os) rest)) }
{
    let mut all = first;
    'rounds: while left.begins_with_sign(Sign::Comma) {
        match next_object(alloc, prefixes, left) {
            Ok(o) => push_triple(alloc, s, p, o, &mut all)?,
            Err(stop) => return Err(stop),
        }
    }
    Ok(all)
}

/// The triple patterns of a subject and a predicate, one for each object.
#[tactic(auto, unfolding(bye_grammar::specs::Reading::read_objects))]
fn objects(
    alloc: Global,
    prefixes: &Prefixes,
    s: &Slot,
    p: &Slot,
    left: &mut Left<'_>,
) -> Result<Vec<TriplePattern>, Stop>
    requires subject { is_place s.now ≡ true }
    requires predicate { is_place p.now ≡ true }
    ensures { ToldAs (λ v. v.items) result left.new (spec.read_objects prefixes.now s.now p.now left.old) }
{
    let o = object(alloc, prefixes, left)?;
    let mut first = Vec::new(alloc);
    push_triple(alloc, s, p, o, &mut first)?;
    more_objects(alloc, prefixes, s, p, first, left)
}

/// The triple patterns of a subject and of a verb with its objects.
#[tactic(auto, unfolding(bye_grammar::specs::Reading::read_property))]
fn property(
    alloc: Global,
    prefixes: &Prefixes,
    s: &Slot,
    left: &mut Left<'_>,
) -> Result<Vec<TriplePattern>, Stop>
    requires { is_place s.now ≡ true }
    ensures { ToldAs (λ v. v.items) result left.new (spec.read_property prefixes.now s.now left.old) }
{
    let p = verb(alloc, prefixes, left)?;
    let all = objects(alloc, prefixes, s, &p, left);
    drop(p);
    all
}

fn next_property(
    alloc: Global,
    prefixes: &Prefixes,
    s: &Slot,
    left: &mut Left<'_>,
) -> Result<Vec<TriplePattern>, Stop>
    requires { is_place s.now ≡ true }
    ensures { ToldAs (λ v. v.items) result left.new (spec.read_next_property prefixes.now s.now left.old) }
{
    left.take_sign(Sign::Semicolon)?;
    if left.begins_with_verb() {
        return property(alloc, prefixes, s, left);
    }
    Ok(Vec::new(alloc))
}

/// Puts items at the end of a list.
pub fn append<T: Drop>(all: &mut Vec<T>, more: Vec<T>) -> Result<(), Memory>
    ensures { OnOk result (all.new.items ≡ all.old.items ++ more.items) }
{
    'rounds: for item in more {
        push_item(all, item)?;
    }
    Ok(())
}

/// The verbs after a semicolon each, as triple patterns after the first ones.
fn more_properties(
    alloc: Global,
    prefixes: &Prefixes,
    s: &Slot,
    first: Vec<TriplePattern>,
    left: &mut Left<'_>,
) -> Result<Vec<TriplePattern>, Stop>
    requires { is_place s.now ≡ true }
    ensures { ToldAs (λ v. v.items) result left.new (onward (read_repeated (of (a_sign signs.Semicolon)) (spec.read_next_property prefixes.now s.now) left.old) (λ vs rest. Got (first.items ++ flat_map (λ qs. qs) vs) rest)) }
{
    let mut all = first;
    'rounds: while left.begins_with_sign(Sign::Semicolon) {
        match next_property(alloc, prefixes, s, left) {
            Ok(more) => append(&mut all, more)?,
            Err(stop) => return Err(stop),
        }
    }
    Ok(all)
}

/// The triple patterns of a subject.
fn properties(
    alloc: Global,
    prefixes: &Prefixes,
    s: &Slot,
    left: &mut Left<'_>,
) -> Result<Vec<TriplePattern>, Stop>
    requires { is_place s.now ≡ true }
    ensures { ToldAs (λ v. v.items) result left.new (spec.read_properties prefixes.now s.now left.old) }
{
    let first = property(alloc, prefixes, s, left)?;
    more_properties(alloc, prefixes, s, first, left)
}

/// A subject and its triple patterns.
#[tactic(auto, unfolding(bye_grammar::specs::Reading::read_same))]
fn same(alloc: Global, prefixes: &Prefixes, left: &mut Left<'_>) -> Result<Vec<TriplePattern>, Stop>
    ensures { ToldAs (λ v. v.items) result left.new (spec.read_same prefixes.now left.old) }
{
    let s = subject(alloc, prefixes, left)?;
    let all = properties(alloc, prefixes, &s, left);
    drop(s);
    all
}

/// The subjects after a dot each, as triple patterns after the first ones.
fn more_subjects(
    alloc: Global,
    prefixes: &Prefixes,
    first: Vec<TriplePattern>,
    left: &mut Left<'_>,
) -> Result<Vec<TriplePattern>, Stop>
    ensures { ToldAs (λ v. v.items) result left.new (onward (read_trailing (of (a_sign signs.Dot)) (of subjects) (spec.read_same prefixes.now) left.old) (λ vs rest. Got (first.items ++ flat_map (λ qs. qs) vs) rest)) }
{
    let mut all = first;
    'rounds: while left.begins_with_sign(Sign::Dot) {
        left.skip()?;
        if !left.begins_with_subject() {
            return Ok(all);
        }
        match same(alloc, prefixes, left) {
            Ok(more) => append(&mut all, more)?,
            Err(stop) => return Err(stop),
        }
    }
    Ok(all)
}

/// The triple patterns of a block.
#[tactic(auto, unfolding(bye_grammar::specs::Reading::read_block))]
pub fn block(
    alloc: Global,
    prefixes: &Prefixes,
    left: &mut Left<'_>,
) -> Result<Vec<TriplePattern>, Stop>
    ensures { ToldAs (λ v. v.items) result left.new (spec.read_block prefixes.now left.old) }
{
    let first = same(alloc, prefixes, left)?;
    more_subjects(alloc, prefixes, first, left)
}
