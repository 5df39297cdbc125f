//! Readers of filters (SPARQL 1.1 Query, section 17).

ghost use Rattle.std.specs.Prelude.{◌≡◌, ◌∷◌, [], map};
ghost use Rattle.bye_parts.specs.Readers.{Got, onward, read_repeated};
ghost use Rattle.bye_grammar.specs.Fits as fits;
ghost use Rattle.bye_grammar.specs.Reading as spec;
ghost use Rattle.bye_grammar.specs.TokenKinds.{of, a_sign};
ghost use Rattle.bye_tokens.specs.declared.sign.Sign.TheVariants as signs;
ghost use Rattle.bye_descent.specs.Opening.{read_open};
ghost use Rattle.bye_descent.specs.Told.{Told, ToldAs};
ghost use Rattle.bye_tree.specs.Exprs.{expr_of};

use crate::exprs::{and, bound, kind_of, not, or};
use crate::left::Left;
use crate::prefixes::Prefixes;
use crate::singles::{kind_test, short_constant, variable};
use crate::stop::{Stop, give_up};
use crate::triples::{object, string};
use bye_grammar::Place;
use bye_pattern::Slot;
use bye_terms::push_item;
use bye_tokens::{Sign, Word};
use bye_tree::Expr;
use std::alloc::Global;

/// `!` or `||`, which stand in filters of the outermost group alone.
fn take_outer(place: Place, sign: Sign, left: &mut Left<'_>) -> Result<(), Stop>
    ensures { Told result left.new (spec.read_one (fits.outer_sign place sign) left.old) }
{
    match place {
        Place::Outer => left.take_sign(sign),
        Place::Inner => Err(Stop::Wrong),
    }
}

/// A bracket of this kind, where so many more may be open.
#[tactic(auto, using(crate::proofs::Depths::opens_some), unfolding(crate::specs::Opening::read_open))]
pub fn open(sign: Sign, depth: u8, left: &mut Left<'_>) -> Result<(), Stop>
    ensures { Told result left.new (read_open sign depth left.old) }
{
    if depth == 0 {
        if left.begins_with_sign(sign) {
            return Err(Stop::Deep);
        }
        return Err(Stop::Wrong);
    }
    left.take_sign(sign)
}

/// An IRI or a literal.
#[tactic(auto, unfolding(bye_grammar::specs::Reading::read_constant))]
fn constant(alloc: Global, prefixes: &Prefixes, left: &mut Left<'_>) -> Result<Slot, Stop>
    ensures { Told result left.new (spec.read_constant prefixes.now left.old) }
{
    if left.begins_with_string() {
        return string(alloc, prefixes, left);
    }
    short_constant(alloc, prefixes, left)
}

/// What a kind test is asked of, and `sameTerm` after a constant.
fn argument(
    alloc: Global,
    prefixes: &Prefixes,
    place: Place,
    left: &mut Left<'_>,
) -> Result<Slot, Stop>
    ensures { Told result left.new (spec.read_argument prefixes.now place left.old) }
{
    match place {
        Place::Outer => object(alloc, prefixes, left),
        Place::Inner => Ok(Slot::Var(variable(left)?)),
    }
}

/// What `sameTerm` is asked of.
#[tactic(auto, unfolding(bye_grammar::specs::Reading::read_arguments))]
fn arguments(
    alloc: Global,
    prefixes: &Prefixes,
    place: Place,
    left: &mut Left<'_>,
) -> Result<Expr, Stop>
    ensures { ToldAs expr_of result left.new (spec.read_arguments prefixes.now place left.old) }
{
    if left.begins_with_variable() {
        let v = variable(left)?;
        left.take_sign(Sign::Comma)?;
        let o = object(alloc, prefixes, left)?;
        return Ok(Expr::Same(Slot::Var(v), o));
    }
    let c = constant(alloc, prefixes, left)?;
    left.take_sign(Sign::Comma)?;
    let o = argument(alloc, prefixes, place, left)?;
    Ok(Expr::Same(c, o))
}

/// `bound`, `sameTerm`, or a kind test, where so many more brackets may be open.
#[tactic(auto, using(crate::proofs::Depths::call_of), unfolding(bye_grammar::specs::Reading::read_call))]
fn call(
    alloc: Global,
    prefixes: &Prefixes,
    place: Place,
    depth: u8,
    left: &mut Left<'_>,
) -> Result<Expr, Stop>
    ensures { ToldAs expr_of result left.new (spec.read_call prefixes.now place depth left.old) }
{
    if left.begins_with_word(Word::Bound) {
        left.take_word(Word::Bound)?;
        open(Sign::Open, depth, left)?;
        let v = variable(left)?;
        left.take_sign(Sign::Close)?;
        return Ok(bound(v));
    }
    if left.begins_with_word(Word::SameTerm) {
        left.take_word(Word::SameTerm)?;
        open(Sign::Open, depth, left)?;
        let e = arguments(alloc, prefixes, place, left)?;
        left.take_sign(Sign::Close)?;
        return Ok(e);
    }
    let kind = kind_test(left)?;
    open(Sign::Open, depth, left)?;
    let s = argument(alloc, prefixes, place, left)?;
    left.take_sign(Sign::Close)?;
    Ok(kind_of(kind, s))
}

/// The closing bracket after a value.
fn close<T: Drop>(value: T, left: &mut Left<'_>) -> Result<T, Stop>
    ensures { Told result left.new (onward (spec.read_sign signs.Close left.old) (λ _ rest. Got value rest)) }
{
    match left.take_sign(Sign::Close) {
        Ok(()) => Ok(value),
        Err(stop) => give_up(value, stop),
    }
}

#[cycle(filters)]
#[tactic(auto, unfolding(bye_grammar::specs::Reading::read_unary))]
fn unary(
    alloc: Global,
    prefixes: &Prefixes,
    place: Place,
    depth: u8,
    left: &mut Left<'_>,
) -> Result<Expr, Stop>
    ensures { ToldAs expr_of result left.new (spec.read_unary place (spec.read_primary prefixes.now place depth) left.old) }
{
    if left.begins_with_sign(Sign::Bang) {
        take_outer(place, Sign::Bang, left)?;
        let e = primary(alloc, prefixes, place, depth, left)?;
        return Ok(not(alloc, e)?);
    }
    primary(alloc, prefixes, place, depth, left)
}

#[cycle(filters)]
fn next_unary(
    alloc: Global,
    prefixes: &Prefixes,
    place: Place,
    depth: u8,
    left: &mut Left<'_>,
) -> Result<Expr, Stop>
    ensures { ToldAs expr_of result left.new (spec.read_next_unary place (spec.read_primary prefixes.now place depth) left.old) }
{
    left.take_sign(Sign::And)?;
    unary(alloc, prefixes, place, depth, left)
}

#[cycle(filters)]
fn more_unaries(
    alloc: Global,
    prefixes: &Prefixes,
    place: Place,
    depth: u8,
    left: &mut Left<'_>,
) -> Result<Vec<Expr>, Stop>
    ensures { ToldAs (λ v. map expr_of v.items) result left.new (read_repeated (of (a_sign signs.And)) (spec.read_next_unary place (spec.read_primary prefixes.now place depth)) left.old) }
{
    let mut all = Vec::new(alloc);
    'rounds: while left.begins_with_sign(Sign::And) {
        match next_unary(alloc, prefixes, place, depth, left) {
            Ok(e) => push_item(&mut all, e)?,
            Err(stop) => return give_up(all, stop),
        }
    }
    Ok(all)
}

#[cycle(filters)]
#[tactic(auto, unfolding(bye_grammar::specs::Reading::read_conjunction))]
fn conjunction(
    alloc: Global,
    prefixes: &Prefixes,
    place: Place,
    depth: u8,
    left: &mut Left<'_>,
) -> Result<Expr, Stop>
    ensures { ToldAs expr_of result left.new (spec.read_conjunction place (spec.read_primary prefixes.now place depth) left.old) }
{
    let first = unary(alloc, prefixes, place, depth, left)?;
    match more_unaries(alloc, prefixes, place, depth, left) {
        Ok(later) => Ok(and(alloc, first, later)?),
        Err(stop) => give_up(first, stop),
    }
}

#[cycle(filters)]
fn next_conjunction(
    alloc: Global,
    prefixes: &Prefixes,
    place: Place,
    depth: u8,
    left: &mut Left<'_>,
) -> Result<Expr, Stop>
    ensures { ToldAs expr_of result left.new (spec.read_next_conjunction place (spec.read_primary prefixes.now place depth) left.old) }
{
    take_outer(place, Sign::Or, left)?;
    conjunction(alloc, prefixes, place, depth, left)
}

#[cycle(filters)]
fn more_conjunctions(
    alloc: Global,
    prefixes: &Prefixes,
    place: Place,
    depth: u8,
    left: &mut Left<'_>,
) -> Result<Vec<Expr>, Stop>
    ensures { ToldAs (λ v. map expr_of v.items) result left.new (read_repeated (of (a_sign signs.Or)) (spec.read_next_conjunction place (spec.read_primary prefixes.now place depth)) left.old) }
{
    let mut all = Vec::new(alloc);
    'rounds: while left.begins_with_sign(Sign::Or) {
        match next_conjunction(alloc, prefixes, place, depth, left) {
            Ok(e) => push_item(&mut all, e)?,
            Err(stop) => return give_up(all, stop),
        }
    }
    Ok(all)
}

#[cycle(filters)]
#[tactic(auto, unfolding(bye_grammar::specs::Reading::read_disjunction))]
fn disjunction(
    alloc: Global,
    prefixes: &Prefixes,
    place: Place,
    depth: u8,
    left: &mut Left<'_>,
) -> Result<Expr, Stop>
    ensures { ToldAs expr_of result left.new (spec.read_disjunction place (spec.read_primary prefixes.now place depth) left.old) }
{
    let first = conjunction(alloc, prefixes, place, depth, left)?;
    match more_conjunctions(alloc, prefixes, place, depth, left) {
        Ok(later) => Ok(or(alloc, first, later)?),
        Err(stop) => give_up(first, stop),
    }
}

/// An expression in brackets, or a call, where so many more brackets may be open.
#[cycle(filters)]
#[tactic(auto, using(crate::proofs::Depths::primary_some), unfolding(bye_grammar::specs::Reading::read_primary))]
pub fn primary(
    alloc: Global,
    prefixes: &Prefixes,
    place: Place,
    depth: u8,
    left: &mut Left<'_>,
) -> Result<Expr, Stop>
    ensures { ToldAs expr_of result left.new (spec.read_primary prefixes.now place depth left.old) }
{
    if left.begins_with_sign(Sign::Open) {
        if depth == 0 {
            return Err(Stop::Deep);
        }
        left.take_sign(Sign::Open)?;
        let e = disjunction(alloc, prefixes, place, depth - 1, left)?;
        return close(e, left);
    }
    call(alloc, prefixes, place, depth, left)
}
