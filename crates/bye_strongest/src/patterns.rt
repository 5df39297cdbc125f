//! Triple patterns from their numbers.

ghost use Rattle.std.specs.Prelude.{◌≡◌, ◌++◌, IfOk, OnOk, slice_get};
ghost use Rattle.std.specs.List.{flat_map};
ghost use Rattle.bye_strongest.specs.Patterns as spec;

use crate::candidates::term_at;
use crate::shape::{Place, Shape};
use bye_graph::Graph;
use bye_pattern::{Constant, Slot, TriplePattern};
use bye_terms::{Memory, Term, Var, push_item};
use std::alloc::Global;

fn var_slot(alloc: Global, var: &Var) -> Result<Slot, Memory>
    ensures { IfOk result (λ s. s ≡ spec.var var.now) }
{
    Ok(Slot::Var(var.copy(alloc)?))
}

/// The constant of a term that is no blank node.
fn constant_slot(alloc: Global, term: &Term) -> Result<Option<Slot>, Memory>
    ensures { IfOk result (λ o. o ≡ spec.constant term.now) }
{
    let constant = Constant::of_term(term.copy(alloc)?);
    Ok(constant.map(Slot::Const))
}

/// What stands in the place. None where it is no variable of these and no term of the graph but a blank node.
fn slot(alloc: Global, graph: &Graph, vars: &[Var], place: Place) -> Result<Option<Slot>, Memory>
    ensures { IfOk result (λ o. o ≡ spec.slot_of vars.now graph.now.terms place) }
{
    match place {
        Place::Hole(i) => match vars.get(i) {
            Some(var) => Ok(Some(var_slot(alloc, var)?)),
            None => Ok(None),
        },
        Place::Fixed(number) => match term_at(graph, number) {
            Some(term) => constant_slot(alloc, term),
            None => Ok(None),
        },
    }
}

/// The pattern of a shape. None where a place has nothing, or its subject or predicate is a constant but no IRI.
fn pattern(
    alloc: Global,
    graph: &Graph,
    vars: &[Var],
    shape: Shape,
) -> Result<Option<TriplePattern>, Memory>
    ensures { IfOk result (λ o. o ≡ spec.pattern_of vars.now graph.now.terms shape) }
{
    let Some(s) = slot(alloc, graph, vars, shape.s)? else {
        return Ok(None);
    };
    let Some(p) = slot(alloc, graph, vars, shape.p)? else {
        return Ok(None);
    };
    let Some(o) = slot(alloc, graph, vars, shape.o)? else {
        return Ok(None);
    };
    Ok(TriplePattern::of_slots(s, p, o))
}

fn push_pattern(
    alloc: Global,
    out: &mut Vec<TriplePattern>,
    graph: &Graph,
    vars: &[Var],
    shape: Shape,
) -> Result<(), Memory>
    ensures { OnOk result (out.new.items ≡ out.old.items ++ spec.patterns_of vars.now graph.now.terms shape) }
{
    match pattern(alloc, graph, vars, shape)? {
        Some(pattern) => push_item(out, pattern),
        None => Ok(()),
    }
}

/// The patterns of the shapes.
pub fn patterns(
    alloc: Global,
    graph: &Graph,
    vars: &[Var],
    shapes: &[Shape],
) -> Result<Vec<TriplePattern>, Memory>
    ensures { IfOk result (λ v. v.items ≡ flat_map (spec.patterns_of vars.now graph.now.terms) shapes.now) }
{
    let mut out = Vec::new(alloc);
    for shape in shapes {
        push_pattern(alloc, &mut out, graph, vars, *shape)?;
    }
    Ok(out)
}
