ghost use Rattle.std.specs.Prelude.{◌≡◌, IfOk, MatchOption, map};
ghost use Rattle.bye_terms.specs.Members.{In};
ghost use Rattle.bye_table.specs.Mappings.{row_mapping};
ghost use Rattle.bye_node.specs.Steps as spec;

use crate::env::{Place, Shape};
use crate::view::{View, row_value};
use bye_graph::Graph;
use bye_pattern::{Slot, TriplePattern};
use bye_terms::{Memory, Term, push_item};
use std::alloc::Global;

/// The place of a term. None where it has no number.
fn fixed(graph: &Graph, term: &Term) -> Option<Place>
    ensures { MatchOption result (In graph.now.terms term.now → ⊥) (λ place. spec.IsFixed graph.now.terms term.now place) }
{
    // Each term of a graph stands in a triple.
    let _count = graph.terms();
    let number = graph.id_of(term)?;
    Some(Place::Fixed(number))
}

/// The place by numbers. None where no number is there.
fn place<'a, 'n>(view: View<'a, 'n>, slot: &'n Slot) -> Option<Place>
    ensures { MatchOption result (spec.IsLost view.entry.names.now view.entry.graph.now.terms (spec.slot_in (row_mapping view.entry.row.now) slot.now)) (λ place. spec.IsPlace view.entry.names.now view.entry.graph.now.terms (spec.slot_in (row_mapping view.entry.row.now) slot.now) place) }
{
    match slot {
        Slot::Const(constant) => fixed(view.graph, constant.term()),
        Slot::Var(var) => match row_value(view.row, var) {
            Some(term) => fixed(view.graph, term),
            None => {
                let number = view.names.position(var)?;
                Some(Place::Hole(number))
            }
        },
    }
}

/// The pattern by numbers. None where a place has none.
fn shape<'a, 'n>(view: View<'a, 'n>, pattern: &'n TriplePattern) -> Option<Shape>
    ensures { MatchOption result (spec.IsLostShape view.entry.names.now view.entry.graph.now.terms (spec.pattern_in (row_mapping view.entry.row.now) pattern.now)) (λ shape. spec.IsShape view.entry.names.now view.entry.graph.now.terms (spec.pattern_in (row_mapping view.entry.row.now) pattern.now) shape) }
{
    let s = place(view, pattern.s())?;
    let p = place(view, pattern.p())?;
    let o = place(view, pattern.o())?;
    Some(Shape { s, p, o })
}

/// The patterns by numbers, with the terms of the row as constants. None where a place has no number.
pub fn shapes<'a, 'n>(
    alloc: Global,
    view: View<'a, 'n>,
    patterns: &'n [TriplePattern],
) -> Result<Option<Vec<Shape>>, Memory>
    ensures { IfOk result (λ o. MatchOption o (spec.HasLost view.entry.names.now view.entry.graph.now.terms (map (spec.pattern_in (row_mapping view.entry.row.now)) patterns.now)) (λ shapes. spec.AreShapes view.entry.names.now view.entry.graph.now.terms (map (spec.pattern_in (row_mapping view.entry.row.now)) patterns.now) shapes.items)) }
{
    let mut shapes = Vec::with_capacity(alloc, patterns.len())?;
    for pattern in patterns {
        match shape(view, pattern) {
            Some(shape) => push_item(&mut shapes, shape)?,
            None => return Ok(None),
        }
    }
    Ok(Some(shapes))
}
