//! The triple patterns that become a triple of the graph under one row, from the triples that stand around its terms.

ghost use Rattle.std.specs.Prelude.{◌≡◌, ◌++◌, ◌∷◌, [], ◌⊎◌, ◌↔◌, ◌||◌, ℕ, Contains, IfOk, IsTrue, OnOk, Some, option_map, slice_get, true, false};
ghost use Rattle.std.specs.List.{flat_map};
ghost use Rattle.bye_terms.specs.Members.{In};
ghost use Rattle.bye_terms.specs.Terms.{is_blank};
ghost use Rattle.bye_strongest.specs.Candidates as spec;
ghost use Rattle.bye_strongest.specs.Numbers.{Shape};

use crate::numbers::Numbers;
use crate::shape::{Place, Shape};
use bye_graph::{Found, Graph, Steps};
use bye_terms::{Memory, Term, push_item};
use std::alloc::Global;
use std::sync::ledger::Ledger;

/// The term of a number, where it is used.
pub fn term_at(graph: &Graph, number: u32) -> Option<&Term>
    ensures { option_map (λ t. t.now) result ≡ slice_get graph.now.terms number }
{
    if number < graph.terms() {
        Some(graph.term(number))
    } else {
        None
    }
}

fn is_blank(term: &Term) -> bool
    ensures { result ≡ is_blank term.now }
{
    matches!(term, Term::Blank(_))
}

fn push_constant(out: &mut Vec<Place>, graph: &Graph, number: u32) -> Result<(), Memory>
    ensures { OnOk result (out.new.items ≡ out.old.items ++ spec.named number (slice_get graph.now.terms number)) }
{
    match term_at(graph, number) {
        Some(term) if !is_blank(term) => push_item(out, Place::Fixed(number)),
        _ => Ok(()),
    }
}

fn has_number(cell: Option<u32>, number: u32) -> bool
    ensures { result ≡ spec.is_number cell number }
{
    match cell {
        Some(other) => other == number,
        None => false,
    }
}

fn push_hole(out: &mut Vec<Place>, i: usize, cell: Option<u32>, number: u32) -> Result<(), Memory>
    ensures { OnOk result (out.new.items ≡ out.old.items ++ spec.hole i cell number) }
{
    if has_number(cell, number) {
        push_item(out, Place::Hole(i))
    } else {
        Ok(())
    }
}

fn push_holes(out: &mut Vec<Place>, cells: &[Option<u32>], number: u32) -> Result<(), Memory>
    ensures { OnOk result (out.new.items ≡ out.old.items ++ spec.holes 0 cells.now number) }
{
    for (i, cell) in cells.iter().enumerate() {
        push_hole(out, i, *cell, number)?;
    }
    Ok(())
}

/// What may stand in a pattern where the triple has this number.
#[tactic(auto, unfolding(crate::specs::Candidates::places))]
fn places(alloc: Global, graph: &Graph, row: &Numbers, number: u32) -> Result<Vec<Place>, Memory>
    ensures { IfOk result (λ v. v.items ≡ spec.places graph.now.terms row.now number) }
{
    let mut out = Vec::new(alloc);
    push_constant(&mut out, graph, number)?;
    push_holes(&mut out, row.as_slice(), number)?;
    Ok(out)
}

fn is_hole(place: Place) -> bool
    ensures { result ≡ spec.is_hole place }
{
    matches!(place, Place::Hole(_))
}

fn push_shape(out: &mut Vec<Shape>, s: Place, p: Place, o: Place) -> Result<(), Memory>
    ensures { OnOk result (out.new.items ≡ out.old.items ++ spec.offered s p o) }
{
    if is_hole(s) || is_hole(p) || is_hole(o) {
        push_item(out, Shape { s, p, o })
    } else {
        Ok(())
    }
}

fn push_objects(out: &mut Vec<Shape>, os: &[Place], s: Place, p: Place) -> Result<(), Memory>
    ensures { OnOk result (out.new.items ≡ out.old.items ++ spec.with_objects os.now s p) }
{
    for o in os {
        push_shape(out, s, p, *o)?;
    }
    Ok(())
}

fn push_predicates(out: &mut Vec<Shape>, ps: &[Place], os: &[Place], s: Place) -> Result<(), Memory>
    ensures { OnOk result (out.new.items ≡ out.old.items ++ spec.with_predicates ps.now os.now s) }
{
    for p in ps {
        push_objects(out, os, s, *p)?;
    }
    Ok(())
}

fn push_subjects(
    out: &mut Vec<Shape>,
    ss: &[Place],
    ps: &[Place],
    os: &[Place],
) -> Result<(), Memory>
    ensures { OnOk result (out.new.items ≡ out.old.items ++ spec.with_subjects ss.now ps.now os.now) }
{
    for s in ss {
        push_predicates(out, ps, os, *s)?;
    }
    Ok(())
}

#[tactic(auto, unfolding(crate::specs::Candidates::of_key))]
fn push_key(
    alloc: Global,
    out: &mut Vec<Shape>,
    graph: &Graph,
    row: &Numbers,
    key: (u32, u32, u32),
) -> Result<(), Memory>
    ensures { OnOk result (out.new.items ≡ out.old.items ++ spec.of_key graph.now.terms row.now key) }
{
    let ss = places(alloc, graph, row, key.0)?;
    let ps = places(alloc, graph, row, key.1)?;
    let os = places(alloc, graph, row, key.2)?;
    push_subjects(out, ss.as_slice(), ps.as_slice(), os.as_slice())
}

fn push_found<L: Ledger>(
    alloc: Global,
    out: &mut Vec<Shape>,
    graph: &Graph,
    row: &Numbers,
    mut found: Found<'_>,
    steps: &mut Steps<L>,
) -> Result<(), Memory>
    ensures { OnOk result (out.new.items ≡ out.old.items ++ flat_map (spec.of_key graph.now.terms row.now) found.entry) }
{
    while let Some(key) = found.next_counted(steps) {
        push_key(alloc, out, graph, row, key)?;
    }
    Ok(())
}

/// Puts the shapes of the triples that have the number at the end.
fn push_around<L: Ledger>(
    alloc: Global,
    out: &mut Vec<Shape>,
    graph: &Graph,
    row: &Numbers,
    number: u32,
    steps: &mut Steps<L>,
) -> Result<(), Memory>
    ensures { OnOk result ((shape : Shape) → In out.new.items shape ↔ (In out.old.items shape ⊎ spec.IsAround graph.now row.now number shape)) }
{
    let as_subject = graph.find(Some(number), None, None, steps);
    push_found(alloc, out, graph, row, as_subject, steps)?;
    let as_predicate = graph.find(None, Some(number), None, steps);
    push_found(alloc, out, graph, row, as_predicate, steps)?;
    let as_object = graph.find(None, None, Some(number), steps);
    push_found(alloc, out, graph, row, as_object, steps)?;
    Ok(())
}

fn is_listed(numbers: &[u32], number: u32) -> bool
    ensures { IsTrue result ↔ Contains numbers.now number }
{
    numbers.iter().any(|other| *other == number)
}

/// Puts the number at the end, where there is one that is not among them.
fn push_new(out: &mut Vec<u32>, cell: Option<u32>) -> Result<(), Memory>
    ensures { OnOk result ((n : ℕ) → In out.new.items n ↔ (In out.old.items n ⊎ (cell ≡ Some n))) }
{
    let Some(number) = cell else {
        return Ok(());
    };
    if is_listed(out.as_slice(), number) {
        return Ok(());
    }
    push_item(out, number)?;
    Ok(())
}

/// The numbers of the row, each once.
pub fn distinct(alloc: Global, row: &Numbers) -> Result<Vec<u32>, Memory>
    ensures { IfOk result (λ v. (n : ℕ) → In v.items n ↔ In row.now (Some n)) }
{
    let mut out = Vec::new(alloc);
    for cell in row.as_slice() {
        push_new(&mut out, *cell)?;
    }
    Ok(out)
}

/// The shapes with a variable and no blank constant that become a triple of the graph under the row.
pub fn candidates<L: Ledger>(
    alloc: Global,
    graph: &Graph,
    row: &Numbers,
    steps: &mut Steps<L>,
) -> Result<Vec<Shape>, Memory>
    ensures { IfOk result (λ v. (shape : Shape) → In v.items shape ↔ spec.IsCandidate graph.now row.now shape) }
{
    let mut out = Vec::new(alloc);
    for number in distinct(alloc, row)? {
        push_around(alloc, &mut out, graph, row, number, steps)?;
    }
    Ok(out)
}
