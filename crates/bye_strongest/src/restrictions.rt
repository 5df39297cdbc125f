//! The distinct restrictions of rows to the variables of a triple pattern, and whether it holds in them.

ghost use Rattle.std.specs.Prelude.{◌≡◌, ◌↔◌, IfOk, IsTrue, map};
ghost use Rattle.std.specs.List.{AllByRecursion};
ghost use Rattle.bye_terms.specs.Members.{In};
ghost use Rattle.bye_strongest.specs.Numbers.{Cells, MeetsEach, Shape};
ghost use Rattle.bye_strongest.specs.Restrictions as spec;

use crate::numbers::Numbers;
use crate::shape::{Place, Shape};
use bye_graph::{Graph, Steps};
use bye_terms::{Memory, push_item};
use std::alloc::Global;
use std::cmp::Ordering;
use std::sync::ledger::Ledger;

/// Which variable stands in each place of a triple pattern, where one does.
#[derive(Clone, Copy, Debug, Drop, PartialEq, Eq, PartialOrd, Ord)]
pub struct Columns {
    pub s: Option<usize>,
    pub p: Option<usize>,
    pub o: Option<usize>,
}

/// The numbers that a row has for these variables.
#[derive(Clone, Copy, Debug, Drop, PartialEq, Eq, PartialOrd, Ord)]
pub struct Restriction {
    pub s: Option<u32>,
    pub p: Option<u32>,
    pub o: Option<u32>,
}

/// Some variables, and the distinct restrictions of the rows to them.
#[derive(Debug, Drop)]
pub struct Group {
    pub columns: Columns,
    pub restrictions: Vec<Restriction>,
}

fn hole_of(place: Place) -> Option<usize>
    ensures { result ≡ spec.hole_of place }
{
    match place {
        Place::Hole(i) => Some(i),
        Place::Fixed(_) => None,
    }
}

fn columns_of(shape: Shape) -> Columns
    ensures { result ≡ spec.columns_of shape }
{
    Columns {
        s: hole_of(shape.s),
        p: hole_of(shape.p),
        o: hole_of(shape.o),
    }
}

fn number_at(row: &Numbers, column: Option<usize>) -> Option<u32>
    ensures { result ≡ spec.number_at row.now column }
{
    match column {
        Some(i) => row.cell(i),
        None => None,
    }
}

fn restrict(columns: Columns, row: &Numbers) -> Restriction
    ensures { result ≡ spec.restrict columns row.now }
{
    Restriction {
        s: number_at(row, columns.s),
        p: number_at(row, columns.p),
        o: number_at(row, columns.o),
    }
}

/// The restrictions, each once.
fn each_once(mut restrictions: Vec<Restriction>) -> Vec<Restriction>
    ensures { (r : spec.Restriction) → In result.items r ↔ In restrictions.items r }
{
    restrictions.sort_unstable();
    restrictions.dedup();
    restrictions
}

fn restrictions(
    alloc: Global,
    columns: Columns,
    rows: &[Numbers],
) -> Result<Vec<Restriction>, Memory>
    ensures { IfOk result (λ v. (r : spec.Restriction) → In v.items r ↔ In (map (spec.restrict columns) rows.now) r) }
{
    let mut out = Vec::with_capacity(alloc, rows.len())?;
    for row in rows {
        push_item(&mut out, restrict(columns, row))?;
    }
    Ok(each_once(out))
}

impl Group {
    /// The group of these variables.
    fn of_columns(alloc: Global, columns: Columns, rows: &[Numbers]) -> Result<Group, Memory>
        ensures { IfOk result (λ g. spec.IsGroupOf columns rows.now g) }
    {
        let restrictions = restrictions(alloc, columns, rows)?;
        Ok(Group {
            columns,
            restrictions,
        })
    }

    /// The group of these variables, which may be this one.
    fn or_columns(self, alloc: Global, columns: Columns, rows: &[Numbers]) -> Result<Group, Memory>
        requires { spec.IsGroup rows.now self }
        ensures { IfOk result (λ g. spec.IsGroupOf columns rows.now g) }
    {
        if self.columns == columns {
            Ok(self)
        } else {
            Group::of_columns(alloc, columns, rows)
        }
    }
}

/// The number that stands in the place, which is this one where the place is a variable.
fn filled(number: Option<u32>, place: Place) -> Option<u32>
    ensures { result ≡ spec.filled number place }
{
    match place {
        Place::Hole(_) => number,
        Place::Fixed(number) => Some(number),
    }
}

/// Whether the shape under the restriction is a triple of the graph.
fn meets<L: Ledger>(
    graph: &Graph,
    shape: Shape,
    restriction: Restriction,
    steps: &mut Steps<L>,
) -> bool
    ensures { IsTrue result ↔ spec.MeetsRestriction graph.now.keys shape restriction }
{
    let Some(s) = filled(restriction.s, shape.s) else {
        return false;
    };
    let Some(p) = filled(restriction.p, shape.p) else {
        return false;
    };
    let Some(o) = filled(restriction.o, shape.o) else {
        return false;
    };
    graph.has(s, p, o, steps)
}

/// Whether it is one under each of them.
fn meets_all<L: Ledger>(
    graph: &Graph,
    shape: Shape,
    restrictions: &[Restriction],
    steps: &mut Steps<L>,
) -> bool
    ensures { IsTrue result ↔ AllByRecursion (spec.MeetsRestriction graph.now.keys shape) restrictions.now }
{
    for restriction in restrictions {
        if !meets(graph, shape, *restriction, steps) {
            return false;
        }
    }
    true
}

fn by_columns(one: &Shape, other: &Shape) -> Ordering {
    columns_of(*one).cmp(&columns_of(*other))
}

/// The same shapes, those of the same variables one after the other.
fn grouped(mut shapes: Vec<Shape>) -> Vec<Shape>
    ensures { (shape : Shape) → In result.items shape ↔ In shapes.items shape }
{
    shapes.sort_unstable_by(by_columns);
    shapes
}

/// Those of the shapes that are triples of the graph under each row. Each is tried once for each distinct restriction of the rows
/// to its variables, up to the first that it fails.
pub fn common_shapes<L: Ledger>(
    alloc: Global,
    graph: &Graph,
    rows: &[Numbers],
    shapes: Vec<Shape>,
    steps: &mut Steps<L>,
) -> Result<Vec<Shape>, Memory>
    ensures { IfOk result (λ v. (shape : Shape) → In v.items shape ↔ (In shapes.items shape × MeetsEach graph.now.keys rows.now shape)) }
{
    let shapes = grouped(shapes);
    let none = Columns {
        s: None,
        p: None,
        o: None,
    };
    let mut group = Group::of_columns(alloc, none, rows)?;
    let mut out = Vec::new(alloc);
    for shape in shapes.as_slice() {
        group = group.or_columns(alloc, columns_of(*shape), rows)?;
        if meets_all(graph, *shape, group.restrictions.as_slice(), steps) {
            push_item(&mut out, *shape)?;
        }
    }
    Ok(out)
}
