//! The row around whose terms the fewest triples stand.

ghost use Rattle.std.specs.Prelude.{◌<◌, IfOk, length};
ghost use Rattle.bye_terms.specs.Members.{In};

use crate::candidates::distinct;
use crate::numbers::Numbers;
use bye_graph::{Graph, Steps};
use bye_terms::Memory;
use std::alloc::Global;
use std::sync::ledger::Ledger;

/// How many triples have the number as subject, predicate and object, taken together.
fn triples_of<L: Ledger>(graph: &Graph, number: u32, steps: &mut Steps<L>) -> usize {
    let as_subject = graph.count(Some(number), None, None, steps);
    let as_predicate = graph.count(None, Some(number), None, steps);
    let as_object = graph.count(None, None, Some(number), steps);
    as_subject
        .saturating_add(as_predicate)
        .saturating_add(as_object)
}

/// How many triples stand around the terms of the row. Counting ends where they are as many as the bound.
fn triples_around<L: Ledger>(
    alloc: Global,
    graph: &Graph,
    row: &Numbers,
    bound: usize,
    steps: &mut Steps<L>,
) -> Result<usize, Memory> {
    let mut count = 0usize;
    for number in distinct(alloc, row)? {
        count = count.saturating_add(triples_of(graph, number, steps));
        if count >= bound {
            return Ok(bound);
        }
    }
    Ok(count)
}

/// The first of the rows around whose terms the fewest triples stand.
pub fn fewest<'a, L: Ledger>(
    alloc: Global,
    graph: &Graph,
    rows: &'a [Numbers],
    steps: &mut Steps<L>,
) -> Result<&'a Numbers, Memory>
    requires { 0 < length rows.now }
    ensures { IfOk result (λ row. In rows.now row.now) }
{
    let mut best = &rows[0];
    let mut least = usize::MAX;
    for row in rows {
        let count = triples_around(alloc, graph, row, least, steps)?;
        if count < least {
            best = row;
            least = count;
        }
    }
    Ok(best)
}
