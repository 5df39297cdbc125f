//! All that some rows have in common.

ghost use Rattle.std.specs.Prelude.{◌≡◌, ◌<◌, [], IfOk, length, map};
ghost use Rattle.std.specs.List.{AllByRecursion};
ghost use Rattle.bye_terms.specs.Members.{EachOnce};
ghost use Rattle.bye_terms.specs.Terms.{IsTriple};
ghost use Rattle.bye_table.specs.Mappings.{row_mapping};
ghost use Rattle.bye_pattern.specs.Nodes.{tree_of};
ghost use Rattle.bye_pattern.specs.Trees.{leaf, node};
ghost use Rattle.bye_pattern.specs.TrialOrder.{IsInStrictOrder};
ghost use Rattle.bye_graph.specs.Graphs.{statements};
ghost use Rattle.bye_strongest.specs.Strongest.{IsStrongestTree, AreCommon};

use crate::candidates::candidates;
use crate::conditions::common_conditions;
use crate::fewest::fewest;
use crate::numbers::number_rows;
use crate::patterns::patterns;
use crate::ranked::in_trial_order;
use crate::restrictions::common_shapes;
use bye_graph::{Graph, Steps};
use bye_pattern::{Cond, Level, Node, TriplePattern};
use bye_table::Row;
use bye_terms::{Memory, Var};
use sqlite_items::Items;
use std::alloc::Global;
use std::marker::Brand;
use std::sync::ledger::{Blank, Ledger};

/// The node of these triple patterns and conditions.
fn node_of(alloc: Global, triples: Vec<TriplePattern>, conds: Vec<Cond>) -> Node
    ensures { tree_of result ≡ node triples.items conds.items leaf }
{
    Node {
        triples: Items::from_vec(triples),
        conds: Items::from_vec(conds),
        children: Items::new(alloc),
    }
}

/// The triple patterns that hold in all rows, in the order in which they are tried.
fn common_patterns<L: Ledger>(
    alloc: Global,
    graph: &Graph,
    vars: &[Var],
    rows: &[Row],
    blank: Blank,
) -> Result<Vec<TriplePattern>, Memory>
    requires rows { 0 < length rows.now }
    requires name { blank.name ≡ L.name }
    requires parts { blank.parts ≡ L.parts }
    requires some { 0 < blank.parts }
    ensures common { IfOk result (λ v. AllByRecursion IsTriple (statements graph.now) → AreCommon (statements graph.now) vars.now (map row_mapping rows.now) v.items) }
    ensures sorted { IfOk result (λ v. IsInStrictOrder v.items) }
{
    // Each term of a graph has one number.
    let _count = graph.terms();
    let mut steps = Steps::<L>::open(blank);
    let numbered = number_rows(alloc, graph, vars, rows)?;
    let row = fewest(alloc, graph, numbered.as_slice(), &mut steps)?;
    let shapes = candidates(alloc, graph, row, &mut steps)?;
    let common = common_shapes(alloc, graph, numbered.as_slice(), shapes, &mut steps)?;
    let patterns = patterns(alloc, graph, vars, common.as_slice())?;
    let triples = in_trial_order(alloc, patterns)?;
    Ok(triples)
}

/// The node of all triple patterns over these variables that hold in all these rows, and of all conditions of the level over
/// them, both in the order in which they are tried. There is one row at least, and no variable stands twice.
pub fn strongest(
    alloc: Global,
    graph: &Graph,
    level: Level,
    vars: &[Var],
    rows: &[Row],
) -> Result<Node, Memory>
    requires rows { 0 < length rows.now }
    requires once { EachOnce vars.now }
    ensures { IfOk result (λ n. AllByRecursion IsTriple (statements graph.now) → IsStrongestTree level (statements graph.now) vars.now (map row_mapping rows.now) (tree_of n)) }
{
    let triples = common_patterns::<Brand>(alloc, graph, vars, rows, Blank::new(1))?;
    let conds = common_conditions(alloc, &level, vars, rows, &rows[0])?;
    Ok(node_of(alloc, triples, conds))
}
