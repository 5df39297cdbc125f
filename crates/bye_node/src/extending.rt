ghost use Rattle.std.specs.Prelude.{◌≡◌, ◌<◌, ◌++◌, IfOk, MatchOption, OnOk, option_map};
ghost use Rattle.bye_terms.specs.Members.{EachOnce};
ghost use Rattle.bye_table.specs.Mappings.{row_mapping};
ghost use Rattle.bye_pattern.specs.Nodes.{tree_of};
ghost use Rattle.bye_pattern.specs.Patterns.{all_vars};
ghost use Rattle.bye_pattern.specs.declared.node.Node.{out-Node};
ghost use Rattle.bye_laws.specs.Reaching.{NoValues};
ghost use Rattle.bye_laws.specs.Values.{AreValues};
ghost use Rattle.bye_graph.specs.Graphs.{statements};
ghost use Rattle.bye_tree.specs.Names.{with_names};
ghost use Rattle.bye_node.specs.Steps as spec;

use crate::compile::shapes;
use crate::env::Env;
use crate::solution::first;
use crate::view::{View, cell_term};
use bye_graph::{Graph, Steps};
use bye_pattern::Node;
use bye_table::Row;
use bye_terms::{Memory, Term, Var, push_item};
use bye_tree::Names;
use std::alloc::Global;
use std::marker::Brand;
use std::sync::ledger::{Blank, Ledger};

/// The greatest number of triple patterns and groups that are searched at once: a search calls itself for each of them, so that the
/// stack bounds their number.
pub const MOST_DEEP: usize = 4096;

/// Puts a variable with its term at the end, where there is a term.
fn push_pair(
    alloc: Global,
    pairs: &mut Vec<(Var, Term)>,
    var: &Var,
    term: Option<&Term>,
) -> Result<(), Memory>
    ensures { OnOk result (pairs.new.items ≡ pairs.old.items ++ spec.pair var.now (option_map (λ t. t.now) term.entry)) }
{
    if let Some(term) = term {
        push_item(pairs, (var.copy(alloc)?, term.copy(alloc)?))?;
    }
    Ok(())
}

/// The variables that have numbers, with their terms.
fn pairs<'n>(
    alloc: Global,
    graph: &Graph,
    names: &Names<'n>,
    env: &Env,
) -> Result<Vec<(Var, Term)>, Memory>
    ensures { IfOk result (λ pairs. pairs.items ≡ spec.pairs names.now graph.now.terms env.now) }
{
    let mut pairs = Vec::new(alloc);
    for (i, name) in names.as_slice().iter().enumerate() {
        push_pair(alloc, &mut pairs, name.var(), cell_term(graph, env.cell(i)))?;
    }
    Ok(pairs)
}

/// The extension, with a counter of steps of its own.
fn extension_by<L: Ledger>(
    alloc: Global,
    graph: &Graph,
    node: &Node,
    row: &Row,
    blank: Blank,
) -> Result<Option<Row>, Memory>
    requires name { blank.name ≡ L.name }
    requires parts { blank.parts ≡ L.parts }
    requires some { 0 < blank.parts }
    ensures { IfOk result (λ o. MatchOption o (NoValues (statements graph.now) (row_mapping row.now) (tree_of node.now)) (λ values. AreValues (statements graph.now) (row_mapping row.now) (tree_of node.now) (row_mapping values))) }
{
    // Each term of a graph has one number.
    let _count = graph.terms();
    let patterns = node.triples.as_slice();
    if patterns.len() > MOST_DEEP {
        return Err(Memory);
    }
    let mut names = Names::new(alloc);
    names.insert_triples(patterns)?;
    let view = View {
        graph,
        names: &names,
        row: row.listed(),
    };
    let Some(mut list) = shapes(alloc, view, patterns)? else {
        return Ok(None);
    };
    let mut env = Env::blank(alloc, names.as_slice().len())?;
    let mut steps = Steps::<L>::open(blank);
    let conds = node.conds.as_slice();
    if first(view, list.as_mut_slice(), conds, &mut env, &mut steps) {
        let values = pairs(alloc, graph, &names, &env)?;
        Ok(Some(Row::of_pairs(values)))
    } else {
        Ok(None)
    }
}

/// Values for the variables of the node that the row leaves open, with which it meets the node. None exactly where there are
/// none. The first values that are found are given. A node of more than 4,096 triple patterns is refused as Memory.
pub fn extension(
    alloc: Global,
    graph: &Graph,
    node: &Node,
    row: &Row,
) -> Result<Option<Row>, Memory>
    ensures { IfOk result (λ o. MatchOption o (NoValues (statements graph.now) (row_mapping row.now) (tree_of node.now)) (λ values. AreValues (statements graph.now) (row_mapping row.now) (tree_of node.now) (row_mapping values))) }
{
    extension_by::<Brand>(alloc, graph, node, row, Blank::new(1))
}
