ghost use Rattle.std.specs.Prelude.{◌≡◌, ◌<◌, ◌≤◌, ◌↔◌, [], Err, IfErr, IfOk, IsTrue, length};
ghost use Rattle.bye_terms.specs.Members.{EachOnce, In};
ghost use Rattle.bye_table.specs.Mappings.{nothing, row_mapping};
ghost use Rattle.bye_pattern.specs.Algebra.{IsAnswer, IsRow};
ghost use Rattle.bye_pattern.specs.Designed.{IsWellDesigned};
ghost use Rattle.bye_pattern.specs.Nodes.{tree_of};
ghost use Rattle.bye_pattern.specs.Trees.{alg, plain_select, tree_vars};
ghost use Rattle.bye_tree.specs.Selects.{select_of};
ghost use Rattle.bye_graph.specs.Graphs.{statements};
ghost use Rattle.bye_node.specs.Envs.{Cells};
ghost use Rattle.bye_node.specs.Steps.{AreListed};
ghost use Rattle.bye_member.specs.Answers as spec;
ghost use Rattle.bye_member.specs.Lines.{project};
ghost use Rattle.bye_member.specs.declared.answering.AnsErr.TheVariants as errors;
ghost use Rattle.bye_member.specs.declared.lines.Stop.TheVariants as stops;

use crate::lines::{Lines, Stop};
use crate::listing::table_of;
use crate::rows::rows_of;
use crate::task::Task;
use crate::variables::{names_of, pins, places, tree_names};
use bye_graph::{Graph, Steps};
use bye_node::MOST_DEEP;
use bye_pattern::Node;
use bye_table::{Row, Table};
use bye_terms::Memory;
use bye_tree::{Expr, Names, Select, Tree};
use std::alloc::Global;
use std::marker::Brand;
use std::sync::ledger::{Blank, Ledger};

/// How many rows a table of answers has at most.
const MOST_ROWS: usize = 1_048_576;

/// Why there is no table of answers.
#[derive(Debug, Drop)]
pub enum AnsErr {
    /// There are more than 1,048,576 answers.
    TooManyRows,
    Memory,
}

impl From<Memory> for AnsErr {
    ghost use Rattle.std.specs.Prelude.{◌≡◌};
    ghost use Rattle.bye_member.specs.declared.answering.AnsErr.TheVariants as errors;

    ghost from_gives = { λ _ e. e ≡ errors.Memory };

    fn from(_: Memory) -> Self {
        AnsErr::Memory
    }
}

impl From<Stop> for AnsErr {
    ghost use Rattle.bye_member.specs.Answers.{IsStop};

    ghost from_gives = { IsStop };

    fn from(stop: Stop) -> Self {
        match stop {
            Stop::Full => AnsErr::TooManyRows,
            Stop::Memory => AnsErr::Memory,
        }
    }
}

/// The rows that are wanted of a tree, each once, and no more than so many.
fn counted_lines<'a, 'n, L: Ledger>(
    alloc: Global,
    task: &Task<'a, 'n>,
    root: &'n Node,
    limit: usize,
    blank: Blank,
) -> Result<Lines, Stop>
    requires name { blank.name ≡ L.name }
    requires parts { blank.parts ≡ L.parts }
    requires some { 0 < blank.parts }
    requires designed { IsWellDesigned (tree_of root.now) }
    requires listed { AreListed nothing task.now.vars (tree_vars (tree_of root.now)) }
    ensures only { IfOk result (λ lines. spec.AreOf task.now.selected (spec.IsWay task.now (tree_of root.now)) lines.rows) }
    ensures whole { IfOk result (λ lines. (y : Cells) → spec.IsWay task.now (tree_of root.now) y → In lines.rows (project task.now.selected y)) }
    ensures once { IfOk result (λ lines. EachOnce lines.rows) }
    ensures few { IfOk result (λ lines. length lines.rows ≤ limit) }
    ensures over { result ≡ Err stops.Full → spec.HasOver task.now (tree_of root.now) limit }
{
    let mut steps = Steps::<L>::open(blank);
    let mut lines = Lines::new(alloc, limit);
    let searched = rows_of(alloc, task, root, &mut steps, &mut lines);
    // No row stands twice.
    let _rows = lines.rows();
    match searched {
        Ok(()) => Ok(lines),
        Err(stop) => Err(stop),
    }
}

/// How many triple patterns and groups a tree has.
fn size(node: &Node) -> usize {
    let mut size = node.triples.as_slice().len().saturating_add(1);
    for child in node.children.as_slice() {
        size = size.saturating_add(self::size(child));
    }
    size
}

/// The same, with a counter of steps of its own. A tree of more triple patterns and groups than the stack bears is refused as Memory.
fn lines<'a, 'n>(
    alloc: Global,
    task: &Task<'a, 'n>,
    root: &'n Node,
    limit: usize,
) -> Result<Lines, Stop>
    requires designed { IsWellDesigned (tree_of root.now) }
    requires listed { AreListed nothing task.now.vars (tree_vars (tree_of root.now)) }
    ensures only { IfOk result (λ lines. spec.AreOf task.now.selected (spec.IsWay task.now (tree_of root.now)) lines.rows) }
    ensures whole { IfOk result (λ lines. (y : Cells) → spec.IsWay task.now (tree_of root.now) y → In lines.rows (project task.now.selected y)) }
    ensures once { IfOk result (λ lines. EachOnce lines.rows) }
    ensures few { IfOk result (λ lines. length lines.rows ≤ limit) }
    ensures over { result ≡ Err stops.Full → spec.HasOver task.now (tree_of root.now) limit }
{
    if size(root) > MOST_DEEP {
        return Err(Stop::Memory);
    }
    counted_lines::<Brand>(alloc, task, root, limit, Blank::new(1))
}

/// Whether there is any row that is wanted of a tree.
fn has_row<'a, 'n>(alloc: Global, task: &Task<'a, 'n>, root: &'n Node) -> Result<bool, Memory>
    requires designed { IsWellDesigned (tree_of root.now) }
    requires listed { AreListed nothing task.now.vars (tree_vars (tree_of root.now)) }
    ensures { IfOk result (λ b. IsTrue b ↔ ((y : Cells) × spec.IsWay task.now (tree_of root.now) y)) }
{
    match lines(alloc, task, root, 0) {
        Ok(_) => Ok(false),
        Err(Stop::Full) => Ok(true),
        Err(Stop::Memory) => Err(Memory),
    }
}

/// Whether the row is an answer of the tree for the selected variables.
fn has_answer<'a, 'n>(
    alloc: Global,
    graph: &'a Graph,
    names: &'a Names<'n>,
    root: &'n Node,
    outer: &'n [Expr],
    selected: &Names<'n>,
    row: &'n Row,
) -> Result<bool, Memory>
    requires designed { IsWellDesigned (tree_of root.now) }
    requires listed { AreListed nothing names.now (tree_vars (tree_of root.now)) }
    ensures { IfOk result (λ b. IsTrue b ↔ IsAnswer (statements graph.now) selected.now (alg (spec.over (tree_of root.now) outer.now)) (row_mapping row.now)) }
{
    // Each term of a graph has one number.
    let _terms = graph.terms();
    let Some(pins) = pins(alloc, graph, names, selected, row)? else {
        return Ok(false);
    };
    let task = Task::new(&*graph, &*names, outer, pins.as_slice(), &[]);
    has_row(alloc, &task, root)
}

/// The answers of a query against a graph (SPARQL 1.1 Query, section 18.5), each once. TooManyRows says that there are more than
/// 1,048,576 of them; no more than one more than these are kept before.
pub fn answers(alloc: Global, graph: &Graph, select: &Select) -> Result<Table, AnsErr>
    ensures answers { IfOk result (λ t. spec.AreAnswers (statements graph.now) (select_of select.now) t) }
    ensures more { result ≡ Err errors.TooManyRows → spec.HasMore (statements graph.now) (select_of select.now) }
{
    // Each term of a graph has one number, and a select names no variable twice.
    let _terms = graph.terms();
    let _distinct = select.is_distinct();
    let tree = select.tree();
    let root = tree.root();
    let names = tree_names(alloc, root)?;
    let places = places(alloc, &names, select.vars())?;
    let task = Task::new(graph, &names, select.outer(), &[], places.as_slice());
    let lines = lines(alloc, &task, root, MOST_ROWS)?;
    Ok(table_of(alloc, graph, select.vars(), &lines)?)
}

/// Whether the row is an answer of the query. The search stops at the first way to it.
pub fn selects<'a>(
    alloc: Global,
    graph: &Graph,
    select: &'a Select,
    row: &'a Row,
) -> Result<bool, Memory>
    ensures { IfOk result (λ b. IsTrue b ↔ IsAnswer (statements graph.now) (select_of select.now).vars (alg (select_of select.now)) (row_mapping row.now)) }
{
    // A select names no variable twice.
    let _distinct = select.is_distinct();
    let tree = select.tree();
    let root = tree.root();
    let names = tree_names(alloc, root)?;
    let selected = names_of(alloc, select.vars())?;
    has_answer(alloc, graph, &names, root, select.outer(), &selected, row)
}

/// No further expressions, for as long as the tree is there.
fn no_exprs(_tree: &Tree) -> &[Expr]
    ensures { result.now ≡ [] }
{
    &[]
}

/// Whether the row is a row of the tree, with its root's conditions.
pub fn is_answer<'a>(
    alloc: Global,
    graph: &Graph,
    tree: &'a Tree,
    row: &'a Row,
) -> Result<bool, Memory>
    ensures { IfOk result (λ b. IsTrue b ↔ IsRow (statements graph.now) (alg (plain_select [] (tree_of tree.now))) (row_mapping row.now)) }
{
    let root = tree.root();
    let names = tree_names(alloc, root)?;
    let outer = no_exprs(tree);
    has_answer(alloc, graph, &names, root, outer, &names, row)
}
