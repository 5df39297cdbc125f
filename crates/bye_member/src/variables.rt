//! The variables of a tree and their numbers, and what a row asks of them.

ghost use Rattle.std.specs.Prelude.{◌≡◌, ◌↔◌, [], IfOk, IsTrue, MatchOption, OnOk, Some, slice_get};
ghost use Rattle.std.specs.List.{list_all};
ghost use Rattle.bye_terms.specs.Members.{EachOnce, In};
ghost use Rattle.bye_table.specs.Mappings.{Binds, Name, row_mapping};
ghost use Rattle.bye_table.specs.Tables.{IsOverVars, is_pair_over};
ghost use Rattle.bye_pattern.specs.Nodes.{tree_of};
ghost use Rattle.bye_pattern.specs.Trees.{tree_vars};
ghost use Rattle.bye_tree.specs.Names.{with_names};
ghost use Rattle.bye_member.specs.Answers as spec;

use bye_graph::Graph;
use bye_node::Pin;
use bye_pattern::Node;
use bye_table::Row;
use bye_terms::{Memory, Term, Var};
use bye_tree::Names;
use std::alloc::Global;

/// Puts the variables of a tree in.
fn insert_tree<'a>(names: &mut Names<'a>, node: &'a Node) -> Result<(), Memory>
    ensures { OnOk result (names.new ≡ with_names names.old (tree_vars (tree_of node.now))) }
{
    names.insert_triples(node.triples.as_slice())?;
    for child in node.children.as_slice() {
        insert_tree(names, child)?;
    }
    Ok(())
}

/// The variables of a tree, each once.
pub fn tree_names<'a>(alloc: Global, root: &'a Node) -> Result<Names<'a>, Memory>
    ensures once { IfOk result (λ names. EachOnce names) }
    ensures vars { IfOk result (λ names. (v : Name) → In names v ↔ In (tree_vars (tree_of root.now)) v) }
{
    let mut names = Names::new(alloc);
    insert_tree(&mut names, root)?;
    Ok(names)
}

/// The number of a variable, or one past all where it has none.
fn place_of<'a>(names: &Names<'a>, var: &'a Var) -> usize
    ensures { spec.IsPlaceOf names.now var.now result }
{
    match names.position(var) {
        Some(place) => place,
        None => names.as_slice().len(),
    }
}

/// The numbers of variables.
pub fn places<'a>(alloc: Global, names: &Names<'a>, vars: &'a [Var]) -> Result<Vec<usize>, Memory>
    ensures { IfOk result (λ places. spec.ArePlaces names.now vars.now places.items) }
{
    let mut places = Vec::with_capacity(alloc, vars.len())?;
    for var in vars {
        places.push(place_of(names, var))?;
    }
    Ok(places)
}

/// Whether these pairs are of these variables alone.
fn are_among<'a>(names: &Names<'a>, pairs: &'a [(Var, Term)]) -> bool
    ensures { result ≡ list_all (is_pair_over names.now) pairs.now }
{
    pairs.iter().all(|pair| names.contains(&pair.0))
}

/// Whether the row binds of these variables alone.
fn is_over<'a>(names: &Names<'a>, row: &'a Row) -> bool
    ensures { IsTrue result ↔ IsOverVars names.now row.now }
{
    are_among(names, row.listed())
}

/// Whether the variable is one of these.
fn is_one_of<'a>(names: &Names<'a>, var: &'a Var) -> bool
    ensures { IsTrue result ↔ In names.now var.now }
{
    names.contains(var)
}

/// The number of a term. None exactly where it is in no triple.
fn number_of(graph: &Graph, term: &Term) -> Option<u32>
    ensures { MatchOption result (In graph.now.terms term.now → ⊥) (λ number. slice_get graph.now.terms number ≡ Some term.now) }
{
    let _terms = graph.terms();
    graph.id_of(term)
}

/// What the row asks of a variable. None where the row gives it a term that is in no triple.
fn pin<'a>(graph: &Graph, selected: &Names<'a>, row: &Row, var: &'a Var) -> Option<Pin>
    ensures { MatchOption result (spec.IsForeign graph.now.terms (row_mapping row.now) var.now) (λ pin. spec.IsPinOf graph.now.terms selected.now (row_mapping row.now) var.now pin) }
{
    if !is_one_of(selected, var) {
        return Some(Pin::Free);
    }
    match row.get(var) {
        Some(term) => match number_of(graph, term) {
            Some(number) => Some(Pin::Must(number)),
            None => None,
        },
        None => Some(Pin::Never),
    }
}

/// What the row asks of each of these variables. None where it gives one of them a term that is in no triple.
fn pins_of<'a>(
    alloc: Global,
    graph: &Graph,
    names: &Names<'a>,
    selected: &Names<'a>,
    row: &Row,
) -> Result<Option<Vec<Pin>>, Memory>
    ensures { IfOk result (λ o. MatchOption o (spec.HasForeign graph.now.terms (row_mapping row.now)) (λ pins. spec.ArePins graph.now.terms selected.now (row_mapping row.now) names.now pins.items)) }
{
    let mut pins = Vec::new(alloc);
    for name in names.as_slice() {
        match pin(graph, selected, row, name.var()) {
            Some(pin) => pins.push(pin)?,
            None => return Ok(None),
        }
    }
    Ok(Some(pins))
}

/// What the row asks of each variable that has a number. None where it is no answer, since it binds a variable that is not selected or
/// has no number, or has a term that is in no triple.
pub fn pins<'n>(
    alloc: Global,
    graph: &Graph,
    names: &Names<'n>,
    selected: &Names<'n>,
    row: &'n Row,
) -> Result<Option<Vec<Pin>>, Memory>
    ensures { IfOk result (λ o. MatchOption o (spec.IsNoRow graph.now.terms names.now selected.now (row_mapping row.now)) (λ pins. spec.Asks graph.now.terms names.now selected.now (row_mapping row.now) pins.items)) }
{
    if !is_over(names, row) || !is_over(selected, row) {
        return Ok(None);
    }
    pins_of(alloc, graph, names, selected, row)
}

/// The variables, none of which stands twice, as names.
pub fn names_of<'a>(alloc: Global, vars: &'a [Var]) -> Result<Names<'a>, Memory>
    requires { EachOnce vars.now }
    ensures { IfOk result (λ names. names ≡ vars.now) }
{
    let mut names = Names::new(alloc);
    for var in vars {
        names.insert(var)?;
    }
    Ok(names)
}
