ghost use Rattle.std.specs.Prelude.{◌≡◌, option_map, slice_get};
ghost use Rattle.std.specs.Str.{bytes_eq};
ghost use Rattle.bye_table.specs.Mappings.{row_mapping};
ghost use Rattle.bye_terms.specs.Members.{EachOnce};
ghost use Rattle.bye_pattern.specs.Patterns.{slot_under};
ghost use Rattle.bye_node.specs.Steps as spec;

use crate::env::Env;
use bye_graph::Graph;
use bye_pattern::Slot;
use bye_terms::{Term, Var};
use bye_tree::Names;

/// A graph, the variables that have numbers, and a row beside them, whose terms are taken as constants.
#[derive(Clone, Copy, Drop)]
pub struct View<'a, 'n> {
    pub graph: &'a Graph,
    pub names: &'a Names<'n>,
    pub row: &'a [(Var, Term)],
}

/// Whether the two variables are the same.
fn same_name(one: &Var, other: &Var) -> bool
    ensures { result ≡ bytes_eq one.now other.now }
{
    one.same(other)
}

/// The term that the row gives the variable.
pub fn row_value<'a>(row: &'a [(Var, Term)], var: &Var) -> Option<&'a Term>
    ensures { option_map (λ t. t.now) result ≡ row_mapping row.now var.now }
{
    for pair in row {
        if same_name(&pair.0, var) {
            return Some(&pair.1);
        }
    }
    None
}

/// The term of a number, where it is used.
fn term_at(graph: &Graph, number: u32) -> Option<&Term>
    ensures { option_map (λ t. t.now) result ≡ slice_get graph.now.terms number }
{
    if number < graph.terms() {
        Some(graph.term(number))
    } else {
        None
    }
}

/// The term of a cell, where it has one.
pub fn cell_term(graph: &Graph, cell: Option<u32>) -> Option<&Term>
    ensures { option_map (λ t. t.now) result ≡ spec.value_at graph.now.terms cell }
{
    match cell {
        Some(number) => term_at(graph, number),
        None => None,
    }
}

/// The term that the numbers give the variable.
fn numbered<'a, 'n>(
    graph: &'a Graph,
    names: &Names<'n>,
    env: &Env,
    var: &'n Var,
) -> Option<&'a Term>
    requires { EachOnce names.now }
    ensures { option_map (λ t. t.now) result ≡ spec.decode names.now graph.now.terms env.now var.now }
{
    match names.position(var) {
        Some(place) => cell_term(graph, env.cell(place)),
        None => None,
    }
}

/// The term of a variable, by the row or else by the numbers.
pub fn value<'a, 'n>(view: View<'a, 'n>, env: &Env, var: &'n Var) -> Option<&'a Term>
    requires { EachOnce view.names.now }
    ensures { option_map (λ t. t.now) result ≡ spec.beside (row_mapping view.entry.row.now) view.entry.names.now view.entry.graph.now.terms env.now var.now }
{
    match row_value(view.row, var) {
        Some(term) => Some(term),
        None => numbered(view.graph, view.names, env, var),
    }
}

/// The term of a place, by the row or else by the numbers.
pub fn slot_value<'a, 'n>(view: View<'a, 'n>, env: &Env, slot: &'n Slot) -> Option<&'a Term>
    requires { EachOnce view.names.now }
    ensures { option_map (λ t. t.now) result ≡ slot_under (spec.beside (row_mapping view.entry.row.now) view.entry.names.now view.entry.graph.now.terms env.now) slot.now }
{
    match slot {
        Slot::Var(var) => value(view, env, var),
        Slot::Const(constant) => Some(constant.term()),
    }
}
