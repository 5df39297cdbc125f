ghost use Rattle.std.specs.Prelude.{◌≡◌, ◌++◌, [], IfOk, OnOk, map, option_map};
ghost use Rattle.bye_terms.specs.Members.{EachOnce};
ghost use Rattle.bye_table.specs.Sorted.{mappings};
ghost use Rattle.bye_pattern.specs.FirstClaims.{with_value};
ghost use Rattle.bye_node.specs.Envs.{cell};
ghost use Rattle.bye_node.specs.Steps.{decode, value_at};
ghost use Rattle.bye_member.specs.Listing.{row_of};

use crate::lines::{Line, Lines};
use bye_graph::Graph;
use bye_table::{Row, Table};
use bye_terms::{Memory, Term, Var, push_item};
use std::alloc::Global;

/// The term of a number, where there is one.
fn term_of(graph: &Graph, number: Option<u32>) -> Option<&Term>
    ensures { option_map (λ t. t.now) result ≡ value_at graph.now.terms number }
{
    match number {
        Some(number) if number < graph.terms() => Some(graph.term(number)),
        _ => None,
    }
}

/// The term in a place of a row, where there is one.
fn term_at<'a>(graph: &'a Graph, cells: &[Option<u32>], place: usize) -> Option<&'a Term>
    ensures { option_map (λ t. t.now) result ≡ value_at graph.now.terms (cell cells.now place) }
{
    match cells.get(place) {
        Some(number) => term_of(graph, *number),
        None => None,
    }
}

/// Puts the variable with its term at the end, where it has one.
fn push_bound(
    alloc: Global,
    pairs: &mut Vec<(Var, Term)>,
    var: &Var,
    term: Option<&Term>,
) -> Result<(), Memory>
    ensures { OnOk result (pairs.new.items ≡ pairs.old.items ++ with_value var.now (option_map (λ t. t.now) term.entry) []) }
{
    match term {
        Some(term) => push_item(pairs, (var.copy(alloc)?, term.copy(alloc)?)),
        None => Ok(()),
    }
}

/// The row of a table: the bound variables with their terms, in the order of the variables.
fn row(alloc: Global, graph: &Graph, vars: &[Var], cells: &[Option<u32>]) -> Result<Row, Memory>
    requires { EachOnce vars.now }
    ensures { IfOk result (λ row. row ≡ row_of vars.now graph.now.terms cells.now) }
{
    let mut pairs = Vec::with_capacity(alloc, vars.len())?;
    for (place, var) in vars.iter().enumerate() {
        push_bound(alloc, &mut pairs, var, term_at(graph, cells, place))?;
    }
    Ok(Row::of_pairs(pairs))
}

fn rows(alloc: Global, graph: &Graph, vars: &[Var], lines: &[Line]) -> Result<Vec<Row>, Memory>
    requires { EachOnce vars.now }
    ensures { IfOk result (λ rows. rows.items ≡ map (row_of vars.now graph.now.terms) lines.now) }
{
    let mut rows = Vec::with_capacity(alloc, lines.len())?;
    for line in lines {
        push_item(&mut rows, row(alloc, graph, vars, line.cells())?)?;
    }
    Ok(rows)
}

fn copy_vars(alloc: Global, vars: &[Var]) -> Result<Vec<Var>, Memory>
    ensures { IfOk result (λ v. v.items ≡ vars.now) }
{
    let mut out = Vec::with_capacity(alloc, vars.len())?;
    for var in vars {
        push_item(&mut out, var.copy(alloc)?)?;
    }
    Ok(out)
}

/// The table of these variables and rows, in their order. Each row of it keeps its pairs in the order of the variables.
pub fn table_of(alloc: Global, graph: &Graph, vars: &[Var], lines: &Lines) -> Result<Table, Memory>
    requires { EachOnce vars.now }
    ensures vars { IfOk result (λ t. t.vars ≡ vars.now) }
    ensures rows { IfOk result (λ t. t.rows ≡ map (row_of vars.now graph.now.terms) lines.now.rows) }
    ensures mappings { IfOk result (λ t. mappings t ≡ map (decode vars.now graph.now.terms) lines.now.rows) }
{
    let vars = copy_vars(alloc, vars)?;
    let rows = rows(alloc, graph, vars.as_slice(), lines.rows())?;
    Ok(Table::of_rows(vars, rows))
}
