//! The sorted set of a table. The cells of each row are found once, before the rows are compared.

ghost use Rattle.std.specs.Prelude.{◌≡◌, IfOk, map, option_map};
ghost use Rattle.std.specs.Cmp.Lexicographic.{slice_cmp};
ghost use Rattle.std.specs.List.{AllByRecursion};
ghost use Rattle.bye_table.specs.Cells.{HasCells, found};
ghost use Rattle.bye_table.specs.Sorted.{IsSortedSet, cell_cmp};
ghost use Rattle.bye_table.specs.Tables.{IsTable};

use crate::row::Row;
use crate::table::Table;
use bye_terms::{Memory, Term, Var, push_item};
use std::alloc::Global;
use std::cmp::Ordering;

/// A row, and its cells in the order of the table's variables.
#[derive(Drop)]
struct Celled<'a> {
    row: &'a Row,
    cells: Vec<Option<&'a Term>>,
}

/// The order of two cells: unbound before bound, and terms by their own order.
fn compare_cells(one: Option<&Term>, other: Option<&Term>) -> Ordering
    ensures { result ≡ cell_cmp (option_map (λ t. t.now) one.entry) (option_map (λ t. t.now) other.entry) }
{
    match (one, other) {
        (None, None) => Ordering::Equal,
        (None, Some(_)) => Ordering::Less,
        (Some(_), None) => Ordering::Greater,
        (Some(a), Some(b)) => a.cmp(b),
    }
}

/// The order of two rows, cell by cell.
fn compare(one: &[Option<&Term>], other: &[Option<&Term>]) -> Ordering
    ensures { result ≡ slice_cmp cell_cmp (found one.now) (found other.now) }
{
    let mut others = other;
    for a in one {
        match others {
            [] => return Ordering::Greater,
            [b, after @ ..] => match compare_cells(*a, *b) {
                Ordering::Equal => others = after,
                order => return order,
            },
        }
    }
    if others.is_empty() {
        Ordering::Equal
    } else {
        Ordering::Less
    }
}

/// The rows with their cells.
fn with_cells<'a>(alloc: Global, vars: &[Var], rows: &'a [Row]) -> Result<Vec<Celled<'a>>, Memory>
    ensures rows { IfOk result (λ v. map (λ c. c.row.now) v.items ≡ rows.now) }
    ensures cells { IfOk result (λ v. AllByRecursion (λ c. HasCells vars.now c.row.now (found c.cells.items)) v.items) }
{
    let mut out = Vec::with_capacity(alloc, rows.len())?;
    for row in rows {
        let cells = row.cells(alloc, vars)?;
        push_item(&mut out, Celled { row, cells })?;
    }
    Ok(out)
}

fn copy_vars(alloc: Global, vars: &[Var]) -> Result<Vec<Var>, Memory>
    ensures { IfOk result (λ v. v.items ≡ vars.now) }
{
    let mut out = Vec::with_capacity(alloc, vars.len())?;
    for variable in vars {
        push_item(&mut out, variable.copy(alloc)?)?;
    }
    Ok(out)
}

fn copy_rows(alloc: Global, celled: &[Celled<'_>]) -> Result<Vec<Row>, Memory>
    ensures { IfOk result (λ v. v.items ≡ map (λ c. c.row.now) celled.now) }
{
    let mut out = Vec::with_capacity(alloc, celled.len())?;
    for one in celled {
        push_item(&mut out, one.row.copy(alloc)?)?;
    }
    Ok(out)
}

/// The distinct rows of the table in their order.
fn distinct_rows(alloc: Global, table: &Table) -> Result<Vec<Row>, Memory>
    ensures sorted { IfOk result (λ v. IsSortedSet table.now (record { vars = table.now.vars; rows = v.items })) }
    ensures table { IfOk result (λ v. IsTable (record { vars = table.now.vars; rows = v.items })) }
{
    let mut celled = with_cells(alloc, table.vars(), table.rows())?;
    celled.sort_unstable_by(|a, b| compare(a.cells.as_slice(), b.cells.as_slice()));
    celled.dedup_by(|a, b| compare(a.cells.as_slice(), b.cells.as_slice()) == Ordering::Equal);
    copy_rows(alloc, celled.as_slice())
}

/// The table with the distinct rows, compared cell by cell in the order of its variables: unbound before bound, and terms by
/// their order.
pub fn sorted_set(alloc: Global, table: &Table) -> Result<Table, Memory>
    ensures { IfOk result (λ s. IsSortedSet table.now s) }
{
    let vars = copy_vars(alloc, table.vars())?;
    let rows = distinct_rows(alloc, table)?;
    Ok(Table::of_rows(vars, rows))
}
