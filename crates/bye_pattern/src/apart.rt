//! Rows that bind different variables.

ghost use Rattle.std.specs.Prelude.{◌≡◌, cond, not, find, IfOk};
ghost use Rattle.std.specs.List.{filter};
ghost use Rattle.std.specs.Option.{option_map};
ghost use Rattle.bye_pattern.specs.Apart as spec;

use bye_table::Row;
use bye_terms::{Memory, Var, push_item};
use std::alloc::Global;

/// Whether the row binds the variable.
fn binds(row: &Row, variable: &Var) -> bool
    ensures { result ≡ spec.binds row.now variable.now }
{
    row.get(variable).is_some()
}

/// Whether exactly one of the rows binds the variable.
fn differ(row: &Row, other: &Row, variable: &Var) -> bool
    ensures { result ≡ spec.differs row.now other.now variable.now }
{
    if binds(row, variable) {
        !binds(other, variable)
    } else {
        binds(other, variable)
    }
}

/// The first of the variables that exactly one of the rows binds.
fn first_difference<'a>(vars: &'a [Var], row: &Row, other: &Row) -> Option<&'a Var>
    ensures { option_map (λ v. v.now) result ≡ find (spec.differs row.now other.now) vars.now }
{
    vars.iter().find(|v| differ(row, other, v))
}

/// The number of the first of the later rows, which are numbered from 2 on, that does not bind the variables that row 1 binds, and
/// the first variable of which the two differ.
pub fn first_apart<'a>(vars: &'a [Var], first: &Row, later: &[Row]) -> Option<(usize, &'a Var)>
    ensures { option_map (λ found. (found.0, found.1.now)) result ≡ spec.first_apart vars.now first.now 2 later.now }
{
    for (index, row) in later.iter().enumerate() {
        if let Some(variable) = first_difference(vars, first, row) {
            return Some((index + 2, variable));
        }
    }
    None
}

/// The variables that the row binds, in the order of the table.
pub fn bound_vars(alloc: Global, vars: &[Var], row: &Row) -> Result<Vec<Var>, Memory>
    ensures { IfOk result (λ bound. bound.items ≡ filter (spec.binds row.now) vars.now) }
{
    let mut bound = Vec::new(alloc);
    for variable in vars {
        if binds(row, variable) {
            push_item(&mut bound, variable.copy(alloc)?)?;
        }
    }
    Ok(bound)
}
