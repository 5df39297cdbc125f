//! The rows of a document.

ghost use Rattle.bye_json.specs.PartFaults.{IsRowFault, IsRowsFault};
ghost use Rattle.bye_json.specs.Documents as spec;
ghost use Rattle.bye_json.specs.Trees.{collect, names_of};
ghost use Rattle.bye_table.specs.Mappings.{is_in};
ghost use Rattle.bye_terms.specs.Members.{EachOnce};
ghost use Rattle.serde_json.specs.View.{view, members_view};
ghost use Rattle.std.specs.List.{list_all};
ghost use Rattle.std.specs.Prelude.{◌≡◌, ◌<◌, ◌^◌, ◌++◌, IfErr, IfOk, None, Some, cond, length, map, option_map, true};
ghost use Rattle.std.specs.Str.{bytes_eq, chars};

use crate::json_err::JsonErr;
use crate::row_err::RowErr;
use crate::term_object::term_at;
use bye_table::Row;
use bye_terms::{Memory, Term, Var, push_item};
use serde_json::{Map, Value};
use std::alloc::Global;

/// Whether the text is the name of the variable.
fn is_named(var: &Var, text: &str) -> bool
    ensures { result ≡ bytes_eq var.now (chars text.now) }
{
    var.name().as_str() == text
}

/// Whether the text is the name of one of the variables.
fn names_one(vars: &[Var], text: &str) -> bool
    ensures { result ≡ is_in vars.now (chars text.now) }
{
    vars.iter().any(|var| is_named(var, text))
}

/// Whether each member is named as a variable.
fn are_listed(vars: &[Var], members: &Map<String, Value>) -> bool
    ensures { result ≡ list_all (is_in vars.now) (names_of (members_view members.now.entries)) }
{
    for (name, _) in members.iter() {
        if !names_one(vars, name.as_str()) {
            return false;
        }
    }
    true
}

/// Whether each name in the binding is one of the variables.
fn is_listed(vars: &[Var], binding: &Value) -> bool
    ensures { result ≡ spec.is_listed vars.now (view binding.now) }
{
    match binding.as_object() {
        Some(members) => are_listed(vars, members),
        None => true,
    }
}

/// Puts the variable with its term at the end, where the binding has one for it. False where that is no term object.
fn put_cell(
    alloc: Global,
    pairs: &mut Vec<(Var, Term)>,
    var: &Var,
    binding: &Value,
) -> Result<bool, Memory>
    ensures { IfOk result (λ good. option_map (λ here. pairs.old.items ++ here) (spec.cell_of (view binding.now) var.now)
        ≡ cond good (Some pairs.new.items) None) }
{
    let Some(value) = binding.get(var.name().as_str()) else {
        return Ok(true);
    };
    match term_at(alloc, value)? {
        Some(term) => {
            push_item(pairs, (var.copy(alloc)?, term))?;
            Ok(true)
        }
        None => Ok(false),
    }
}

/// The variables that the binding has, with their terms.
fn read_pairs(alloc: Global, vars: &[Var], binding: &Value) -> Result<Vec<(Var, Term)>, RowErr>
    requires count { length vars.now < 2 ^ 32 }
    requires listed { spec.is_listed vars.now (view binding.now) ≡ true }
    ensures ok { IfOk result (λ pairs. spec.pairs_of vars.now (view binding.now) ≡ Some pairs.items) }
    ensures err { IfErr result (IsRowFault vars.now (view binding.now)) }
{
    let mut pairs = Vec::new(alloc);
    for (i, var) in vars.iter().enumerate() {
        if !put_cell(alloc, &mut pairs, var, binding)? {
            return Err(RowErr::BadTerm(i as u32 + 1));
        }
    }
    Ok(pairs)
}

/// The row of a binding, in the order of the variables.
fn read_row(alloc: Global, vars: &[Var], binding: &Value) -> Result<Row, RowErr>
    requires count { length vars.now < 2 ^ 32 }
    requires once { EachOnce vars.now }
    ensures ok { IfOk result (λ row. spec.row_of vars.now (view binding.now) ≡ Some row) }
    ensures err { IfErr result (IsRowFault vars.now (view binding.now)) }
{
    if !is_listed(vars, binding) {
        return Err(RowErr::Unlisted);
    }
    let pairs = read_pairs(alloc, vars, binding)?;
    Ok(Row::of_pairs(pairs))
}

/// The rows of the bindings, or the first wrong one.
pub fn read_rows(alloc: Global, vars: &[Var], bindings: &[Value]) -> Result<Vec<Row>, JsonErr>
    requires count { length vars.now < 2 ^ 32 }
    requires once { EachOnce vars.now }
    requires rows { length bindings.now < 2 ^ 32 }
    ensures ok { IfOk result (λ rows. collect (spec.row_of vars.now) (map view bindings.now) ≡ Some rows.items) }
    ensures err { IfErr result (IsRowsFault vars.now (map view bindings.now)) }
{
    let mut rows = Vec::new(alloc);
    for (i, binding) in bindings.iter().enumerate() {
        match read_row(alloc, vars, binding) {
            Ok(row) => push_item(&mut rows, row)?,
            Err(fault) => return Err(fault.in_row(i as u32 + 1)),
        }
    }
    Ok(rows)
}
