//! The plain conditions that hold in all rows.

ghost use Rattle.std.specs.Prelude.{◌≡◌, ◌++◌, ◌∷◌, [], IfOk, OnOk, map, option_map};
ghost use Rattle.std.specs.List.{filter, flat_map, list_all};
ghost use Rattle.bye_table.specs.Mappings.{row_mapping};
ghost use Rattle.bye_pattern.specs.Conditions.{kind_value, same_value};
ghost use Rattle.bye_pattern.specs.declared.cond.Cond.TheVariants as conds;
ghost use Rattle.bye_strongest.specs.Conds as spec;

use bye_pattern::{Cond, Constant, Kind, Level};
use bye_table::Row;
use bye_terms::{Memory, Term, Var, push_item};
use std::alloc::Global;

/// Whether both are there and the same.
fn same_terms(one: Option<&Term>, other: Option<&Term>) -> bool
    ensures { result ≡ spec.is_true (same_value (option_map (λ t. t.now) one.entry) (option_map (λ t. t.now) other.entry)) }
{
    match (one, other) {
        (Some(one), Some(other)) => one.same(other),
        _ => false,
    }
}

/// Whether the term is there and of the kind.
fn is_kind(kind: &Kind, term: Option<&Term>) -> bool
    ensures { result ≡ spec.is_true (kind_value kind.now (option_map (λ t. t.now) term.entry)) }
{
    match (kind, term) {
        (Kind::Iri, Some(Term::Iri(_))) => true,
        (Kind::Blank, Some(Term::Blank(_))) => true,
        (Kind::Literal, Some(Term::Lit(_))) => true,
        _ => false,
    }
}

/// Whether the condition is true of the row.
fn holds(row: &Row, cond: &Cond) -> bool
    ensures { result ≡ spec.holds cond.now row.now }
{
    match cond {
        Cond::Bound(var) => row.get(var).is_some(),
        Cond::SameVar(var, other) => same_terms(row.get(var), row.get(other)),
        Cond::SameConst(var, constant) => same_terms(row.get(var), Some(constant.term())),
        Cond::KindOf(kind, var) => is_kind(kind, row.get(var)),
    }
}

/// Whether the condition is true of all the rows.
fn holds_in_all(rows: &[Row], cond: &Cond) -> bool
    ensures { result ≡ spec.holds_in_all rows.now cond.now }
{
    rows.iter().all(|row| holds(row, cond))
}

fn push_bounds(alloc: Global, out: &mut Vec<Cond>, vars: &[Var]) -> Result<(), Memory>
    ensures { OnOk result (out.new.items ≡ out.old.items ++ map conds.Bound vars.now) }
{
    for var in vars {
        push_item(out, Cond::Bound(var.copy(alloc)?))?;
    }
    Ok(())
}

fn push_same_var(alloc: Global, out: &mut Vec<Cond>, one: &Var, other: &Var) -> Result<(), Memory>
    ensures { OnOk result (out.new.items ≡ out.old.items ++ conds.SameVar one.now other.now ∷ []) }
{
    let one = one.copy(alloc)?;
    let other = other.copy(alloc)?;
    push_item(out, Cond::SameVar(one, other))
}

fn push_same_with(
    alloc: Global,
    out: &mut Vec<Cond>,
    one: &Var,
    later: &[Var],
) -> Result<(), Memory>
    ensures { OnOk result (out.new.items ≡ out.old.items ++ map (conds.SameVar one.now) later.now) }
{
    for other in later {
        push_same_var(alloc, out, one, other)?;
    }
    Ok(())
}

fn push_same_vars(alloc: Global, out: &mut Vec<Cond>, vars: &[Var]) -> Result<(), Memory>
    ensures { OnOk result (out.new.items ≡ out.old.items ++ spec.same_vars vars.now) }
{
    let mut rest = vars;
    while let Some((one, later)) = rest.split_first() {
        push_same_with(alloc, out, one, later)?;
        rest = later;
    }
    Ok(())
}

fn push_constant(alloc: Global, out: &mut Vec<Cond>, var: &Var, value: &Term) -> Result<(), Memory>
    ensures { OnOk result (out.new.items ≡ out.old.items ++ spec.constant var.now value.now) }
{
    match Constant::of_term(value.copy(alloc)?) {
        Some(constant) => push_item(out, Cond::SameConst(var.copy(alloc)?, constant)),
        None => Ok(()),
    }
}

fn push_same_const(alloc: Global, out: &mut Vec<Cond>, row: &Row, var: &Var) -> Result<(), Memory>
    ensures { OnOk result (out.new.items ≡ out.old.items ++ spec.same_const row.now var.now) }
{
    match row.get(var) {
        Some(value) => push_constant(alloc, out, var, value),
        None => Ok(()),
    }
}

fn push_same_consts(
    alloc: Global,
    out: &mut Vec<Cond>,
    row: &Row,
    vars: &[Var],
) -> Result<(), Memory>
    ensures { OnOk result (out.new.items ≡ out.old.items ++ flat_map (spec.same_const row.now) vars.now) }
{
    for var in vars {
        push_same_const(alloc, out, row, var)?;
    }
    Ok(())
}

fn push_kinds_of(alloc: Global, out: &mut Vec<Cond>, var: &Var) -> Result<(), Memory>
    ensures { OnOk result (out.new.items ≡ out.old.items ++ spec.kinds_of var.now) }
{
    push_item(out, Cond::KindOf(Kind::Iri, var.copy(alloc)?))?;
    push_item(out, Cond::KindOf(Kind::Blank, var.copy(alloc)?))?;
    push_item(out, Cond::KindOf(Kind::Literal, var.copy(alloc)?))
}

fn push_all_kinds(alloc: Global, out: &mut Vec<Cond>, vars: &[Var]) -> Result<(), Memory>
    ensures { OnOk result (out.new.items ≡ out.old.items ++ flat_map spec.kinds_of vars.now) }
{
    for var in vars {
        push_kinds_of(alloc, out, var)?;
    }
    Ok(())
}

fn push_kinds(alloc: Global, out: &mut Vec<Cond>, level: &Level, vars: &[Var]) -> Result<(), Memory>
    ensures { OnOk result (out.new.items ≡ out.old.items ++ spec.kinds level.now vars.now) }
{
    match level {
        Level::One => Ok(()),
        Level::Two => push_all_kinds(alloc, out, vars),
    }
}

/// The conditions of the level over the variables, with the terms of one row as constants, in the order in which they are tried.
fn forms(alloc: Global, level: &Level, vars: &[Var], row: &Row) -> Result<Vec<Cond>, Memory>
    ensures { IfOk result (λ v. v.items ≡ spec.forms level.now vars.now row.now) }
{
    let mut out = Vec::new(alloc);
    push_bounds(alloc, &mut out, vars)?;
    push_same_vars(alloc, &mut out, vars)?;
    push_same_consts(alloc, &mut out, row, vars)?;
    push_kinds(alloc, &mut out, level, vars)?;
    Ok(out)
}

/// The conditions of the level over the variables that hold in all rows, of which this is one, in the order in which they are
/// tried.
pub fn common_conditions(
    alloc: Global,
    level: &Level,
    vars: &[Var],
    rows: &[Row],
    row: &Row,
) -> Result<Vec<Cond>, Memory>
    ensures { IfOk result (λ v. v.items ≡ spec.common level.now vars.now rows.now row.now) }
{
    let mut out = Vec::new(alloc);
    for cond in forms(alloc, level, vars, row)? {
        if holds_in_all(rows, &cond) {
            push_item(&mut out, cond)?;
        }
    }
    Ok(out)
}
