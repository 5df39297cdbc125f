//! Conditions and expressions of FILTERs (SPARQL 1.1 Query, section 17.4).

ghost use Rattle.std.specs.Prelude.{◌≡◌, ◌++◌, IsTrue, OnOk, map};
ghost use Rattle.std.specs.List.{AllByRecursion, flat_map};
ghost use Rattle.bye_terms.specs.Ascii.{is_ascii};
ghost use Rattle.bye_pattern.specs.Conditions as plain;
ghost use Rattle.bye_pattern.specs.Printed.{expr_text, is_call, kind_text};
ghost use Rattle.bye_tree.specs.Exprs.{expr_of};
ghost use Rattle.bye_grammar.specs.Valid.{IsExpr};
ghost use Rattle.bye_printer.specs.Joined.{closed, inner_text, opened};

use crate::patterns::{push_constant, push_slot, push_var};
use bye_pattern::{Cond, Kind, Slot};
use bye_terms::{Memory, Text, Var};
use bye_tree::Expr;
use std::alloc::Global;

fn push_bound(out: &mut Text, var: &Var) -> Result<(), Memory>
    ensures text { OnOk result (out.new ≡ out.old ++ expr_text (plain.IsBound var.now)) }
    ensures valid { OnOk result (IsExpr (plain.IsBound var.now)) }
{
    out.push_ascii("bound(")?;
    push_var(out, var)?;
    out.push_ascii(")")
}

/// Puts the name of a kind test, with its bracket, at the end.
fn push_kind(out: &mut Text, kind: &Kind) -> Result<(), Memory>
    ensures { OnOk result (out.new ≡ out.old ++ kind_text kind.now) }
{
    match kind {
        Kind::Iri => out.push_ascii("isIRI("),
        Kind::Blank => out.push_ascii("isBlank("),
        Kind::Literal => out.push_ascii("isLiteral("),
    }
}

/// Puts a plain condition at the end.
pub fn push_cond(alloc: Global, out: &mut Text, cond: &Cond) -> Result<(), Memory>
    ensures text { OnOk result (out.new ≡ out.old ++ expr_text (plain.cond_expr cond.now)) }
    ensures valid { OnOk result (IsExpr (plain.cond_expr cond.now)) }
{
    match cond {
        Cond::Bound(var) => return push_bound(out, var),
        Cond::SameVar(var, other) => {
            out.push_ascii("sameTerm(")?;
            push_var(out, var)?;
            out.push_ascii(", ")?;
            push_var(out, other)?;
        }
        Cond::SameConst(var, constant) => {
            out.push_ascii("sameTerm(")?;
            push_var(out, var)?;
            out.push_ascii(", ")?;
            push_constant(alloc, out, constant)?;
        }
        Cond::KindOf(kind, var) => {
            push_kind(out, kind)?;
            push_var(out, var)?;
        }
    }
    out.push_ascii(")")
}

fn push_same(alloc: Global, out: &mut Text, slot: &Slot, other: &Slot) -> Result<(), Memory>
    ensures text { OnOk result (out.new ≡ out.old ++ expr_text (plain.Same slot.now other.now)) }
    ensures valid { OnOk result (IsExpr (plain.Same slot.now other.now)) }
{
    out.push_ascii("sameTerm(")?;
    push_slot(alloc, out, slot)?;
    out.push_ascii(", ")?;
    push_slot(alloc, out, other)?;
    out.push_ascii(")")
}

fn push_kind_of(alloc: Global, out: &mut Text, kind: &Kind, slot: &Slot) -> Result<(), Memory>
    ensures text { OnOk result (out.new ≡ out.old ++ expr_text (plain.KindOf kind.now slot.now)) }
    ensures valid { OnOk result (IsExpr (plain.KindOf kind.now slot.now)) }
{
    push_kind(out, kind)?;
    push_slot(alloc, out, slot)?;
    out.push_ascii(")")
}

/// Whether the expression is written as a call.
pub fn is_written_as_call(expr: &Expr) -> bool
    ensures { result ≡ is_call (expr_of expr.now) }
{
    match expr {
        Expr::Bound(_) => true,
        Expr::Same(_, _) => true,
        Expr::KindOf(_, _) => true,
        Expr::Not(_) => false,
        Expr::And(first, later) => later.as_slice().is_empty() && is_written_as_call(first),
        Expr::Or(first, later) => later.as_slice().is_empty() && is_written_as_call(first),
    }
}

/// Puts an opening bracket at the end for each of these expressions.
fn push_opened(out: &mut Text, later: &[Expr]) -> Result<(), Memory>
    ensures { OnOk result (out.new ≡ out.old ++ opened (map expr_of later.now)) }
{
    for _bracket in later {
        out.push_ascii("(")?;
    }
    Ok(())
}

/// Puts an expression at the end as it stands within another one: in brackets, where it is no call.
#[cycle(exprs)]
pub fn push_inner(alloc: Global, out: &mut Text, expr: &Expr) -> Result<(), Memory>
    ensures text { OnOk result (out.new ≡ out.old ++ inner_text (expr_of expr.now)) }
    ensures valid { OnOk result (IsExpr (expr_of expr.now)) }
{
    match expr {
        Expr::Bound(var) => push_bound(out, var),
        Expr::Same(slot, other) => push_same(alloc, out, slot, other),
        Expr::KindOf(kind, slot) => push_kind_of(alloc, out, kind, slot),
        Expr::Not(test) => {
            out.push_ascii("(!")?;
            push_inner(alloc, out, test)?;
            out.push_ascii(")")
        }
        Expr::And(first, later) => {
            let later = later.as_slice();
            push_opened(out, later)?;
            push_inner(alloc, out, first)?;
            push_later(alloc, out, " && ", later)
        }
        Expr::Or(first, later) => {
            let later = later.as_slice();
            push_opened(out, later)?;
            push_inner(alloc, out, first)?;
            push_later(alloc, out, " || ", later)
        }
    }
}

/// Puts expressions at the end, each after the sign, and closes a bracket after each.
#[cycle(exprs)]
fn push_later(alloc: Global, out: &mut Text, sign: &str, later: &[Expr]) -> Result<(), Memory>
    requires { IsTrue (is_ascii sign.now) }
    ensures text { OnOk result (out.new ≡ out.old ++ flat_map (closed sign.now) (map expr_of later.now)) }
    ensures valid { OnOk result (AllByRecursion IsExpr (map expr_of later.now)) }
{
    for expr in later {
        out.push_ascii(sign)?;
        push_inner(alloc, out, expr)?;
        out.push_ascii(")")?;
    }
    Ok(())
}
