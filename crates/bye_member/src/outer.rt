//! The expressions of the root's FILTERs, with their three values.

ghost use Rattle.std.specs.Prelude.{◌≡◌, ◌↔◌, IsTrue, map, option_map};
ghost use Rattle.bye_table.specs.Mappings.{row_mapping};
ghost use Rattle.bye_terms.specs.Members.{EachOnce};
ghost use Rattle.bye_pattern.specs.Conditions as plain;
ghost use Rattle.bye_tree.specs.Exprs.{expr_of};
ghost use Rattle.bye_node.specs.Steps.{beside};

use bye_node::{Env, View, slot_value, value};
use bye_pattern::Kind;
use bye_terms::Term;
use bye_tree::Expr;

/// Whether the term is of the kind.
fn is_kind(kind: &Kind, term: &Term) -> bool
    ensures { result ≡ plain.is_kind kind.now term.now }
{
    match (kind, term) {
        (Kind::Iri, Term::Iri(_)) => true,
        (Kind::Blank, Term::Blank(_)) => true,
        (Kind::Literal, Term::Lit(_)) => true,
        _ => false,
    }
}

/// Whether the two terms are the same.
fn is_same(one: &Term, other: &Term) -> bool
    ensures { result ≡ plain.same_term one.now other.now }
{
    one.same(other)
}

/// A kind test: an error where there is no term.
fn kind_value(kind: &Kind, term: Option<&Term>) -> Option<bool>
    ensures { result ≡ plain.kind_value kind.now (option_map (λ t. t.now) term.entry) }
{
    match term {
        Some(term) => Some(is_kind(kind, term)),
        None => None,
    }
}

/// `sameTerm`: an error where a term is missing.
fn same_value(one: Option<&Term>, other: Option<&Term>) -> Option<bool>
    ensures { result ≡ plain.same_value (option_map (λ t. t.now) one.entry) (option_map (λ t. t.now) other.entry) }
{
    match (one, other) {
        (Some(one), Some(other)) => Some(is_same(one, other)),
        _ => None,
    }
}

/// A negation: an error stays one.
fn not_value(value: Option<bool>) -> Option<bool>
    ensures { result ≡ plain.not_value value }
{
    match value {
        Some(value) => Some(!value),
        None => None,
    }
}

/// A conjunction: false where either is, else an error where either is.
fn and_value(one: Option<bool>, other: Option<bool>) -> Option<bool>
    ensures { result ≡ plain.and_value one other }
{
    match (one, other) {
        (Some(false), _) | (_, Some(false)) => Some(false),
        (Some(true), Some(true)) => Some(true),
        _ => None,
    }
}

/// A disjunction: true where either is, else an error where either is.
fn or_value(one: Option<bool>, other: Option<bool>) -> Option<bool>
    ensures { result ≡ plain.or_value one other }
{
    match (one, other) {
        (Some(true), _) | (_, Some(true)) => Some(true),
        (Some(false), Some(false)) => Some(false),
        _ => None,
    }
}

/// The value of an expression of the row and the numbers, and None for an error.
pub fn expr_value<'a, 'n>(view: View<'a, 'n>, env: &Env, expr: &'n Expr) -> Option<bool>
    requires { EachOnce view.names.now }
    ensures { result ≡ plain.value (beside (row_mapping view.entry.row.now) view.entry.names.now view.entry.graph.now.terms env.now) (expr_of expr.now) }
{
    match expr {
        Expr::Bound(var) => Some(value(view, env, var).is_some()),
        Expr::Same(one, other) => {
            same_value(slot_value(view, env, one), slot_value(view, env, other))
        }
        Expr::KindOf(kind, slot) => kind_value(kind, slot_value(view, env, slot)),
        Expr::Not(negated) => not_value(expr_value(view, env, negated)),
        Expr::And(first, later) => {
            let mut all = expr_value(view, env, first);
            for next in later.as_slice() {
                all = and_value(all, expr_value(view, env, next));
            }
            all
        }
        Expr::Or(first, later) => {
            let mut any = expr_value(view, env, first);
            for next in later.as_slice() {
                any = or_value(any, expr_value(view, env, next));
            }
            any
        }
    }
}

/// Whether the expression is true of the row and the numbers.
fn holds<'a, 'n>(view: View<'a, 'n>, env: &Env, expr: &'n Expr) -> bool
    requires { EachOnce view.names.now }
    ensures { IsTrue result ↔ plain.HoldsExpr (beside (row_mapping view.entry.row.now) view.entry.names.now view.entry.graph.now.terms env.now) (expr_of expr.now) }
{
    matches!(expr_value(view, env, expr), Some(true))
}

/// Whether all the expressions are true of the row and the numbers. An error is no truth.
pub fn outer_hold<'a, 'n>(view: View<'a, 'n>, env: &Env, outer: &'n [Expr]) -> bool
    requires { EachOnce view.names.now }
    ensures { IsTrue result ↔ plain.AllHoldExpr (map expr_of outer.now) (beside (row_mapping view.entry.row.now) view.entry.names.now view.entry.graph.now.terms env.now) }
{
    for expr in outer {
        if !holds(view, env, expr) {
            return false;
        }
    }
    true
}
