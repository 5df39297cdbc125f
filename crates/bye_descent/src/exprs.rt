//! Expressions that are put together of others.

ghost use Rattle.std.specs.Prelude.{◌≡◌, IfOk, map};
ghost use Rattle.bye_pattern.specs.Conditions as conds;
ghost use Rattle.bye_grammar.specs.Values.{grouped};
ghost use Rattle.bye_tree.specs.Exprs.{expr_of};

use bye_pattern::{Kind, Slot};
use bye_terms::{Memory, Var};
use bye_tree::Expr;
use std::alloc::Global;

/// `bound` of a variable.
pub fn bound(v: Var) -> Expr
    ensures { expr_of result ≡ conds.IsBound v }
{
    Expr::Bound(v)
}

/// A kind test.
pub fn kind_of(kind: Kind, s: Slot) -> Expr
    ensures { expr_of result ≡ conds.KindOf kind s }
{
    Expr::KindOf(kind, s)
}

/// The negation of an expression.
pub fn not(alloc: Global, e: Expr) -> Result<Expr, Memory>
    ensures { IfOk result (λ r. expr_of r ≡ conds.Not (expr_of e)) }
{
    Ok(Expr::Not(Box::new(alloc, e)?))
}

/// The conjunction of an expression and later ones; the expression alone where there are none.
#[tactic(auto, using(crate::proofs::Joining::joined_grouped))]
pub fn and(alloc: Global, first: Expr, later: Vec<Expr>) -> Result<Expr, Memory>
    ensures { IfOk result (λ r. expr_of r ≡ grouped conds.And (expr_of first) (map expr_of later.items)) }
{
    if later.is_empty() {
        drop(later);
        return Ok(first);
    }
    let first = Box::new(alloc, first)?;
    Ok(Expr::And(first, later))
}

/// The disjunction of an expression and later ones; the expression alone where there are none.
#[tactic(auto, using(crate::proofs::Joining::joined_grouped))]
pub fn or(alloc: Global, first: Expr, later: Vec<Expr>) -> Result<Expr, Memory>
    ensures { IfOk result (λ r. expr_of r ≡ grouped conds.Or (expr_of first) (map expr_of later.items)) }
{
    if later.is_empty() {
        drop(later);
        return Ok(first);
    }
    let first = Box::new(alloc, first)?;
    Ok(Expr::Or(first, later))
}
