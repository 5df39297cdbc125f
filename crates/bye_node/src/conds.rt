ghost use Rattle.std.specs.Prelude.{◌≡◌, option_map};
ghost use Rattle.bye_table.specs.Mappings.{row_mapping};
ghost use Rattle.bye_terms.specs.Members.{EachOnce};
ghost use Rattle.bye_pattern.specs.Conditions.{kind_value, same_value};
ghost use Rattle.bye_node.specs.Conds as spec;
ghost use Rattle.bye_node.specs.Steps.{beside};

use crate::env::Env;
use crate::view::{View, value};
use bye_pattern::{Cond, Kind};
use bye_terms::Term;

/// Whether both are there and the same.
pub fn same_terms(one: Option<&Term>, other: Option<&Term>) -> bool
    ensures { result ≡ spec.is_true (same_value (option_map (λ t. t.now) one.entry) (option_map (λ t. t.now) other.entry)) }
{
    match (one, other) {
        (Some(one), Some(other)) => one.same(other),
        _ => false,
    }
}

/// Whether the term is there and of the kind.
pub fn is_kind(kind: &Kind, term: Option<&Term>) -> bool
    ensures { result ≡ spec.is_true (kind_value kind.now (option_map (λ t. t.now) term.entry)) }
{
    match (kind, term) {
        (Kind::Iri, Some(Term::Iri(_))) => true,
        (Kind::Blank, Some(Term::Blank(_))) => true,
        (Kind::Literal, Some(Term::Lit(_))) => true,
        _ => false,
    }
}

/// Whether the condition is true of the row and the numbers.
fn holds<'a, 'n>(view: View<'a, 'n>, env: &Env, cond: &'n Cond) -> bool
    requires { EachOnce view.names.now }
    ensures { result ≡ spec.holds (beside (row_mapping view.entry.row.now) view.entry.names.now view.entry.graph.now.terms env.now) cond.now }
{
    match cond {
        Cond::Bound(var) => value(view, env, var).is_some(),
        Cond::SameVar(var, other) => same_terms(value(view, env, var), value(view, env, other)),
        Cond::SameConst(var, constant) => {
            same_terms(value(view, env, var), Some(constant.term()))
        }
        Cond::KindOf(kind, var) => is_kind(kind, value(view, env, var)),
    }
}

/// Whether all the conditions are.
pub fn all_hold<'a, 'n>(view: View<'a, 'n>, env: &Env, conds: &'n [Cond]) -> bool
    requires { EachOnce view.names.now }
    ensures { result ≡ spec.all_hold (beside (row_mapping view.entry.row.now) view.entry.names.now view.entry.graph.now.terms env.now) conds.now }
{
    conds.iter().all(|cond| holds(view, env, cond))
}
