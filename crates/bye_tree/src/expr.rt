use bye_pattern::{Kind, Slot};
use bye_terms::Var;

/// An expression of a FILTER (SPARQL 1.1 Query, section 17.2): `bound`, `sameTerm`, a kind test, and their negations,
/// conjunctions and disjunctions. A conjunction of more than two has them in one list, and is seen as grouped to the left.
#[derive(Debug, Drop)]
pub enum Expr {
    Bound(Var),
    Same(Slot, Slot),
    KindOf(Kind, Slot),
    Not(Box<Expr>),
    And(Box<Expr>, Vec<Expr>),
    Or(Box<Expr>, Vec<Expr>),
}
