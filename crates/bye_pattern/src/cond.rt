use crate::constant::Constant;
use crate::kind::Kind;
use bye_terms::Var;

/// A plain condition of a FILTER (SPARQL 1.1 Query, sections 17.4.1 and 17.4.2): that a variable is bound, that two
/// variables have the same term, that a variable has this term, or that its term is of a kind.
#[derive(Debug, Drop)]
pub enum Cond {
    Bound(Var),
    SameVar(Var, Var),
    SameConst(Var, Constant),
    KindOf(Kind, Var),
}
