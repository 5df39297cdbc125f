use crate::expr::Expr;
use bye_pattern::TriplePattern;
use bye_terms::Var;

/// A part of a group as it is written (SPARQL 1.1 Query, sections 5.2 and 6): triple patterns, an OPTIONAL group, or a FILTER.
#[derive(Debug, Drop)]
pub enum Element {
    Block(Vec<TriplePattern>),
    Optional(Vec<Element>),
    Filter(Expr),
}

/// A SELECT as it is written, with DISTINCT or without, of named variables or of all (`*`), over a group.
#[derive(Debug, Drop)]
pub struct WrittenQuery {
    pub distinct: bool,
    pub vars: Option<Vec<Var>>,
    pub elements: Vec<Element>,
}
