use crate::claim::Claim;
use crate::pattern::TriplePattern;
use bye_terms::Var;

/// SELECT DISTINCT of these variables over one group of triple patterns.
#[derive(Debug, Drop)]
pub struct Conjunction {
    pub vars: Vec<Var>,
    pub triples: Vec<TriplePattern>,
}

/// What was learned: a query that fits, or why none does.
#[derive(Debug, Drop)]
pub enum Learned {
    Query(Conjunction),
    Refused(Claim),
}
