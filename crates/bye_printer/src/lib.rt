//! The written text of SELECTs (SPARQL 1.1 Query, section 19.8).
#![tactic(auto)]

mod exprs;
mod groups;
mod patterns;
mod selects;

pub use selects::write_query;

#[cfg(test)]
mod tests;
