//! Reading of query texts (SPARQL 1.1 Query, sections 18.2 and 19.8).
#![tactic(auto)]

mod query;
mod query_err;
mod written;

pub use query::read_query;
pub use query_err::QueryErr;

#[cfg(test)]
mod tests;
