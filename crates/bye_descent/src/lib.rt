//! Reading of the tokens of query texts by recursive descent (SPARQL 1.1 Query, section 19.8).
#![tactic(auto)]

mod begins;
mod document;
mod exprs;
mod feature;
mod filter;
mod group;
mod iris;
mod left;
mod named;
mod names;
mod prefixes;
mod read;
mod singles;
mod slots;
mod stop;
mod stopped;
mod token_kind;
mod triples;
mod unknown;

pub use feature::Feature;
pub use read::read_written;
pub use stopped::Stopped;

#[cfg(test)]
mod tests;
