//! The tokens of written query texts (SPARQL 1.1 Query, section 19.8).
#![tactic(auto)]

mod laws;

pub use laws::written_texts_split;
