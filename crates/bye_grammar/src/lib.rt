//! The grammar of query documents over tokens (SPARQL 1.1 Query, section 19.8), and what its list readers read.
#![tactic(auto)]

mod laws;
mod place;
mod worked;

pub use laws::{
    documents_are_fronts, documents_are_read, documents_are_valid, documents_come,
    documents_have_one_value, fitting_iris_are_read, fronts_are_closed,
};
pub use place::Place;
pub use worked::worked_documents;
