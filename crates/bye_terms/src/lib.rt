//! Terms, triples and variables of RDF, and the byte order of their spellings.
#![tactic(auto)]

pub mod characters;
mod cursor;
mod iri;
mod label;
mod literal;
mod memory;
mod reading;
mod rules;
mod spelling;
mod tag;
mod term;
mod text;
mod triple;
mod var;

pub use cursor::Cursor;
pub use iri::Iri;
pub use label::Label;
pub use literal::Literal;
pub use memory::{Memory, push_item};
pub use reading::raw_iri;
pub use tag::Tag;
pub use term::Term;
pub use text::Text;
pub use triple::Triple;
pub use var::Var;
