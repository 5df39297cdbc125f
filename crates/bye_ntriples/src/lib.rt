//! Graph documents, read into triples and written.
#![tactic(auto)]

mod document;
mod fault;
mod keys;
mod laws;
mod line;
mod line_slot;
mod line_triple;
mod pieces;
mod plain;
mod reader;
mod subject;
mod writer;

pub use fault::NtErr;
pub use laws::{canonical_reads_back, documents_have_statements, one_answer, one_canonical};
pub use pieces::NtReader;
pub use reader::read_triples;
pub use writer::write_triples;

#[cfg(test)]
mod tests;
#[cfg(test)]
mod writer_tests;
