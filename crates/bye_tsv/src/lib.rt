//! Tables of bindings as text: TSV, read and written, and CSV, written.
#![tactic(auto)]

mod csv_writer;
mod document;
mod fault;
mod field;
mod laws;
mod measure;
mod number;
mod pieces;
mod place;
mod reader;
mod reading_laws;
#[cfg(test)]
mod tests;
mod tsv_writer;
mod word;
#[cfg(test)]
mod writer_tests;

pub use csv_writer::write_csv;
pub use fault::{Bounds, TsvErr};
pub use laws::one_answer;
pub use pieces::TsvReader;
pub use reader::read_tsv;
pub use reading_laws::{documents_are_tables, one_table};
pub use tsv_writer::write_tsv;
