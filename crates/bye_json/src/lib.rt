//! Query results in JSON, read into tables and written.
#![tactic(auto)]

mod json_err;
mod laws;
mod lists;
mod reader;
mod row_err;
mod rows;
mod term_object;
mod term_writer;
mod variables;
mod writer;

pub use json_err::JsonErr;
pub use laws::{one_answer, one_table, reads_back, sorts_names};
pub use reader::read_json;
pub use writer::write_json;

#[cfg(test)]
mod tests;
