//! Rows of tables, sorted sets of rows, and the definitions of mappings and of the domains of examples.
#![tactic(auto)]

mod laws;
mod row;
mod sorted;
mod table;
mod table_err;
#[cfg(test)]
mod tests;

pub use laws::one_sorted_set;
pub use row::Row;
pub use sorted::sorted_set;
pub use table::Table;
pub use table_err::TableErr;
