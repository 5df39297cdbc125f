//! The rows and answers of queries of OPTIONAL groups against a graph.
#![tactic(auto)]

mod answering;
mod lines;
mod listing;
mod outer;
mod plan;
mod rows;
mod search;
mod task;
mod variables;
mod wanted;

pub use answering::{AnsErr, answers, is_answer, selects};
pub use lines::{Line, Lines, Stop};
pub use listing::table_of;
pub use outer::{expr_value, outer_hold};
pub use variables::{pins, places, tree_names};
