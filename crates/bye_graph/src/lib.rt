//! A graph in memory: its terms by numbers, and its triples in three sorted orders.
#![tactic(auto)]

mod builder;
mod entry;
mod found;
mod graph;
mod search;
mod sorting;
mod span;
mod steps;
mod terms;

pub use builder::GraphBuilder;
pub use found::Found;
pub use graph::Graph;
pub use steps::Steps;
