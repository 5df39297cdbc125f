//! All that some rows have in common in a graph: the triple patterns and conditions that hold in each of them.
#![tactic(auto)]

mod candidates;
mod conditions;
mod fewest;
mod gather;
mod line;
mod numbers;
mod patterns;
mod ranked;
mod restrictions;
mod shape;

pub use gather::strongest;

#[cfg(test)]
mod tests;
