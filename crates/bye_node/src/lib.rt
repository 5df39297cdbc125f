//! One node of a query against a graph: its triple patterns and conditions by numbers of terms, and the values that meet it.
#![tactic(auto)]

mod compile;
mod conds;
mod env;
mod extending;
mod meeting;
mod pin;
mod search;
mod solution;
mod view;

pub use compile::shapes;
pub use conds::all_hold;
pub use env::{Bound, Env, Place, Shape};
pub use extending::{MOST_DEEP, extension};
pub use meeting::node_holds;
pub use pin::{Pin, allows, given, is_shut};
pub use search::{fewest, seek};
pub use solution::first;
pub use view::{View, slot_value, value};

#[cfg(test)]
mod tests;
