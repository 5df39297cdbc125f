//! Queries of OPTIONAL groups: expressions, well-designed trees, selects, and how a written query is read as one.
#![tactic(auto)]

mod early;
mod expr;
mod gather_err;
mod gathers;
mod judge;
mod names;
mod select;
mod shape;
mod tree;
mod written;

pub use expr::Expr;
pub use gather_err::GatherErr;
pub use gathers::gather;
pub use names::{Named, Names};
pub use select::Select;
pub use shape::{Shape, ShapeErr};
pub use tree::Tree;
pub use written::{Element, WrittenQuery};
