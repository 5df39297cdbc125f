//! Patterns of queries, what their answers are, and the learner of one conjunction.
#![tactic(auto)]

mod apart;
mod candidates;
mod claim;
mod class;
mod cond;
mod constant;
mod kind;
mod laws;
mod learned;
mod learner;
mod level;
mod meeting;
mod node;
mod pattern;
mod printer;
mod ranked;
mod rule;
mod slot;
mod worked;

pub use claim::Claim;
pub use class::Class;
pub use cond::Cond;
pub use constant::Constant;
pub use kind::Kind;
pub use laws::{
    answers_bind_the_tree, answers_of_one_group, bound_is_true, broken_or_designed,
    classes_at_one_node, common_patterns_fit, designed_at_once, domains_by_numbers,
    dropping_keeps_answers, fitting_is_meeting, none_fits_where_uncovered,
};
pub use learned::{Conjunction, Learned};
pub use learner::learn;
pub use level::Level;
pub use node::Node;
pub use pattern::TriplePattern;
pub use rule::Rule;
pub use slot::Slot;
pub use worked::{
    blocks_after_optionals, claims_of_admitted, claims_of_domains, claims_of_extension,
    claims_of_fork, claims_of_no_root, claims_of_uncovered, conditions_are_tried_first,
    designed_trees, errors_drop_rows, optional_answers, optional_classes, place_matters,
    rules_by_place, split_filters, written_texts,
};
