//! Laws of the whole problem, over the definitions of queries, answers, classes and certificates: each the contract of a
//! function that does nothing.
#![tactic(auto)]

mod claims;
mod domains;
mod keeping;
mod orders;
mod rows;
mod starts;
mod worked;
mod written;

pub use claims::{
    certificates_are_enough, certificates_are_sound, claims_by_lists, first_claims,
    values_are_listed,
};
pub use domains::{
    domain_nodes_are_told, domain_trees_by_claims, domain_trees_by_depth, queries_are_over_domains,
};
pub use keeping::{
    kept_is_minimal, kept_is_one, local_pass_keeps, local_questions, passes_are_local,
    passes_keep_right, settling, something_is_kept,
};
pub use orders::{one_pattern, sorted_lists_are_one_and_there};
pub use rows::{
    answers_are_restricted_rows, answers_by_node, no_values_by_rows, rows_by_descending,
    rows_by_reaching, steps_by_values,
};
pub use starts::{
    near_is_enough, none_fits_as_the_start, start_answers_are_shared, starts_are_right,
    starts_are_there_and_one, starts_by_covering, starts_fit_if_any, strongest_nodes,
};
pub use worked::{kind_tests_are_kept, mails_are_kept, outer_patterns_are_kept};
pub use written::{
    broken_or_designed_early, early_is_designed, gathered_selects, read_as_selects, read_back,
    written_answers,
};
