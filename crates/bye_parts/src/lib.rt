//! Parts of grammars over tokens, and readers of tokens, as combinators.
#![tactic(auto)]

mod laws;

pub use laws::nests_are_read;
