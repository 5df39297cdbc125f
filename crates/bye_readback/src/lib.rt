//! Written query texts are read back.
#![tactic(auto)]

mod laws;

pub use laws::{written_texts_are_read, written_tokens_derive};
