//! Tokens of query texts (SPARQL 1.1 Query, section 19.8), each the longest that matches.
#![tactic(auto)]

mod classes;
mod escape;
mod front;
mod fronts;
mod kind;
mod laws;
mod machine;
mod name;
mod read;
mod run;
mod scanner;
mod sign;
mod token;
mod tokens;
mod word;

pub use bye_lex::Number;
pub use laws::{one_token, splits_one_way};
pub use name::{Plain, PlainAt};
pub use sign::Sign;
pub use token::{Placed, Token};
pub use tokens::Tokens;
pub use word::Word;

#[cfg(test)]
mod tests;
