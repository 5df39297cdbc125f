//! The words of the command line, the statuses, why there is no answer, and the lines that say so.
#![tactic(auto)]

mod count;
mod example;
mod fault;
mod form;
mod form_name;
mod kind;
mod line;
mod more;
mod name;
mod number;
mod piece;
mod reading;
mod refusal;
mod remote;
mod reply_fault;
mod role;
mod rule;
mod run;
mod sending;
mod settings;
mod status;
mod table;
#[cfg(test)]
mod tests;
mod told;
mod word;

pub use count::Count;
pub use example::Example;
pub use fault::Fault;
pub use form::Form;
pub use form_name::FormName;
pub use kind::Kind;
pub use name::Name;
pub use reading::{Reading, read_words};
pub use refusal::Refusal;
pub use remote::Remote;
pub use reply_fault::ReplyFault;
pub use role::Role;
pub use rule::Rule;
pub use sending::send_line;
pub use settings::Settings;
pub use status::Status;
pub use table::forms;
pub use word::is_word;
