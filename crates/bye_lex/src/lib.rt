//! Tokens of RDF's text formats, each read exactly: IRIs, strings, labels of blank nodes, language tags, names of
//! variables and numbers; and the written spelling of terms.
#![tactic(auto)]

mod class;
mod dots;
mod escape;
mod fault;
mod iri;
mod label;
mod laws;
mod machine;
mod measure;
mod name;
mod number;
mod place;
mod quoting;
mod run;
mod scanner;
mod scheme;
mod stepped;
mod string;
mod style;
mod subtagged;
mod tag;
mod utf8;
mod write;

pub use class::{Class, InIri, InString};
pub use dots::Dots;
pub use escape::{EscapeAt, EscapeStep, Home};
pub use fault::LexErr;
pub use iri::{IriAt, iri_at};
pub use label::{LabelAt, label_at};
pub use laws::{one_answer, one_term, reads_back};
pub use machine::{Machine, read_token};
pub use measure::size;
pub use name::{NameAt, name_at};
pub use number::{Number, NumberAt};
pub use quoting::{Quote, Quoting};
pub use run::cut_run;
pub use scanner::Scanner;
pub use scheme::Scheme;
pub use stepped::Stepped;
pub use string::{StringAt, string_at};
pub use style::Style;
pub use subtagged::Subtagged;
pub use tag::{TagAt, tag_at};
pub use utf8::{Decoded, decode, may_go_on_in_label};
pub use write::{push_term, written_as_ordered};

#[cfg(test)]
mod tests;
#[cfg(test)]
mod utf8_tests;
#[cfg(test)]
mod write_tests;
