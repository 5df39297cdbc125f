use crate::sign::Sign;
use crate::word::Word;
use bye_lex::Number;
use bye_terms::{Tag, Text, Var};

/// A token of a query text, with what it stands for (SPARQL 1.1 Query, section 19.8).
#[derive(Debug, Drop)]
pub enum Token {
    /// An IRI reference: what stands between its brackets. It may have no scheme.
    IriRef(Text),
    /// A prefixed name: its prefix, and its local part without the backslashes of escapes.
    Prefixed(Text, Text),
    /// A variable, without its mark.
    Variable(Var),
    /// A string: what it stands for.
    Quoted(Text),
    /// A language tag, without its mark.
    Tagged(Tag),
    /// A number, as it is spelled.
    Numeral(Number, Text),
    Keyword(Word),
    Mark(Sign),
    /// A character with which no token begins.
    Bad(char),
}

/// A token with its place in bytes.
#[derive(Debug, Drop)]
pub struct Placed {
    pub place: usize,
    pub token: Token,
}
