use bye_descent::Feature;
use bye_tree::Shape;

/// Why bytes are not read as a query. Where more than one holds, it is the first of these, but that a bracket which is too deep comes
/// before all that is said of tokens.
#[derive(Debug, Drop)]
pub enum QueryErr {
    /// They are more than 16,777,216.
    TooLong,
    /// They are no UTF-8: the place of the first byte after the longest front of whole characters.
    NotUtf8(usize),
    /// The place in bytes of the first token with which no query goes on, or that of the end.
    Syntax(usize),
    /// The same place, where the token is of a part of SPARQL that queries here leave out.
    LeftOut(usize, Feature),
    /// The same place, where the token is a prefixed name of a prefix that is not declared, and an IRI may stand there.
    UnknownPrefix(usize),
    /// The place in bytes of a bracket before which 64 are open.
    TooDeep(usize),
    /// A group breaks a rule of well-designed trees.
    Broken(Shape),
    /// DISTINCT is missing, and a variable of the groups is not selected.
    Projected,
    Memory,
}
