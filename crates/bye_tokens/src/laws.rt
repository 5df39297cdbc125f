//! Laws of the definitions, each the contract of a function that does nothing.

ghost use Rattle.bye_tokens.specs.Laws.{OneToken, SplitsOneWay};

/// A text stands for one token.
pub fn one_token()
    ensures { OneToken }
{}

/// The rest of a document splits into the tokens that are read, and into no others.
pub fn splits_one_way()
    ensures { SplitsOneWay }
{}
