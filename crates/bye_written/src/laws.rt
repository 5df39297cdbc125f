//! Laws of written texts, each the contract of a function that does nothing.

ghost use Rattle.bye_written.specs.Laws.{WrittenTextsSplit};

/// The written text of a SELECT splits into its tokens, each the longest that stands there.
pub fn written_texts_split()
    ensures { WrittenTextsSplit }
{}
