//! Laws of reading back, each the contract of a function that does nothing.

ghost use Rattle.bye_readback.specs.Laws.{WrittenTextsAreRead, WrittenTokensDerive};

use bye_laws::read_back;
use bye_written::written_texts_split;

/// The tokens of a written SELECT derive from Document as the query that it is written as.
pub fn written_tokens_derive()
    ensures { WrittenTokensDerive }
{}

/// The written text of a SELECT is a document that is read as this SELECT: it splits into its tokens, these derive, and
/// the query that they derive as is read back.
pub fn written_texts_are_read()
    ensures { WrittenTextsAreRead }
{
    written_texts_split();
    read_back();
}
