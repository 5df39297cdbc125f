//! Places in a document, and the characters between them.

ghost use Rattle.bye_tsv.specs.DocRuns.{PlaceRuns};
ghost use Rattle.bye_tsv.specs.DocSteps as spec;
ghost use Rattle.std.specs.Prelude.{◌≡◌, IfOk};

use crate::field::FieldAt;
use bye_lex::NameAt;
use bye_terms::{Cursor, Memory};

/// Where in its present line a document was read to.
#[derive(Debug, Drop)]
pub enum Place {
    /// At the front of the document.
    Start,
    /// After a TAB of the header.
    Mark,
    /// In a name of the header, after its mark.
    Name(NameAt),
    /// After a CR that may end the header.
    HeaderReturn,
    /// At the beginning of a later line.
    Begin,
    Field(FieldAt),
    /// After a CR that may end the line of a row.
    Return,
}

impl Place {
    /// Takes what goes on with a field within its token at once.
    pub fn take_run(self, rest: &mut Cursor<'_>) -> Result<Place, Memory>
        ensures { IfOk result (λ at. PlaceRuns self rest.old at rest.new) }
    {
        match self {
            Place::Field(at) => Ok(Place::Field(at.take_run(rest)?)),
            at => Ok(at),
        }
    }
}

/// A TAB, LF or CR.
pub fn is_border(c: char) -> bool
    ensures { result ≡ spec.is_border c }
{
    c == '\t' || c == '\n' || c == '\r'
}

/// The place after the first character of a document.
pub fn first_place(c: char) -> Option<Place>
    ensures { result ≡ spec.first_place c }
{
    match c {
        '?' => Some(Place::Name(NameAt::Start)),
        '\n' => Some(Place::Begin),
        '\r' => Some(Place::HeaderReturn),
        _ => None,
    }
}

/// The place after the mark of a name.
pub fn mark_place(c: char) -> Option<Place>
    ensures { result ≡ spec.mark_place c }
{
    if c == '?' {
        return Some(Place::Name(NameAt::Start));
    }
    None
}

/// The place after a character that ends a name.
pub fn after_name(c: char) -> Option<Place>
    ensures { result ≡ spec.after_name c }
{
    match c {
        '\t' => Some(Place::Mark),
        '\n' => Some(Place::Begin),
        '\r' => Some(Place::HeaderReturn),
        _ => None,
    }
}

/// The place after the LF of a header's CR LF.
pub fn return_place(c: char) -> Option<Place>
    ensures { result ≡ spec.return_place c }
{
    if c == '\n' {
        return Some(Place::Begin);
    }
    None
}
