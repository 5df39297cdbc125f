//! Laws of the grammar of documents and of its reader, each the contract of a function that does nothing.

ghost use Rattle.bye_grammar.specs.Laws.{
  DocumentsAreRead,
  DocumentsCome,
  DocumentsHaveOneValue,
  DocumentsAreFronts,
  FrontsAreClosed,
  FittingIrisAreRead,
  DocumentsAreValid,
};

/// The reader of documents answers by the grammar: a query that the tokens derive as, the first wrong token, or the
/// bracket that is one too deep.
pub fn documents_are_read()
    ensures { DocumentsAreRead }
{}

/// Whatever derives from Document is read as the query that it stands for, where no bracket is too deep.
pub fn documents_come()
    ensures { DocumentsCome }
{}

/// No list of tokens derives from Document as two queries.
pub fn documents_have_one_value()
    ensures { DocumentsHaveOneValue }
{}

/// Whatever derives from Document is a front of it.
pub fn documents_are_fronts()
    ensures { DocumentsAreFronts }
{}

/// What begins a front of Document is a front of it, so that the first wrong token of a text is one.
pub fn fronts_are_closed()
    ensures { FrontsAreClosed }
{}

/// Whether an IRI reference fits after some tokens is what the reader answers for them and one more.
pub fn fitting_iris_are_read()
    ensures { FittingIrisAreRead }
{}

/// Each query that tokens derive as has valid terms and names, no blank node, no literal as a subject or a predicate,
/// and plain conditions alone in its OPTIONAL groups.
pub fn documents_are_valid()
    ensures { DocumentsAreValid }
{}
