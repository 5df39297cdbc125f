//! Laws of the definitions, each the contract of a function that does nothing.

ghost use Rattle.bye_ntriples.specs.Canonical.{OneCanonical, CanonicalReadsBack, DocumentsHaveStatements};
ghost use Rattle.bye_ntriples.specs.Laws.{NtAnswersOnce};

/// But for want of memory, a graph document has one answer.
pub fn one_answer()
    ensures { NtAnswersOnce }
{}

/// Triples have one canonical document.
pub fn one_canonical()
    ensures { OneCanonical }
{}

/// The canonical document of triples is a graph document, which has the distinct ones.
pub fn canonical_reads_back()
    ensures { CanonicalReadsBack }
{}

/// The triples of a graph document are triples of terms.
pub fn documents_have_statements()
    ensures { DocumentsHaveStatements }
{}
