ghost use Rattle.bye_terms.specs.declared.term.Term.TheVariants as terms;
ghost use Rattle.std.specs.Prelude.{◌≡◌};

use bye_terms::{Iri, Label, Term};
use std::marker::Model;

/// A term that may be a subject: an IRI or a blank node (RDF 1.1 Concepts, section 3.1).
#[derive(Debug, Drop)]
pub struct Subject {
    term: Term,
}

impl Model for Subject {
    ghost use Rattle.std.specs.Prelude.{◌≡◌, true};
    ghost use Rattle.bye_terms.specs.Terms.{is_subject};
    ghost use Rattle.bye_terms.specs.declared.term.Term.{Term};

    ghost Value = { Term };

    ghost view = { λ s. s.term };

    ghost invariant = { λ s. is_subject s.term ≡ true };
}

impl Subject {
    /// An IRI.
    pub fn iri(iri: Iri) -> Subject
        ensures { result ≡ terms.Iri iri }
    {
        Subject {
            term: Term::Iri(iri),
        }
    }

    /// A blank node.
    pub fn blank(label: Label) -> Subject
        ensures { result ≡ terms.Blank label }
    {
        Subject {
            term: Term::Blank(label),
        }
    }

    /// The term, given up.
    pub fn into_term(self) -> Term
        ensures { result ≡ self }
    {
        self.term
    }
}
