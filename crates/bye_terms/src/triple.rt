ghost use Rattle.std.specs.Prelude.{◌≡◌, IsTrue};
ghost use Rattle.bye_terms.specs.Terms.{is_iri_term, is_subject};
ghost use Rattle.bye_terms.specs.Valid.{IsRdfTerm};

use crate::term::Term;
use std::marker::Model;

/// A triple (RDF 1.1 Concepts, section 3.1): its subject is no literal, and its predicate is an IRI.
#[derive(Debug, Drop)]
pub struct Triple {
    pub s: Term,
    pub p: Term,
    pub o: Term,
}

impl Model for Triple {
    ghost use Rattle.std.specs.Prelude.{◌≡◌, true};
    ghost use Rattle.bye_terms.specs.Terms.{Statement, IsTriple};

    ghost Value = { Statement };

    ghost view = { λ t. record { s = t.s; p = t.p; o = t.o } };

    ghost invariant = { λ t. IsTriple (record { s = t.s; p = t.p; o = t.o }) };
}

impl Triple {
    /// The subject, a term of RDF that is no literal.
    pub fn s(&self) -> &Term
        ensures term { result.now ≡ self.now.s }
        ensures valid { IsRdfTerm self.now.s }
        ensures subject { IsTrue (is_subject self.now.s) }
    {
        self.s.as_rdf()
    }

    /// The predicate, a term of RDF that is an IRI.
    pub fn p(&self) -> &Term
        ensures term { result.now ≡ self.now.p }
        ensures valid { IsRdfTerm self.now.p }
        ensures predicate { IsTrue (is_iri_term self.now.p) }
    {
        self.p.as_rdf()
    }

    /// The object, a term of RDF.
    pub fn o(&self) -> &Term
        ensures term { result.now ≡ self.now.o }
        ensures valid { IsRdfTerm self.now.o }
    {
        self.o.as_rdf()
    }
}
