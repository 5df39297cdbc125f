ghost use Rattle.bye_ntriples.specs.Triples.{triple_of};
ghost use Rattle.std.specs.Prelude.{◌≡◌};

use crate::subject::Subject;
use bye_terms::{Iri, Term, Triple};
use std::marker::Model;

/// A triple as a line tells it: its subject, its predicate and its object, each of a type that may stand there.
#[derive(Debug, Drop)]
pub struct LineTriple {
    s: Subject,
    p: Iri,
    o: Term,
}

impl Model for LineTriple {
    ghost use Rattle.bye_terms.specs.Terms.{Statement};
    ghost use Rattle.bye_ntriples.specs.Triples.{triple_of};

    ghost Value = { Statement };

    ghost view = { λ t. triple_of t.s t.p t.o };
}

impl LineTriple {
    /// The triple of these three.
    pub fn new(s: Subject, p: Iri, o: Term) -> LineTriple
        ensures { result ≡ triple_of s p o }
    {
        LineTriple { s, p, o }
    }

    /// The triple.
    pub fn into_triple(self) -> Triple
        ensures { result ≡ self }
    {
        Triple {
            s: self.s.into_term(),
            p: Term::Iri(self.p),
            o: self.o,
        }
    }
}
