ghost use Rattle.std.specs.Prelude.{◌≡◌, ◌↔◌, IfOk, IfSome, IfNone, IsTrue, true, false};
ghost use Rattle.bye_terms.specs.Terms.{is_blank};

use bye_terms::{Memory, Term};
use std::alloc::Global;
use std::marker::Model;

/// A term that is no blank node, as it may stand in a query.
#[derive(Debug, Drop)]
pub struct Constant {
    term: Term,
}

impl Model for Constant {
    ghost use Rattle.std.specs.Prelude.{◌≡◌, false};
    ghost use Rattle.bye_terms.specs.declared.term.Term.{Term};
    ghost use Rattle.bye_terms.specs.Terms.{is_blank};

    ghost Value = { Term };

    ghost view = { λ c. c.term };

    ghost invariant = { λ c. is_blank c.term ≡ false };
}

impl Constant {
    /// None exactly at a blank node.
    pub fn of_term(term: Term) -> Option<Constant>
        ensures some { IfSome result (λ c. (c ≡ term) × (is_blank term ≡ false)) }
        ensures none { IfNone result (is_blank term ≡ true) }
    {
        match term {
            Term::Blank(_) => None,
            Term::Iri(iri) => Some(Constant {
                term: Term::Iri(iri),
            }),
            Term::Lit(literal) => Some(Constant {
                term: Term::Lit(literal),
            }),
        }
    }

    /// The term, which is no blank node.
    pub fn term(&self) -> &Term
        ensures term { result.now ≡ self.now }
        ensures named { is_blank self.now ≡ false }
    {
        &self.term
    }

    /// Whether the two are the same term.
    pub fn same(&self, other: &Constant) -> bool
        ensures { IsTrue result ↔ (self.now ≡ other.now) }
    {
        self.term.same(&other.term)
    }

    /// An equal constant.
    pub fn copy(&self, alloc: Global) -> Result<Constant, Memory>
        ensures { IfOk result (λ c. c ≡ self.now) }
    {
        let term = self.term.copy(alloc)?;
        Ok(Constant { term })
    }
}
