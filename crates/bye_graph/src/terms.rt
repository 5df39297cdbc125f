ghost use Rattle.std.specs.Prelude.{◌≡◌, ◌+◌, ◌<◌, ◌^◌, ◌++◌, ◌∷◌, ◌⊎◌, [], IfOk, MatchOption, Some, length, slice_get, take};
ghost use Rattle.bye_terms.specs.Members.{In, EachOnce};

use bye_terms::{Memory, Term};
use indexmap::IndexSet;
use std::alloc::Global;
use std::marker::Model;

/// Distinct terms, each with the number of its place.
#[derive(Drop)]
pub struct Terms {
    set: IndexSet<Term>,
}

impl Model for Terms {
    ghost use Rattle.std.specs.Prelude.{List, length, ◌<◌, ◌^◌};
    ghost use Rattle.bye_terms.specs.Members.{EachOnce};
    ghost use Rattle.bye_terms.specs.declared.term.Term.{Term};

    ghost Value = { List Term };

    ghost view = { λ t. t.set.keys };

    ghost invariant = { λ t. EachOnce t.set.keys × (length t.set.keys < 2 ^ 32) };
}

impl Terms {
    /// No terms.
    pub fn new(alloc: Global) -> Terms
        ensures { result ≡ [] }
    {
        Terms {
            set: IndexSet::new(alloc),
        }
    }

    /// The number of the term, which is kept at the end if it is new.
    pub fn number(&mut self, term: Term) -> Result<u32, Memory>
        requires { length self.old + 1 < 2 ^ 32 }
        ensures number { IfOk result (λ number. slice_get self.new number ≡ Some term) }
        ensures grows { (self.new ≡ self.old) ⊎ (self.new ≡ self.old ++ term ∷ []) }
        ensures once { EachOnce self.new }
    {
        let (number, _) = self.set.insert_full(term)?;
        Ok(number as u32)
    }

    /// The number of the term. None exactly where it has none.
    pub fn id_of(&self, term: &Term) -> Option<u32>
        ensures { MatchOption result (In self.now term.now → ⊥) (λ number. slice_get self.now number ≡ Some term.now) }
    {
        match self.set.get_index_of(term) {
            Some(number) => Some(number as u32),
            None => None,
        }
    }

    /// The term of a number that is used.
    pub fn term(&self, number: u32) -> &Term
        requires { number < length self.now }
        ensures { slice_get self.now number ≡ Some result.now }
    {
        &self.set.as_slice()[number as usize]
    }

    /// How many terms there are.
    pub fn count(&self) -> u32
        ensures count { result ≡ length self.now }
        ensures once { EachOnce self.now }
    {
        self.set.len() as u32
    }

    /// Drops the terms from a number on.
    pub fn truncate(&mut self, count: u32)
        ensures { self.new ≡ take count self.old }
    {
        self.set.truncate(count as usize);
    }
}
