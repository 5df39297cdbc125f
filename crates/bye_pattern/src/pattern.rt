ghost use Rattle.std.specs.Prelude.{◌≡◌, ◌↔◌, ◌&&◌, IfOk, IfSome, IfNone, IsTrue, true, false};
ghost use Rattle.bye_pattern.specs.Patterns as spec;
ghost use Rattle.bye_pattern.specs.Candidates as candidates;

use crate::slot::Slot;
use bye_terms::{Memory, Term};
use std::alloc::Global;
use std::marker::Model;

/// A triple pattern (SPARQL 1.1 Query, section 18.1.5). A constant subject or predicate is an IRI.
#[derive(Debug, Drop)]
pub struct TriplePattern {
    s: Slot,
    p: Slot,
    o: Slot,
}

impl Model for TriplePattern {
    ghost use Rattle.std.specs.Prelude.{◌≡◌, true};
    ghost use Rattle.bye_pattern.specs.Patterns.{Pattern, is_place};

    ghost Value = { Pattern };

    ghost view = { λ t. record { s = t.s; p = t.p; o = t.o } };

    ghost invariant = { λ t. (is_place t.s ≡ true) × (is_place t.p ≡ true) };
}

/// Whether the place is a variable or an IRI.
fn is_place(slot: &Slot) -> bool
    ensures { result ≡ spec.is_place slot.now }
{
    match slot {
        Slot::Var(_) => true,
        Slot::Const(c) => matches!(c.term(), Term::Iri(_)),
    }
}

impl TriplePattern {
    /// None exactly where the subject or the predicate is a constant but no IRI.
    pub fn of_slots(s: Slot, p: Slot, o: Slot) -> Option<TriplePattern>
        ensures some { IfSome result (λ t. (t ≡ candidates.of_slots s p o) × ((spec.is_place s && spec.is_place p) ≡ true)) }
        ensures none { IfNone result ((spec.is_place s && spec.is_place p) ≡ false) }
    {
        if is_place(&s) && is_place(&p) {
            Some(TriplePattern { s, p, o })
        } else {
            None
        }
    }

    /// The subject, which is a variable or an IRI.
    pub fn s(&self) -> &Slot
        ensures value { result.now ≡ self.now.s }
        ensures place { spec.is_place self.now.s ≡ true }
    {
        &self.s
    }

    /// The predicate, which is a variable or an IRI.
    pub fn p(&self) -> &Slot
        ensures value { result.now ≡ self.now.p }
        ensures place { spec.is_place self.now.p ≡ true }
    {
        &self.p
    }

    /// The object.
    pub fn o(&self) -> &Slot
        ensures { result.now ≡ self.now.o }
    {
        &self.o
    }

    /// Whether the two are the same pattern.
    pub fn same(&self, other: &TriplePattern) -> bool
        ensures { IsTrue result ↔ (self.now ≡ other.now) }
    {
        self.s.same(&other.s) && self.p.same(&other.p) && self.o.same(&other.o)
    }

    /// An equal pattern.
    pub fn copy(&self, alloc: Global) -> Result<TriplePattern, Memory>
        ensures { IfOk result (λ t. t ≡ self.now) }
    {
        let s = self.s.copy(alloc)?;
        let p = self.p.copy(alloc)?;
        let o = self.o.copy(alloc)?;
        Ok(TriplePattern { s, p, o })
    }
}
