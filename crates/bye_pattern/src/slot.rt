ghost use Rattle.std.specs.Prelude.{◌≡◌, ◌↔◌, IfOk, IsTrue};
ghost use Rattle.bye_pattern.specs.Candidates as spec;

use crate::constant::Constant;
use bye_terms::{Memory, Var};
use std::alloc::Global;

/// What stands in one place of a triple pattern: a variable or a constant (SPARQL 1.1 Query, section 18.1.5).
#[derive(Debug, Drop)]
pub enum Slot {
    Var(Var),
    Const(Constant),
}

impl Slot {
    /// Whether it is a variable.
    pub fn is_var(&self) -> bool
        ensures { result ≡ spec.is_var self.now }
    {
        matches!(self, Slot::Var(_))
    }

    /// Whether the two are the same variable or the same constant.
    pub fn same(&self, other: &Slot) -> bool
        ensures { IsTrue result ↔ (self.now ≡ other.now) }
    {
        match (self, other) {
            (Slot::Var(a), Slot::Var(b)) => a.same(b),
            (Slot::Const(a), Slot::Const(b)) => a.same(b),
            _ => false,
        }
    }

    /// An equal one.
    pub fn copy(&self, alloc: Global) -> Result<Slot, Memory>
        ensures { IfOk result (λ s. s ≡ self.now) }
    {
        match self {
            Slot::Var(v) => Ok(Slot::Var(v.copy(alloc)?)),
            Slot::Const(c) => Ok(Slot::Const(c.copy(alloc)?)),
        }
    }
}
