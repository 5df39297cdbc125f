ghost use Rattle.std.specs.Prelude.{◌≡◌, [], IfOk, MatchOption, OnOk, Some, map, slice_get};
ghost use Rattle.bye_terms.specs.Members.{In};
ghost use Rattle.std.specs.Str.{bytes_eq};
ghost use Rattle.std.specs.Cmp.{partial_equiv_from_equiv};
ghost use Rattle.std.specs.Cmp.Lexicographic.{nat_list_eq_equiv};
ghost use Rattle.bye_table.specs.Mappings.{is_in};
ghost use Rattle.bye_pattern.specs.Patterns.{slot_vars, vars, all_vars};
ghost use Rattle.bye_tree.specs.Names.{with_name, with_names};

use bye_pattern::{Slot, TriplePattern};
use bye_terms::{Memory, Var, push_item};
use indexmap::IndexSet;
use std::alloc::Global;
use std::hash::{Hash, Hasher};
use std::marker::Model;

/// A variable as the key of a set, seen as its name.
#[derive(Drop)]
pub struct Named<'a> {
    var: &'a Var,
}

impl<'a> Model for Named<'a> {
    ghost use Rattle.std.specs.Prelude.{List, ℕ};

    ghost Value = { List ℕ };

    ghost view = { λ n. n.var.now };
}

impl<'a> Named<'a> {
    /// The variable.
    pub fn var(&self) -> &'a Var
        ensures { result.now ≡ self.now }
    {
        self.var
    }
}

impl<'a> PartialEq for Named<'a> {
    ghost eq = { bytes_eq };

    ghost laws = { partial_equiv_from_equiv nat_list_eq_equiv };

    fn eq(&self, other: &Named<'a>) -> bool {
        self.var.same(other.var)
    }
}

impl<'a> Eq for Named<'a> {
    ghost laws = { nat_list_eq_equiv };
}

impl<'a> Hash for Named<'a> {
    ghost use Rattle.std.specs.Hash as fed;
    ghost use Rattle.std.specs.Str.{encode_utf8_all};
    ghost use Rattle.std.proofs.Common.{ap};
    ghost use Rattle.std.specs.Cmp.Lexicographic.{bytes_decides};

    ghost hash_input = { λ n. fed.str (encode_utf8_all n) };

    ghost respects_eq = { λ x y h. ap (λ n. fed.str (encode_utf8_all n)) ((bytes_decides x y).0 h) };

    fn hash<H: Hasher>(&self, state: &mut H) {
        self.var.name().as_str().hash(state);
    }
}

/// A set of names, seen as the list of them in the order in which they came.
#[derive(Drop)]
pub struct Names<'a> {
    set: IndexSet<Named<'a>>,
}

impl<'a> Model for Names<'a> {
    ghost use Rattle.std.specs.Prelude.{List};
    ghost use Rattle.bye_table.specs.Mappings.{Name};

    ghost Value = { List Name };

    ghost view = { λ n. n.set.keys };
}

impl<'a> Names<'a> {
    /// No names.
    pub fn new(alloc: Global) -> Names<'a>
        ensures { result ≡ [] }
    {
        Names {
            set: IndexSet::new(alloc),
        }
    }

    /// Whether the name is one of these.
    pub fn contains(&self, var: &'a Var) -> bool
        ensures { result ≡ is_in self.now var.now }
    {
        self.set.contains(&Named { var })
    }

    /// The place of the name: None exactly where it is not one of these.
    pub fn position(&self, var: &'a Var) -> Option<usize>
        ensures { MatchOption result (In self.now var.now → ⊥) (λ place. slice_get self.now place ≡ Some var.now) }
    {
        self.set.get_index_of(&Named { var })
    }

    /// Puts the name last, where it is not one of these.
    pub fn insert(&mut self, var: &'a Var) -> Result<(), Memory>
        ensures { OnOk result (self.new ≡ with_name self.old var.now) }
    {
        self.set.insert(Named { var })?;
        Ok(())
    }

    /// The names in their order.
    pub fn as_slice(&self) -> &[Named<'a>]
        ensures { result.now ≡ self.now }
    {
        self.set.as_slice()
    }

    /// Puts the variable of a place in, where it is one.
    fn insert_slot(&mut self, slot: &'a Slot) -> Result<(), Memory>
        ensures { OnOk result (self.new ≡ with_names self.old (slot_vars slot.now)) }
    {
        match slot {
            Slot::Var(var) => self.insert(var),
            Slot::Const(_) => Ok(()),
        }
    }

    /// Puts the variables of a triple pattern in.
    #[tactic(auto, using(crate::proofs::Joining::names_join))]
    fn insert_pattern(&mut self, pattern: &'a TriplePattern) -> Result<(), Memory>
        ensures { OnOk result (self.new ≡ with_names self.old (vars pattern.now)) }
    {
        self.insert_slot(pattern.s())?;
        self.insert_slot(pattern.p())?;
        self.insert_slot(pattern.o())
    }

    /// Puts the variables of triple patterns in.
    #[tactic(auto, using(crate::proofs::Joining::names_join))]
    pub fn insert_triples(&mut self, triples: &'a [TriplePattern]) -> Result<(), Memory>
        ensures { OnOk result (self.new ≡ with_names self.old (all_vars triples.now)) }
    {
        for pattern in triples {
            self.insert_pattern(pattern)?;
        }
        Ok(())
    }

    /// The set of these names.
    pub fn of_vars(alloc: Global, vars: &[&'a Var]) -> Result<Names<'a>, Memory>
        ensures { IfOk result (λ names. names ≡ with_names [] (map (λ v. v.now) vars.now)) }
    {
        let mut names = Names::new(alloc);
        for var in vars {
            names.insert(var)?;
        }
        Ok(names)
    }

    /// The names as variables of their own.
    pub fn to_vars(&self, alloc: Global) -> Result<Vec<Var>, Memory>
        ensures { IfOk result (λ vars. vars.items ≡ self.now) }
    {
        let mut vars = Vec::new(alloc);
        for name in self.as_slice() {
            push_item(&mut vars, name.var().copy(alloc)?)?;
        }
        Ok(vars)
    }
}
