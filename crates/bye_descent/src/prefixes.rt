ghost use Rattle.std.specs.Prelude.{◌≡◌, reverse, IfOk};
ghost use Rattle.std.specs.Option.{option_copied};
ghost use Rattle.std.specs.Str.{bytes_eq};
ghost use Rattle.indexmap.specs.IndexMap.{get};
ghost use Rattle.bye_grammar.specs.Fits as fits;
ghost use Rattle.bye_descent.specs.Declarations.{AreLast};

use crate::named::Named;
use bye_terms::{Iri, Memory, Text};
use indexmap::IndexMap;
use std::alloc::Global;
use std::marker::Model;

/// A prefix that is declared, with its IRI.
#[derive(Debug, Drop)]
pub struct Declared {
    name: Text,
    iri: Iri,
}

impl Model for Declared {
    ghost use Rattle.std.specs.Prelude.{ℕ, List};

    ghost Value = { List ℕ × List ℕ };

    ghost view = { λ d. (d.name, d.iri) };
}

impl Declared {
    /// A prefix and its IRI.
    pub fn new(name: Text, iri: Iri) -> Declared
        ensures { result ≡ (name, iri) }
    {
        Declared { name, iri }
    }

    /// The prefix.
    fn name(&self) -> &Text
        ensures { result.now ≡ self.now.0 }
    {
        &self.name
    }

    /// Its IRI.
    fn iri(&self) -> &Iri
        ensures { result.now ≡ self.now.1 }
    {
        &self.iri
    }
}

/// The number of the last declaration of each prefix.
fn numbers(alloc: Global, declared: &[Declared]) -> Result<IndexMap<Named, usize>, Memory>
    ensures { IfOk result (λ last. AreLast declared.now (get bytes_eq last)) }
{
    let mut last = IndexMap::new(alloc);
    for (number, one) in declared.iter().enumerate() {
        last.insert(Named::copy_of(alloc, one.name())?, number)?;
    }
    Ok(last)
}

/// The prefixes that are declared. Contracts see them with their IRIs, the last first.
#[derive(Drop)]
pub struct Prefixes {
    declared: Vec<Declared>,
    last: IndexMap<Named, usize>,
}

impl Model for Prefixes {
    ghost use Rattle.std.specs.Prelude.{ℕ, List, reverse};
    ghost use Rattle.std.specs.Str.{bytes_eq};
    ghost use Rattle.indexmap.specs.IndexMap.{get};
    ghost use Rattle.bye_descent.specs.Declarations.{AreLast};

    ghost Value = { List (List ℕ × List ℕ) };

    ghost view = { λ p. reverse p.declared.items };

    ghost invariant = { λ p. AreLast p.declared.items (get bytes_eq p.last) };
}

impl Prefixes {
    /// These, of which a later one replaces an earlier one of the same name.
    pub fn new(alloc: Global, declared: Vec<Declared>) -> Result<Prefixes, Memory>
        ensures { IfOk result (λ p. p ≡ reverse declared.items) }
    {
        let last = numbers(alloc, declared.as_slice())?;
        Ok(Prefixes { declared, last })
    }

    /// The IRI of a prefix.
    pub fn look(&self, alloc: Global, name: &Text) -> Result<Option<&Iri>, Memory>
        ensures { IfOk result (λ o. option_copied o ≡ fits.look self.now name.now) }
    {
        let key = Named::copy_of(alloc, name)?;
        let Some(number) = self.last.get(&key) else {
            return Ok(None);
        };
        match self.declared.get(*number) {
            Some(one) => Ok(Some(one.iri())),
            None => Ok(None),
        }
    }
}
