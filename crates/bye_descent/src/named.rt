ghost use Rattle.std.specs.Prelude.{◌≡◌, IfOk};
ghost use Rattle.std.specs.Str.{bytes_eq};
ghost use Rattle.std.specs.Cmp.{partial_equiv_from_equiv};
ghost use Rattle.std.specs.Cmp.Lexicographic.{nat_list_eq_equiv};

use bye_terms::{Memory, Text};
use std::alloc::Global;
use std::hash::{Hash, Hasher};
use std::marker::Model;

/// A name as the key of a table, seen as its characters.
#[derive(Drop)]
pub struct Named {
    text: Text,
}

impl Model for Named {
    ghost use Rattle.std.specs.Prelude.{List, ℕ};

    ghost Value = { List ℕ };

    ghost view = { λ n. n.text };
}

impl Named {
    /// A key of its own for the name.
    pub fn copy_of(alloc: Global, name: &Text) -> Result<Named, Memory>
        ensures { IfOk result (λ n. n ≡ name.now) }
    {
        let text = name.copy(alloc)?;
        Ok(Named { text })
    }
}

impl PartialEq for Named {
    ghost eq = { bytes_eq };

    ghost laws = { partial_equiv_from_equiv nat_list_eq_equiv };

    fn eq(&self, other: &Named) -> bool {
        self.text.same(&other.text)
    }
}

impl Eq for Named {
    ghost laws = { nat_list_eq_equiv };
}

impl Hash for Named {
    ghost use Rattle.std.specs.Hash as fed;
    ghost use Rattle.std.specs.Str.{encode_utf8_all};
    ghost use Rattle.std.proofs.Common.{ap};
    ghost use Rattle.std.specs.Cmp.Lexicographic.{bytes_decides};

    ghost hash_input = { λ n. fed.str (encode_utf8_all n) };

    ghost respects_eq = { λ x y h. ap (λ n. fed.str (encode_utf8_all n)) ((bytes_decides x y).0 h) };

    fn hash<H: Hasher>(&self, state: &mut H) {
        self.text.as_str().hash(state);
    }
}
