ghost use Rattle.std.specs.Prelude.{◌↔◌, IsTrue};
ghost use Rattle.bye_words.specs.Forms.{IsOneOf};
ghost use Rattle.bye_words.specs.Tables.{names_of};

use crate::kind::Kind;
use crate::word::is_word;
use bye_terms::Text;

/// A name with the kind of its value.
#[derive(Debug, Clone, Copy)]
pub struct Name {
    pub text: &'static str,
    pub kind: Kind,
}

/// Whether the name is one of these, and the value is of its kind.
pub fn are_known(names: &[Name], name: &Text, value: &Text) -> bool
    ensures { IsTrue result ↔ IsOneOf (names_of names.now) (name.now, value.now) }
{
    match names.split_first() {
        Some((first, rest)) => {
            is_word(name, first.text) && first.kind.has(value) || are_known(rest, name, value)
        }
        None => false,
    }
}
