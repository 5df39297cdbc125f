ghost use Rattle.std.specs.Prelude.{◌↔◌, IsTrue};
ghost use Rattle.bye_words.specs.Kinds.{IsOfKind};
ghost use Rattle.bye_words.specs.Tables.{kind_of};

use crate::number::is_number;
use crate::run::{is_host, is_path, is_session};
use crate::word::is_one_of;
use bye_terms::Text;

/// What a value has to be.
#[derive(Debug, Clone, Copy)]
pub enum Kind {
    /// The name of a file: any word, the empty one too.
    File,
    /// One of these words.
    OneOf(&'static [&'static str]),
    /// The decimal digits of a number from the first to the second, without sign and leading zero.
    Number(u64, u64),
    /// The name of a host.
    Host,
    /// A path on a host.
    Path,
    /// The name of a session.
    Session,
}

impl Kind {
    /// Whether the word is a value of this kind.
    pub fn has(&self, word: &Text) -> bool
        ensures { IsTrue result ↔ IsOfKind (kind_of self.now) word.now }
    {
        match self {
            Kind::File => true,
            Kind::OneOf(texts) => is_one_of(word, texts),
            Kind::Number(least, greatest) => is_number(word, *least, *greatest),
            Kind::Host => is_host(word),
            Kind::Path => is_path(word),
            Kind::Session => is_session(word),
        }
    }
}
