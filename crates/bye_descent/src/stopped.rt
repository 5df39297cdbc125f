use crate::feature::Feature;
use bye_terms::Memory;

/// Why a text is not read as a query.
#[derive(Debug, Drop)]
pub enum Stopped {
    /// The place in bytes of the first token with which no query goes on, where it is a prefixed name, its prefix is not
    /// declared, and an IRI reference would fit (SPARQL 1.1 Query, section 4.1.1).
    UnknownPrefix(usize),
    /// The place in bytes of the first other token with which no query goes on, or that of the end, and what the token is, where
    /// queries here leave it out.
    WrongToken(usize, Option<Feature>),
    /// The place in bytes of a bracket that is one too deep.
    DeepToken(usize),
    Memory,
}

impl From<Memory> for Stopped {
    ghost use Rattle.bye_descent.specs.declared.stopped.Stopped.TheVariants as stopped;
    ghost use Rattle.std.specs.Prelude.{◌≡◌};

    ghost from_gives = { λ _ e. e ≡ stopped.Memory };

    fn from(_: Memory) -> Self {
        Stopped::Memory
    }
}
