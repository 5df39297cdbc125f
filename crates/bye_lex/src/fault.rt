use bye_terms::Memory;

/// Why no token was read.
#[derive(Debug, Drop)]
pub enum LexErr {
    /// No continuation is a token, from the character at this place in bytes on.
    NoToken(usize),
    /// What is there until the end is no token, and some continuation of it is one.
    Cut,
    /// Memory was refused.
    Memory,
}

impl From<Memory> for LexErr {
    ghost use Rattle.bye_lex.specs.declared.fault.LexErr.TheVariants as faults;
    ghost use Rattle.std.specs.Prelude.{◌≡◌};

    ghost from_gives = { λ _ e. e ≡ faults.Memory };

    fn from(_: Memory) -> Self {
        LexErr::Memory
    }
}
