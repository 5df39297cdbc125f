use bye_terms::Memory;

/// Why a graph document was not read.
#[derive(Debug, Clone, Copy)]
pub enum NtErr {
    /// No document begins so, from the character at this place in bytes on; or it ends at this place and is none.
    Syntax(usize),
    /// What stands at this place in bytes is no character of UTF-8.
    NotUtf8(usize),
    /// There are more than 1,048,576 triples.
    TooMany,
    /// Memory was refused.
    Memory,
}

impl From<Memory> for NtErr {
    ghost use Rattle.bye_ntriples.specs.declared.fault.NtErr.TheVariants as faults;
    ghost use Rattle.std.specs.Prelude.{◌≡◌};

    ghost from_gives = { λ _ e. e ≡ faults.Memory };

    fn from(_: Memory) -> Self {
        NtErr::Memory
    }
}
