use bye_terms::Memory;

/// The greatest numbers of variables and rows that a reader takes.
#[derive(Debug, Clone, Copy)]
pub struct Bounds {
    pub vars: u32,
    pub rows: u32,
}

/// Why a table document was not read.
#[derive(Debug, Clone, Copy)]
pub enum TsvErr {
    /// What stands at this place in bytes is no character of UTF-8.
    NotUtf8(usize),
    /// In the first line no document goes on so, from the character at this place in bytes on; or it ends there and is none.
    Header(usize),
    /// The same in a later line, where no field ends at this place.
    Term(usize),
    /// In the line of this number, the first being 1, a field ends where another has to follow or none may.
    Fields(u64),
    /// There are more variables than the bound.
    TooManyVars,
    /// There are more rows than the bound.
    TooManyRows,
    /// Memory was refused.
    Memory,
}

impl From<Memory> for TsvErr {
    ghost use Rattle.bye_tsv.specs.declared.fault.TsvErr.TheVariants as faults;
    ghost use Rattle.std.specs.Prelude.{◌≡◌};

    ghost from_gives = { λ _ e. e ≡ faults.Memory };

    fn from(_: Memory) -> Self {
        TsvErr::Memory
    }
}
