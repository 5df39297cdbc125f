ghost use Rattle.bye_json.specs.PartFaults.{in_row};
ghost use Rattle.std.specs.Prelude.{◌≡◌};

use crate::json_err::JsonErr;
use bye_terms::Memory;

/// Why a binding is no row.
#[derive(Debug, Drop)]
pub enum RowErr {
    /// It has a name that is no variable.
    Unlisted,
    /// What it has for the variable of this number, from 1 on, is the first that is no term object.
    BadTerm(u32),
    Memory,
}

impl RowErr {
    /// The fault of the row of this number, from 1 on.
    pub fn in_row(self, row: u32) -> JsonErr
        ensures { result ≡ in_row row self }
    {
        match self {
            RowErr::Unlisted => JsonErr::Unlisted(row),
            RowErr::BadTerm(variable) => JsonErr::BadTerm(row, variable),
            RowErr::Memory => JsonErr::Memory,
        }
    }
}

impl From<Memory> for RowErr {
    ghost use Rattle.bye_json.specs.declared.row_err.RowErr.TheVariants as faults;
    ghost use Rattle.std.specs.Prelude.{◌≡◌};

    ghost from_gives = { λ _ e. e ≡ faults.Memory };

    fn from(_: Memory) -> Self {
        RowErr::Memory
    }
}
