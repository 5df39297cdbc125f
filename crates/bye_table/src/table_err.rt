use bye_terms::Memory;

/// Why a table was not made, or a row not added.
#[derive(Debug, Drop)]
pub enum TableErr {
    /// A variable stands twice among those of the table.
    Repeated,
    /// The row binds a variable that is not one of the table's.
    Foreign,
    Memory,
}

impl From<Memory> for TableErr {
    ghost use Rattle.bye_table.specs.declared.table_err.TableErr.TheVariants as faults;
    ghost use Rattle.std.specs.Prelude.{◌≡◌};

    ghost from_gives = { λ _ e. e ≡ faults.Memory };

    fn from(_: Memory) -> Self {
        TableErr::Memory
    }
}
