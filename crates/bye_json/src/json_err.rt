use bye_terms::Memory;

/// Why bytes are no document of results within the bounds, in the order in which faults are looked for. Numbers count from 1.
#[derive(Debug, Drop)]
pub enum JsonErr {
    /// The bytes are no JSON.
    NotJson,
    /// The value is no object with the lists of variables and of bindings, or it has a member `boolean`.
    NotBindings,
    /// The variable of this number is the first that is no name or a repeat.
    BadVariable(u32),
    /// The row of this number is the first wrong one: it has a name that is no variable.
    Unlisted(u32),
    /// The row of this number is the first wrong one: what stands at the variable of this number is the first that is no term.
    BadTerm(u32, u32),
    TooManyVars,
    TooManyRows,
    Memory,
}

impl From<Memory> for JsonErr {
    ghost use Rattle.bye_json.specs.declared.json_err.JsonErr.TheVariants as faults;
    ghost use Rattle.std.specs.Prelude.{◌≡◌};

    ghost from_gives = { λ _ e. e ≡ faults.Memory };

    fn from(_: Memory) -> Self {
        JsonErr::Memory
    }
}
