ghost use Rattle.std.specs.Prelude.{◌≡◌};
ghost use Rattle.bye_words.specs.Lines.{example_text};

/// What is wrong with the examples.
#[derive(Debug, Clone, Copy)]
pub enum Example {
    /// There is no wanted row.
    NoWanted,
    /// There are unwanted rows, and the class is optional.
    UnwantedWithOptional,
}

impl Example {
    /// What a line says of it.
    pub fn text(self) -> &'static str
        ensures { result.now ≡ example_text self }
    {
        match self {
            Example::NoWanted => "no wanted row",
            Example::UnwantedWithOptional => "unwanted rows do not go with class optional",
        }
    }
}
