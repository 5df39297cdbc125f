ghost use Rattle.std.specs.Prelude.{◌≡◌};
ghost use Rattle.bye_words.specs.Lines.{count_text};

/// What there is more of than its limit.
#[derive(Debug, Clone, Copy)]
pub enum Count {
    Bytes,
    Triples,
    Variables,
    Rows,
    Brackets,
}

impl Count {
    /// What a line says of it.
    pub fn text(self) -> &'static str
        ensures { result.now ≡ count_text self }
    {
        match self {
            Count::Bytes => "too many bytes",
            Count::Triples => "too many triples",
            Count::Variables => "too many variables",
            Count::Rows => "too many rows",
            Count::Brackets => "too many brackets",
        }
    }
}
