ghost use Rattle.std.specs.Prelude.{◌≡◌};
ghost use Rattle.bye_words.specs.Lines.{rule_text};

/// A rule of well-designed trees that a node of a query breaks.
#[derive(Debug, Clone, Copy)]
pub enum Rule {
    NoTriples,
    NoNewVariable,
    NotWellDesigned,
    UnsafeCondition,
}

impl Rule {
    /// What a line says of it.
    pub fn text(self) -> &'static str
        ensures { result.now ≡ rule_text self }
    {
        match self {
            Rule::NoTriples => "no triples",
            Rule::NoNewVariable => "no new variable",
            Rule::NotWellDesigned => "not well-designed",
            Rule::UnsafeCondition => "unsafe condition",
        }
    }
}
