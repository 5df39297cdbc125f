ghost use Rattle.std.specs.Prelude.{◌≡◌};
ghost use Rattle.bye_lex.specs.Iris as iris;
ghost use Rattle.bye_lex.specs.Strings as strings;

/// The rules of which format a token follows.
#[derive(Debug, Copy, Clone)]
pub enum Style {
    /// RDF 1.1 N-Triples.
    Triples,
    /// SPARQL 1.1 Query Results TSV Format.
    Tsv,
    /// SPARQL 1.1 Query, which has no escapes of characters by their numbers.
    Query,
}

impl Style {
    /// Whether the style has escapes of characters by their numbers.
    pub fn has_numbers(self) -> bool
        ensures { result ≡ iris.has_numbers self }
    {
        match self {
            Style::Triples | Style::Tsv => true,
            Style::Query => false,
        }
    }

    /// Whether this is TSV.
    pub fn is_tsv(self) -> bool
        ensures { result ≡ strings.is_tsv self }
    {
        matches!(self, Style::Tsv)
    }
}
