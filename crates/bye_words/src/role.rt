ghost use Rattle.std.specs.Prelude.{◌≡◌};
ghost use Rattle.bye_words.specs.Lines.{role_text};

/// What a document is read as.
#[derive(Debug, Clone, Copy)]
pub enum Role {
    Graph,
    Wanted,
    Unwanted,
    Query,
    Certificate,
    Table,
}

impl Role {
    /// How a line begins that speaks of the document.
    pub fn head(self) -> &'static str
        ensures { result.now ≡ role_text self }
    {
        match self {
            Role::Graph => "graph: ",
            Role::Wanted => "wanted: ",
            Role::Unwanted => "unwanted: ",
            Role::Query => "query: ",
            Role::Certificate => "certificate: ",
            Role::Table => "table: ",
        }
    }
}
