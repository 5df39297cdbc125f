ghost use Rattle.std.specs.Prelude.{◌≡◌};
ghost use Rattle.bye_grammar.specs.TokenKinds.{number};
ghost use Rattle.bye_descent.specs.KindViews.{seen};

use bye_tokens::{Sign, Word};

/// A kind of token that begins a rule of the grammar: each word and each sign is one of its own.
#[derive(Debug, Copy, Clone)]
pub enum TokenKind {
    IriRef,
    Prefixed,
    Variable,
    Quoted,
    Tagged,
    Keyword(Word),
    Mark(Sign),
}

impl TokenKind {
    /// A number for each kind.
    pub fn number(self) -> u8
        ensures { result ≡ number (seen self) }
    {
        match self {
            TokenKind::IriRef => 0,
            TokenKind::Prefixed => 1,
            TokenKind::Variable => 2,
            TokenKind::Quoted => 3,
            TokenKind::Tagged => 4,
            TokenKind::Keyword(word) => word.kind(),
            TokenKind::Mark(sign) => sign.kind(),
        }
    }
}
