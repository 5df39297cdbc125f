//! What a rule of the grammar begins with.

ghost use Rattle.std.specs.Prelude.{◌≡◌, ◌∷◌, []};
ghost use Rattle.bye_parts.specs.Readers.{begins};
ghost use Rattle.bye_grammar.specs.Reading.{read_sign, read_word};
ghost use Rattle.bye_grammar.specs.TokenKinds as kinds;
ghost use Rattle.bye_grammar.specs.TokenKinds.{of, a_sign, a_word, subjects, verbs, suffixes, elements};
ghost use Rattle.bye_descent.specs.Told.{Told};

use crate::left::Left;
use crate::stop::Stop;
use crate::token_kind::TokenKind;
use bye_tokens::{Sign, Word};

impl<'a> Left<'a> {
    /// Whether the next token is this sign.
    pub fn begins_with_sign(&self, sign: Sign) -> bool
        ensures { result ≡ begins (of (a_sign sign)) self.now }
    {
        self.begins(&[TokenKind::Mark(sign)])
    }

    /// Whether the next token is this word.
    pub fn begins_with_word(&self, word: Word) -> bool
        ensures { result ≡ begins (of (a_word word)) self.now }
    {
        self.begins(&[TokenKind::Keyword(word)])
    }

    /// Whether the next token is a variable.
    pub fn begins_with_variable(&self) -> bool
        ensures { result ≡ begins (of (kinds.Variable ∷ [])) self.now }
    {
        self.begins(&[TokenKind::Variable])
    }

    /// Whether the next token is a string.
    pub fn begins_with_string(&self) -> bool
        ensures { result ≡ begins (of (kinds.Quoted ∷ [])) self.now }
    {
        self.begins(&[TokenKind::Quoted])
    }

    /// Whether the next token is a language tag.
    pub fn begins_with_tag(&self) -> bool
        ensures { result ≡ begins (of (kinds.Tagged ∷ [])) self.now }
    {
        self.begins(&[TokenKind::Tagged])
    }

    /// Whether the next token goes on with a string, as a tag or before a datatype.
    pub fn begins_with_suffix(&self) -> bool
        ensures { result ≡ begins (of suffixes) self.now }
    {
        self.begins(&[TokenKind::Tagged, TokenKind::Mark(Sign::Carets)])
    }

    /// Whether a subject may begin with the next token.
    pub fn begins_with_subject(&self) -> bool
        ensures { result ≡ begins (of subjects) self.now }
    {
        self.begins(&[TokenKind::Variable, TokenKind::IriRef, TokenKind::Prefixed])
    }

    /// Whether a verb may begin with the next token.
    pub fn begins_with_verb(&self) -> bool
        ensures { result ≡ begins (of verbs) self.now }
    {
        self.begins(&[
            TokenKind::Keyword(Word::A),
            TokenKind::Variable,
            TokenKind::IriRef,
            TokenKind::Prefixed,
        ])
    }

    /// Whether the next token begins an element that is no block.
    pub fn begins_with_element(&self) -> bool
        ensures { result ≡ begins (of elements) self.now }
    {
        self.begins(&[
            TokenKind::Keyword(Word::Optional),
            TokenKind::Keyword(Word::Filter),
        ])
    }

    /// Takes this sign.
    pub fn take_sign(&mut self, sign: Sign) -> Result<(), Stop>
        ensures { Told result self.new (read_sign sign self.old) }
    {
        self.take(TokenKind::Mark(sign))
    }

    /// Takes this word.
    pub fn take_word(&mut self, word: Word) -> Result<(), Stop>
        ensures { Told result self.new (read_word word self.old) }
    {
        self.take(TokenKind::Keyword(word))
    }
}
