ghost use Rattle.std.specs.Prelude.{◌≡◌, ◌∷◌, ◌++◌, [], Some, IfOk, OnOk, MatchOption, map};
ghost use Rattle.std.specs.Option.{option_map};
ghost use Rattle.bye_parts.specs.Readers.{begins};
ghost use Rattle.bye_parts.specs.Sets.{has};
ghost use Rattle.bye_tokens.specs.Left.{first_in};
ghost use Rattle.bye_grammar.specs.Fits.{fixed};
ghost use Rattle.bye_grammar.specs.Reading.{read_one};
ghost use Rattle.bye_grammar.specs.TokenKinds.{of, numbers};
ghost use Rattle.bye_descent.specs.Ending as spec;
ghost use Rattle.bye_descent.specs.KindViews.{seen};
ghost use Rattle.bye_descent.specs.Places.{after, place_in};
ghost use Rattle.bye_descent.specs.Told.{Told};

use crate::stop::Stop;
use crate::token_kind::TokenKind;
use bye_terms::Memory;
use bye_tokens::{Placed, Token, Tokens};
use std::marker::Model;

/// The tokens that are left of a text. Reading may end at a limit in the text, with one token of its own after those before it.
#[derive(Drop)]
pub struct Left<'a> {
    tokens: Tokens<'a>,
    limit: Option<usize>,
    last: Option<Placed>,
}

impl<'a> Model for Left<'a> {
    ghost use Rattle.std.specs.Prelude.{◌++◌, List};
    ghost use Rattle.bye_tokens.specs.declared.token.Placed.{Placed};
    ghost use Rattle.bye_descent.specs.Ending.{listed, up_to};

    ghost Value = { List Placed };

    ghost view = { λ l. up_to l.limit l.tokens.placed ++ listed l.last };
}

/// Whether there is a next token before the limit.
fn goes_on(tokens: &Tokens<'_>, limit: Option<usize>) -> bool
    ensures { result ≡ spec.goes_on limit tokens.now.placed }
{
    match limit {
        Some(limit) => tokens.peek().is_some() && tokens.place() < limit,
        None => tokens.peek().is_some(),
    }
}

/// Whether the number is that of one of the kinds.
fn is_one_of(kinds: &[TokenKind], number: u8) -> bool
    ensures { result ≡ has (numbers (map seen kinds.now)) number }
{
    for kind in kinds {
        if kind.number() == number {
            return true;
        }
    }
    false
}

impl<'a> Left<'a> {
    /// All of these.
    #[tactic(auto, using(crate::proofs::Ends::all_of))]
    pub fn new(tokens: Tokens<'a>) -> Left<'a>
        ensures { result ≡ tokens.entry.placed }
    {
        Left {
            tokens,
            limit: None,
            last: None,
        }
    }

    /// Those of these that stand before the limit, and then the last one.
    pub fn ending(tokens: Tokens<'a>, limit: usize, last: Option<Placed>) -> Left<'a>
        ensures { result ≡ spec.up_to (Some limit) tokens.entry.placed ++ spec.listed last }
    {
        Left {
            tokens,
            limit: Some(limit),
            last,
        }
    }

    /// The next token, which stays; None at the end.
    #[tactic(auto, using(crate::proofs::Ends::first_left, crate::proofs::Ends::none_left))]
    pub fn peek(&self) -> Option<&Token>
        ensures { option_map (λ t. t.now) result ≡ first_in self.now }
    {
        if goes_on(&self.tokens, self.limit) {
            return self.tokens.peek();
        }
        match &self.last {
            Some(placed) => Some(&placed.token),
            None => None,
        }
    }

    /// The place of the next token in bytes; None at the end.
    #[tactic(auto, using(crate::proofs::Ends::place_left, crate::proofs::Ends::none_left))]
    pub fn place(&self) -> Option<usize>
        ensures { result ≡ place_in self.now }
    {
        if goes_on(&self.tokens, self.limit) {
            return Some(self.tokens.place());
        }
        match &self.last {
            Some(placed) => Some(placed.place),
            None => None,
        }
    }

    /// Takes the next token; None at the end.
    #[tactic(auto, using(crate::proofs::Ends::one_left, crate::proofs::Ends::none_left))]
    pub fn next(&mut self) -> Result<Option<Placed>, Memory>
        ensures { IfOk result (λ o. MatchOption o ((self.old ≡ []) × (self.new ≡ [])) (λ p. self.old ≡ p ∷ self.new)) }
    {
        if goes_on(&self.tokens, self.limit) {
            return self.tokens.next();
        }
        Ok(self.last.take())
    }

    /// Goes past the next token.
    pub fn skip(&mut self) -> Result<(), Memory>
        ensures { OnOk result (self.new ≡ after self.old) }
    {
        self.next()?;
        Ok(())
    }

    /// Whether the next token is of one of these kinds.
    #[tactic(auto, using(crate::proofs::Numbers::kind_number))]
    pub fn begins(&self, kinds: &[TokenKind]) -> bool
        ensures { result ≡ begins (of (map seen kinds.now)) self.now }
    {
        match self.peek() {
            Some(token) => is_one_of(kinds, token.kind()),
            None => false,
        }
    }

    /// Takes a token of this kind.
    #[tactic(auto, using(crate::proofs::Numbers::kind_number))]
    pub fn take(&mut self, kind: TokenKind) -> Result<(), Stop>
        ensures { Told result self.new (read_one (fixed (seen kind)) self.old) }
    {
        let Some(token) = self.peek() else {
            return Err(Stop::Wrong);
        };
        if token.kind() == kind.number() {
            self.next()?;
            return Ok(());
        }
        Err(Stop::Wrong)
    }
}
