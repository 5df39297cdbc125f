ghost use Rattle.bye_tokens.specs.Fronts.{tokens_of};
ghost use Rattle.bye_tokens.specs.Left.{next_place as spec_place, next_token as spec_token};
ghost use Rattle.bye_tokens.specs.Splitting.{AreTokens};
ghost use Rattle.bye_tokens.specs.declared.token.Placed.{Placed as APlaced};
ghost use Rattle.std.specs.Option.{option_map};
ghost use Rattle.std.specs.Prelude.{◌≡◌, ◌∷◌, [], List, IfOk, OnErr, MatchOption, length};
ghost use Rattle.std.specs.Str.{chars};

use crate::read::read;
use crate::token::{Placed, Token};
use bye_terms::{Cursor, Memory};
use std::alloc::Global;
use std::marker::Model;
use std::mem;

/// The tokens of a text, read one by one. Contracts see the list of those that are left, with the place of the end.
/// A word looks for the colon of a prefix as far as letters, digits, dots and hyphens go on, so a text of these alone, as `a.a.a.a`,
/// takes time that grows with the square of its length; a caller that stops at the first token that it does not want never sees this.
#[derive(Drop)]
pub struct Tokens<'a> {
    alloc: Global,
    rest: Cursor<'a>,
    total: usize,
    next: Option<Placed>,
}

impl<'a> Model for Tokens<'a> {
    ghost use Rattle.bye_tokens.specs.Fronts.{tokens_of};
    ghost use Rattle.bye_tokens.specs.Left.{TokensLeft, with_next};

    ghost Value = { TokensLeft };

    ghost view = { λ t. record { placed = with_next t.next (tokens_of t.total t.rest); end = t.total } };
}

impl<'a> Tokens<'a> {
    /// At the front of a text. It fails for want of memory alone.
    pub fn new(alloc: Global, text: &'a str) -> Result<Tokens<'a>, Memory>
        ensures read { IfOk result (λ t. t.placed ≡ tokens_of (length text.now) (chars text.now)) }
        ensures tokens { IfOk result (λ t. AreTokens (chars text.now) t.placed) }
        ensures only { IfOk result (λ t. (other : List APlaced) → AreTokens (chars text.now) other → other ≡ t.placed) }
        ensures end { IfOk result (λ t. t.end ≡ length text.now) }
    {
        let total = text.len();
        let first = read(alloc, &Cursor::new(text), total);
        match first {
            Ok((next, rest)) => Ok(Tokens {
                alloc,
                rest,
                total,
                next,
            }),
            Err(memory) => Err(memory),
        }
    }

    /// The next token, which stays; None at the end.
    pub fn peek(&self) -> Option<&Token>
        ensures { option_map (λ t. t.now) result ≡ spec_token self.now }
    {
        match &self.next {
            Some(placed) => Some(&placed.token),
            None => None,
        }
    }

    /// The place of the next token in bytes, or at the end the number of bytes of the text.
    pub fn place(&self) -> usize
        ensures { result ≡ spec_place self.now }
    {
        match &self.next {
            Some(placed) => placed.place,
            None => self.total,
        }
    }

    /// Takes the next token; None at the end. After an error, which comes for want of memory alone, the tokens are as they were.
    pub fn next(&mut self) -> Result<Option<Placed>, Memory>
        ensures ok { IfOk result (λ o. MatchOption o ((self.old.placed ≡ []) × (self.new.placed ≡ [])) (λ p. self.old.placed ≡ p ∷ self.new.placed)) }
        ensures end { self.new.end ≡ self.old.end }
        ensures err { OnErr result (self.new ≡ self.old) }
    {
        if self.next.is_none() {
            return Ok(None);
        }
        match read(self.alloc, &self.rest, self.total) {
            Ok((next, rest)) => {
                self.rest = rest;
                Ok(mem::replace(&mut self.next, next))
            }
            Err(memory) => Err(memory),
        }
    }
}
