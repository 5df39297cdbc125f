//! Machines that read a token a character at a time, and the one loop that reads with them.

ghost use Rattle.bye_lex.specs.Machines.{best_of, IfOn, later, stepped};
ghost use Rattle.bye_lex.specs.Scanning.{Gives, scan};
ghost use Rattle.bye_lex.specs.declared.style.Style.{Style as Rules};
ghost use Rattle.std.specs.Prelude.{◌≡◌, ◌≤◌, ◌<◌, ◌^◌, ℕ, Option, Some, None, Ok, Err, IfOk, MatchOption, is_some, length};
ghost use Rattle.std.specs.Str.{encode_utf8_all};

use crate::fault::LexErr;
use crate::stepped::Stepped;
use crate::style::Style;
use bye_terms::{Cursor, Memory};
use std::alloc::Global;

/// How far a token was read. A document is read by taking its characters one after another, each by `step`.
pub trait Machine: Sized + Drop {
    /// What a token stands for.
    type Token: Drop;

    /// The state after one more character, where some continuation is a token.
    ghost next: { Rules → Self → ℕ → Option Self };

    /// What the text that was read stands for, where it is a token.
    ghost whole: { Self → Option Self.Token };

    /// What the longest token at its front stands for.
    ghost longest: { Self → Option Self.Token };

    /// How much of the text that was read the state keeps, in bytes of UTF-8.
    ghost kept: { Self → ℕ };

    /// Takes one more character.
    fn step(self, alloc: Global, c: char, style: Style) -> Result<Stepped<Self>, Memory>
        ensures next { IfOk result (λ s. s ≡ stepped self (next style self c)) }
        ensures longest { IfOk result (λ s. IfOn s (λ n. longest n ≡ later (whole n) (longest self))) };

    /// Whether what was read is a token.
    fn is_whole(&self) -> bool
        ensures { result ≡ is_some (whole self.now) };

    /// The longest token at the front of what was read.
    fn into_longest(self, alloc: Global) -> Option<Self::Token>
        ensures { result ≡ longest self };

    /// How many bytes of what was read it keeps.
    fn kept(&self) -> usize
        requires room { kept self.now < 2 ^ 64 }
        ensures { result ≡ kept self.now };
}

/// The longest token and the place after it, or else the fault.
fn settle<T: Drop>(
    longest: Option<T>,
    end: Option<usize>,
    fault: LexErr,
) -> Result<(T, usize), LexErr>
    ensures { MatchOption (best_of longest end) (result ≡ Err fault) (λ best. result ≡ Ok best) }
{
    match (longest, end) {
        (Some(token), Some(end)) => Ok((token, end)),
        _ => Err(fault),
    }
}

/// Reads the longest token at the front of what is left of a document of so many bytes, and gives the place after it.
pub fn read_token<M: Machine>(
    alloc: Global,
    start: M,
    mut rest: Cursor<'_>,
    total: usize,
    style: Style,
) -> Result<(M::Token, usize), LexErr>
    requires within { length (encode_utf8_all rest) ≤ total }
    requires nothing { M.longest start ≡ None }
    ensures { Gives result (scan (M.next style) M.whole total start None rest.entry) }
{
    let mut at = start;
    let mut end = None;
    loop {
        let here = total - rest.len();
        let Some(c) = rest.next() else {
            return settle(at.into_longest(alloc), end, LexErr::Cut);
        };
        match at.step(alloc, c, style)? {
            Stepped::Off(at) => {
                return settle(at.into_longest(alloc), end, LexErr::NoToken(here));
            }
            Stepped::On(next) => {
                if next.is_whole() {
                    end = Some(total - rest.len());
                }
                at = next;
            }
        }
    }
}
