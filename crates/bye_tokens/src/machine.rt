//! Tokens that a machine of bye_lex reads, with what they stand for.

ghost use Rattle.bye_tokens.specs.Reading as reading;
ghost use Rattle.std.specs.Prelude.{◌≡◌, None, IfOk};

use bye_lex::{Machine, Stepped, Style};
use bye_terms::{Cursor, Memory};
use std::alloc::Global;

/// A token and what is left after it, where both are known.
fn both<'a, T: Drop>(token: Option<T>, end: Option<Cursor<'a>>) -> Option<(T, Cursor<'a>)>
    ensures { result ≡ reading.both token end.entry }
{
    match (token, end) {
        (Some(token), Some(end)) => Some((token, end)),
        _ => None,
    }
}

/// The longest token at the front, and what is left after it.
pub fn read_front<'a, M: Machine>(
    alloc: Global,
    start: M,
    mut rest: Cursor<'a>,
    style: Style,
) -> Result<Option<(M::Token, Cursor<'a>)>, Memory>
    requires { M.longest start ≡ None }
    ensures { IfOk result (λ o. o ≡ reading.longest (M.next style) M.whole start None rest.entry) }
{
    let mut at = start;
    let mut end = None;
    loop {
        let Some(c) = rest.next() else {
            return Ok(both(at.into_longest(alloc), end));
        };
        match at.step(alloc, c, style)? {
            Stepped::Off(at) => return Ok(both(at.into_longest(alloc), end)),
            Stepped::On(next) => {
                if next.is_whole() {
                    end = Some(Cursor::new(rest.rest()));
                }
                at = next;
            }
        }
    }
}
