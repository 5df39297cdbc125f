//! The loop that finds the end of a token.

ghost use Rattle.bye_tokens.specs.Reading as reading;
ghost use Rattle.std.specs.Prelude.{◌≡◌, None};

use bye_lex::Scanner;
use bye_terms::Cursor;

/// The kind of the longest token at the front, and what is left after it.
pub fn scan<'a, S: Scanner>(start: S, mut rest: Cursor<'a>) -> Option<(S::Form, Cursor<'a>)>
    ensures { result ≡ reading.longest S.next S.whole start None rest.entry }
{
    let mut at = start;
    let mut best = None;
    while let Some(c) = rest.next() {
        let Some(next) = at.step(c) else {
            return best;
        };
        if let Some(form) = next.form() {
            best = Some((form, Cursor::new(rest.rest())));
        }
        at = next;
    }
    best
}
