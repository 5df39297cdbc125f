//! The next token of a document.

ghost use Rattle.bye_tokens.specs.Fronts.{tokens_of};
ghost use Rattle.bye_tokens.specs.Left.{with_next};
ghost use Rattle.std.specs.Prelude.{◌≡◌, IfOk};

use crate::fronts::found;
use crate::run::skip;
use crate::token::{Placed, Token};
use bye_terms::{Cursor, Memory};
use std::alloc::Global;

/// The next token of the rest of a document of so many bytes, and what is left after it; no token at the end.
pub fn read<'a>(
    alloc: Global,
    rest: &Cursor<'a>,
    total: usize,
) -> Result<(Option<Placed>, Cursor<'a>), Memory>
    ensures { IfOk result (λ r. with_next r.0 (tokens_of total r.1) ≡ tokens_of total rest.now) }
{
    let text = skip(Cursor::new(rest.rest()));
    let place = total.saturating_sub(text.len());
    let mut later = Cursor::new(text.rest());
    let Some(c) = later.next() else {
        return Ok((None, later));
    };
    match found(alloc, &text) {
        Ok(Some((token, after))) => Ok((Some(Placed { place, token }), after)),
        Ok(None) => {
            let token = Token::Bad(c);
            Ok((Some(Placed { place, token }), later))
        }
        Err(memory) => Err(memory),
    }
}
