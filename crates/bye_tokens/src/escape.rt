//! Escapes in local parts of prefixed names.

ghost use Rattle.bye_tokens.specs.Fronts.{prefixed_of as spec_prefixed};
ghost use Rattle.bye_tokens.specs.Names.{unescaped as spec_unescaped};
ghost use Rattle.std.specs.Prelude.{◌≡◌, IfOk};
ghost use Rattle.std.specs.Str.{chars};

use crate::token::Token;
use bye_terms::{Cursor, Memory, Text};
use std::alloc::Global;

/// A local part without the backslashes of its escapes.
#[tactic(auto, using(crate::proofs::Escapes::unescaped_at, crate::proofs::Escapes::unescaped_end, crate::proofs::Escapes::until_shorter))]
fn unescaped(alloc: Global, local: &str) -> Result<Text, Memory>
    ensures { IfOk result (λ t. t ≡ spec_unescaped (chars local.now)) }
{
    let mut text = Text::new(alloc);
    let mut rest = Cursor::new(local);
    while let Some(piece) = rest.until('\\') {
        text.push_str(piece)?;
    }
    text.push_str(rest.rest())?;
    Ok(text)
}

/// A prefixed name, by its text.
#[tactic(auto, using(crate::proofs::Runs::until_cut, crate::proofs::Runs::until_uncut))]
pub fn prefixed(alloc: Global, text: &str) -> Result<Token, Memory>
    ensures { IfOk result (λ t. t ≡ spec_prefixed (chars text.now)) }
{
    let mut rest = Cursor::new(text);
    let Some(prefix) = rest.until(':') else {
        return Ok(Token::Prefixed(Text::copy_of(alloc, text)?, Text::new(alloc)));
    };
    let prefix = Text::copy_of(alloc, prefix)?;
    let local = unescaped(alloc, rest.rest())?;
    Ok(Token::Prefixed(prefix, local))
}
