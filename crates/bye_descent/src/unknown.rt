//! Prefixes that no declaration names.

ghost use Rattle.std.specs.Prelude.{◌≡◌, IfOk};
ghost use Rattle.bye_descent.specs.Unknown as spec;

use crate::left::Left;
use crate::singles::is_empty;
use bye_terms::{Memory, Text};
use bye_tokens::{Token, Word};
use std::alloc::Global;

/// Whether the token is this prefix, without a local part.
#[tactic(auto, using(crate::proofs::Looking::alone, crate::proofs::Looking::not_alone, crate::proofs::Looking::same_name))]
fn is_prefix(alloc: Global, token: &Token, name: &Text) -> bool
    ensures { result ≡ spec.is_prefix name.now token.now }
{
    match token {
        Token::Prefixed(prefix, local) => is_empty(alloc, local) && prefix.same(name),
        _ => false,
    }
}

/// Whether the prefix is declared among the tokens that are left.
pub fn is_declared(alloc: Global, left: Left<'_>, name: &Text) -> Result<bool, Memory>
    ensures { IfOk result (λ declared. declared ≡ spec.is_declared name.now left.entry) }
{
    let mut rest = left;
    let mut word = false;
    let mut prefix = false;
    'tokens: while let Some(placed) = rest.next()? {
        let token = placed.token;
        if prefix && matches!(token, Token::IriRef(_)) {
            return Ok(true);
        }
        prefix = word && is_prefix(alloc, &token, name);
        word = matches!(token, Token::Keyword(Word::Prefix));
    }
    Ok(false)
}
