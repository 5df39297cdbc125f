//! The bytes of a document as characters.

ghost use Rattle.std.specs.Prelude.{◌≡◌, ◌+◌, drop, length};
ghost use Rattle.std.specs.Str.{encode_utf8_all};
ghost use Rattle.bye_lex.specs.Answers.{IsBorder, text_at};

use bye_terms::Cursor;
use std::str;

fn text_from(bytes: &[u8], from: usize) -> &str
    requires { IsBorder bytes.now from }
    ensures { result.now ≡ drop from bytes.now }
{
    match str::from_utf8(&bytes[from..]) {
        Ok(text) => text,
        Err(_) => unreachable!(),
    }
}

/// The characters from the place on.
#[tactic(auto, using(crate::proofs::Places::bytes_from))]
pub fn cursor_at(bytes: &[u8], from: usize) -> Cursor<'_>
    requires { IsBorder bytes.now from }
    ensures text { result ≡ text_at bytes.now from }
    ensures within { from + length (encode_utf8_all result) ≡ length bytes.now }
{
    Cursor::new(text_from(bytes, from))
}
