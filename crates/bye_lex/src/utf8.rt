//! The front of bytes that is whole characters, and what is left of them (RFC 3629, section 4).

ghost use Rattle.bye_lex.specs.Utf8.{BeginsCharacter, BeginsLabelPart, HasMore, IsLabelPartFrom, NoCharacter};
ghost use Rattle.std.specs.Prelude.{◌≡◌, ◌++◌, ◌↔◌, IsTrue};

use bye_terms::characters::is_label_part;
use std::str;

/// The longest front of bytes that is whole characters, and what is left over after it (RFC 3629, section 4).
#[derive(Debug, Copy, Clone)]
pub struct Decoded<'a> {
    pub text: &'a str,
    pub left: &'a [u8],
    /// Whether what is left is the beginning of some character.
    pub begins: bool,
}

/// The whole characters at the front of the bytes, and what is left over after them.
pub fn decode(bytes: &[u8]) -> Decoded<'_>
    ensures parts { bytes.now ≡ result.text.now ++ result.left.now }
    ensures whole { NoCharacter result.left.now }
    ensures begins { IsTrue result.begins ↔ BeginsCharacter result.left.now }
{
    match str::from_utf8(bytes) {
        Ok(text) => Decoded {
            text,
            left: &[],
            begins: true,
        },
        Err(error) => {
            let (front, left) = bytes.split_at(error.valid_up_to());
            match str::from_utf8(front) {
                Ok(text) => Decoded {
                    text,
                    left,
                    begins: error.error_len().is_none(),
                },
                Err(_) => unreachable!(),
            }
        }
    }
}

/// Whether the UTF-8 of the character begins with the bytes, and has more of them.
fn has_more(c: char, bytes: &[u8]) -> bool
    ensures { IsTrue result ↔ HasMore c bytes.now }
{
    let mut buffer = [0; 4];
    match c.encode_utf8(&mut buffer).as_bytes().strip_prefix(bytes) {
        Some(rest) => !rest.is_empty(),
        None => false,
    }
}

fn is_label_part_from(number: u32, bytes: &[u8]) -> bool
    ensures { IsTrue result ↔ IsLabelPartFrom number bytes.now }
{
    match char::from_u32(number) {
        Some(c) => is_label_part(c) && has_more(c, bytes),
        None => false,
    }
}

/// Whether some character whose UTF-8 begins with these bytes, and has more of them, may go on in the label of a blank node.
pub fn may_go_on_in_label(left: &[u8]) -> bool
    ensures { IsTrue result ↔ BeginsLabelPart left.now }
{
    for number in 0..0x11_0000 {
        if is_label_part_from(number, left) {
            return true;
        }
    }
    false
}
