//! Numbers in decimal digits.

ghost use Rattle.std.specs.Prelude.{◌≡◌, ◌<◌, ◌^◌, ℕ, IfSome, IfNone, IsTrue, ◌↔◌, length, get_or};
ghost use Rattle.std.specs.Fmt.{decimal};
ghost use Rattle.bye_words.specs.Kinds.{IsNumber};
ghost use Rattle.std.specs.Char.{is_ascii_digit};
ghost use Rattle.std.specs.List.{list_all};

use bye_terms::Text;

fn are_digits(text: &[u8]) -> bool
    ensures { result ≡ list_all is_ascii_digit text.now }
{
    text.iter().all(|byte| byte.is_ascii_digit())
}

/// Whether a zero stands before other digits.
fn has_leading_zero(text: &[u8]) -> bool
    ensures { IsTrue result ↔ (get_or text.now 0 0 ≡ 48) × (1 < length text.now) }
{
    text.len() > 1 && text[0] == b'0'
}

/// The number whose decimal digits the word is, without sign and leading zero.
pub fn read_number(word: &Text) -> Option<u64>
    ensures some { IfSome result (λ number. word.now ≡ decimal number) }
    ensures small { IfSome result (λ number. number < 2 ^ 64) }
    ensures none { IfNone result ((number : ℕ) → number < 2 ^ 64 → word.now ≡ decimal number → ⊥) }
{
    let text = word.as_str();
    if !are_digits(text.as_bytes()) || has_leading_zero(text.as_bytes()) {
        return None;
    }
    match text.parse::<u64>() {
        Ok(number) => Some(number),
        Err(_) => None,
    }
}

/// Whether the word is the decimal digits of a number from the first to the second, without sign and leading zero.
pub fn is_number(word: &Text, least: u64, greatest: u64) -> bool
    ensures { IsTrue result ↔ IsNumber least greatest word.now }
{
    match read_number(word) {
        Some(number) => least <= number && number <= greatest,
        None => false,
    }
}
