//! Escapes of characters by their numbers (RDF 1.1 N-Triples, section 7, UCHAR).

ghost use Rattle.bye_lex.specs.EscapeSteps as spec;
ghost use Rattle.bye_lex.specs.Kept.{escape_kept};
ghost use Rattle.std.specs.Char.{digit_value};
ghost use Rattle.std.specs.Prelude.{◌≡◌, ◌<◌, true, IfSome, MatchOption};

use bye_terms::characters::is_iri_char;

/// Where an escape stands, which says what it may stand for.
#[derive(Debug, Copy, Clone)]
pub enum Home {
    /// In an IRI: a character of an IRI.
    Iri,
    /// In a string: any character.
    Text,
}

/// How far the digits of an escape were read: so many follow the next one, and the number so far.
#[derive(Debug, Copy, Clone)]
pub struct EscapeAt {
    pub left: u8,
    pub number: u32,
}

/// An escape after one more digit: still within it, or the character that it stands for.
#[derive(Debug, Copy, Clone)]
pub enum EscapeStep {
    Within(EscapeAt),
    Whole(char),
}

/// Whether digits, as many as are left, can follow the number so that a Unicode scalar value results.
fn is_open(left: u8, number: u32) -> bool
    ensures { result ≡ spec.is_open left number }
{
    match left {
        0 => char::from_u32(number).is_some(),
        1 => number < 0xD80 || number > 0xDFF && number < 0x1_1000,
        2 => number < 0xD8 || number > 0xDF && number < 0x1100,
        3 => number < 0x110,
        4 => number < 0x11,
        5 => number < 2,
        _ => number == 0,
    }
}

/// Whether such digits may follow an open number that it is that of a character of an IRI.
fn is_beyond(left: u8, number: u32) -> bool
    requires { spec.is_open left number ≡ true }
    ensures { result ≡ spec.is_beyond left number }
{
    match left {
        0 => match char::from_u32(number) {
            Some(c) => is_iri_char(c),
            None => false,
        },
        1 => number > 1,
        _ => true,
    }
}

/// The value of a HEX.
fn hex_value(c: char) -> Option<u8>
    ensures { MatchOption result (digit_value c < 16 → ⊥) (λ d. (d ≡ digit_value c) × (d < 16)) }
{
    match c {
        '0'..='9' => Some(c as u8 - b'0'),
        'A'..='F' => Some(c as u8 - b'A' + 10),
        'a'..='f' => Some(c as u8 - b'a' + 10),
        _ => None,
    }
}

impl Home {
    /// Whether such digits may follow that the escape is one that may stand there.
    fn may_be(self, left: u8, number: u32) -> bool
        ensures { result ≡ spec.may_be self left number }
    {
        match self {
            Home::Iri => is_open(left, number) && is_beyond(left, number),
            Home::Text => is_open(left, number),
        }
    }
}

/// After a digit that makes the number: this many are left.
fn after_digit(home: Home, left: u8, number: u32) -> Option<EscapeStep>
    ensures { result ≡ spec.after_digit home left number }
{
    if !home.may_be(left, number) {
        return None;
    }
    if left > 0 {
        return Some(EscapeStep::Within(EscapeAt {
            left: left - 1,
            number,
        }));
    }
    char::from_u32(number).map(EscapeStep::Whole)
}

impl EscapeAt {
    /// After a backslash and this character, where they begin an escape by number.
    pub fn begin(mark: char) -> Option<EscapeAt>
        ensures { result ≡ spec.begin mark }
    {
        match mark {
            'u' => Some(EscapeAt { left: 3, number: 0 }),
            'U' => Some(EscapeAt { left: 7, number: 0 }),
            _ => None,
        }
    }

    /// How many characters of it were read at least, with its backslash and its mark.
    pub fn kept(self) -> usize
        ensures { result ≡ escape_kept self }
    {
        if self.left > 3 {
            return usize::from(9u8.saturating_sub(self.left));
        }
        usize::from(5 - self.left)
    }

    /// One character more, and None where it is no digit with which the escape may stand there.
    #[tactic(auto, using(crate::proofs::Digits::never_open))]
    pub fn step(self, c: char, home: Home) -> Option<EscapeStep>
        ensures next { result ≡ spec.step home self c }
        ensures allowed { IfSome result (spec.IsAllowed home) }
    {
        let digit = hex_value(c)?;
        if self.number >= 0x11_0000 {
            return None;
        }
        after_digit(home, self.left, self.number * 16 + u32::from(digit))
    }
}
