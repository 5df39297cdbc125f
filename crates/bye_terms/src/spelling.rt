//! The written spelling of a term as a row of pieces, compared without being made.

ghost use Rattle.std.specs.Prelude.{◌≡◌, ◌<◌, ◌≤◌, ◌++◌, ◌∷◌, ◌↔◌, [], ℕ, List, length, take, drop, codes, IsTrue, MatchOption};
ghost use Rattle.std.specs.Cmp.Lexicographic.{slice_cmp};
ghost use Rattle.std.specs.Ordering.{nat_cmp};
ghost use Rattle.bye_terms.specs.Spellings.{escaped, escaped_char};
ghost use Rattle.bye_terms.specs.Pieces.{left_of};

use std::cmp::Ordering;

/// What is left of a spelling: a piece as it stands, a lexical form that is still to be escaped,
/// and three further pieces as they stand.
#[derive(Drop)]
pub struct Spelling<'a> {
    pub head: &'a [u8],
    pub lexical: &'a [u8],
    pub middle: &'a [u8],
    pub text: &'a [u8],
    pub last: &'a [u8],
}

/// The escape of a byte, where it has one.
fn escape_of(byte: u8) -> Option<&'static [u8]>
    ensures { MatchOption result (escaped_char byte ≡ byte ∷ []) (λ e. (escaped_char byte ≡ e.now) × (0 < length e.now)) }
{
    match byte {
        b'"' => Some(b"\\\""),
        b'\\' => Some(b"\\\\"),
        b'\n' => Some(b"\\n"),
        b'\r' => Some(b"\\r"),
        _ => None,
    }
}

/// How many bytes at the front stand raw.
fn raw_length(bytes: &[u8]) -> usize
    ensures within { result ≤ length bytes.now }
    ensures raw { escaped bytes.now ≡ take result bytes.now ++ escaped (drop result bytes.now) }
{
    for (i, byte) in bytes.iter().enumerate() {
        if escape_of(*byte).is_some() {
            return i;
        }
    }
    bytes.len()
}

impl<'a> Spelling<'a> {
    /// Makes the head a piece with a byte, where one is left.
    fn refill(&mut self)
        ensures same { left_of self.new ≡ left_of self.old }
        ensures empty { self.new.head.now ≡ [] → left_of self.new ≡ [] }
    {
        if !self.head.is_empty() {
            return;
        }
        if let [first, rest @ ..] = self.lexical {
            match escape_of(*first) {
                Some(escape) => {
                    self.head = escape;
                    self.lexical = rest;
                }
                None => {
                    let (raw, rest) = self.lexical.split_at(raw_length(rest) + 1);
                    self.head = raw;
                    self.lexical = rest;
                }
            }
            return;
        }
        if !self.middle.is_empty() {
            self.head = self.middle;
            self.middle = b"";
            return;
        }
        if !self.text.is_empty() {
            self.head = self.text;
            self.text = b"";
            return;
        }
        self.head = self.last;
        self.last = b"";
    }

    /// Leaves out bytes of the head.
    fn skip(&mut self, count: usize)
        requires { count ≤ length self.old.head.now }
        ensures { left_of self.new ≡ drop count (left_of self.old) }
    {
        let (_, rest) = self.head.split_at(count);
        self.head = rest;
    }
}

/// The byte order of the two spellings, a piece at a time.
pub fn compare(mut one: Spelling<'_>, mut other: Spelling<'_>) -> Ordering
    ensures { result ≡ slice_cmp nat_cmp (left_of one.entry) (left_of other.entry) }
{
    loop {
        one.refill();
        other.refill();
        let count = one.head.len().min(other.head.len());
        if count == 0 {
            return one.head.len().cmp(&other.head.len());
        }
        let (front, _) = one.head.split_at(count);
        let (other_front, _) = other.head.split_at(count);
        match front.cmp(other_front) {
            Ordering::Equal => {
                one.skip(count);
                other.skip(count);
            }
            order => return order,
        }
    }
}
