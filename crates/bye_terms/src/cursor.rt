ghost use Rattle.std.specs.Prelude.{◌≡◌, ◌∷◌, [], List, ℕ, MatchOption, Some, None, cond, false, IfNone, IsTrue, ◌↔◌, length};
ghost use Rattle.std.specs.Option.{option_map};
ghost use Rattle.std.specs.Str.{chars, encode_utf8_all};
ghost use Rattle.bye_terms.specs.Reading.{after_at, until_at};

use std::marker::Model;

/// What is left of a text, seen as its characters.
#[derive(Drop)]
pub struct Cursor<'a> {
    rest: &'a str,
}

impl<'a> Model for Cursor<'a> {
    ghost Value = { List ℕ };

    ghost view = { λ c. chars c.rest.now };
}

impl<'a> Cursor<'a> {
    /// At the front of a text.
    pub fn new(rest: &'a str) -> Cursor<'a>
        ensures { result ≡ chars rest.now }
    {
        Cursor { rest }
    }

    /// The text that is left.
    pub fn rest(&self) -> &'a str
        ensures { chars result.now ≡ self.now }
    {
        self.rest
    }

    /// The next character, which is taken.
    pub fn next(&mut self) -> Option<char>
        ensures { MatchOption result ((self.old ≡ []) × (self.new ≡ [])) (λ c. self.old ≡ c ∷ self.new) }
    {
        let mut rest = self.rest().chars();
        let next = rest.next();
        self.rest = rest.as_str();
        next
    }

    /// Whether no character is left.
    pub fn is_empty(&self) -> bool
        ensures { IsTrue result ↔ (self.now ≡ []) }
    {
        self.rest().is_empty()
    }

    /// How many bytes are left.
    pub fn len(&self) -> usize
        ensures { result ≡ length (encode_utf8_all self.now) }
    {
        self.rest().len()
    }

    /// Whether the next character is this one, which is taken then.
    pub fn take(&mut self, c: char) -> bool
        ensures taken { after_at c self.old ≡ cond result (Some self.new) None }
        ensures kept { result ≡ false → self.new ≡ self.old }
    {
        let mut rest = Cursor::new(self.rest);
        match rest.next() {
            Some(next) if next == c => {
                self.rest = rest.rest;
                true
            }
            _ => false,
        }
    }

    /// What stands before the first such character, which is taken too.
    pub fn until(&mut self, c: char) -> Option<&'a str>
        ensures parts { option_map (λ s. (chars s.now, self.new)) result ≡ until_at c self.old }
        ensures kept { IfNone result (self.new ≡ self.old) }
    {
        match self.rest().split_once(c) {
            Some((before, after)) => {
                self.rest = after;
                Some(before)
            }
            None => None,
        }
    }
}
