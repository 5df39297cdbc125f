ghost use Rattle.std.specs.Prelude.{◌≡◌, ◌∷◌, ◌↔◌, [], List, map, IsTrue, IfSome, IfNone, MatchOption, ℕ};
ghost use Rattle.std.specs.List.{flat_map};
ghost use Rattle.std.specs.Str.{chars};
ghost use Rattle.bye_terms.specs.Ascii.{is_ascii};
ghost use Rattle.bye_terms.specs.Members.{In, EachOnce};
ghost use Rattle.bye_words.specs.Pairs.{Setting, setting_words};
ghost use Rattle.bye_words.specs.Forms.{names_in};

use crate::word::is_word;
use bye_terms::Text;
use std::marker::Model;

/// Pairs of a name and a value.
#[derive(Drop)]
pub struct Settings<'w> {
    words: &'w [Text],
}

impl<'w> Model for Settings<'w> {
    ghost use Rattle.bye_words.specs.Pairs.{Setting, pairs_of};
    ghost use Rattle.std.specs.Prelude.{List};

    ghost Value = { List Setting };

    ghost view = { λ s. pairs_of s.words.now };
}

impl<'w> Settings<'w> {
    /// The words in pairs, where their number is even.
    pub fn new(words: &'w [Text]) -> Option<Settings<'w>>
        ensures some { IfSome result (λ settings. words.now ≡ flat_map setting_words settings) }
        ensures none { IfNone result ((settings : List Setting) → words.now ≡ flat_map setting_words settings → ⊥) }
    {
        if words.len() % 2 == 0 {
            Some(Settings { words })
        } else {
            None
        }
    }

    /// The same pairs.
    pub fn copy(&self) -> Settings<'w>
        ensures { result ≡ self.now }
    {
        Settings { words: self.words }
    }

    /// Takes the first pair.
    pub fn next(&mut self) -> Option<(&'w Text, &'w Text)>
        ensures { MatchOption result ((self.old ≡ []) × (self.new ≡ [])) (λ pair. self.old ≡ (pair.0.now, pair.1.now) ∷ self.new) }
    {
        let (name, rest) = self.words.split_first()?;
        let (value, rest) = rest.split_first()?;
        self.words = rest;
        Some((name, value))
    }

    /// The value of the name.
    pub fn value(&self, name: &str) -> Option<&'w Text>
        ensures { MatchOption result (In (names_in self.now) (chars name.now) → ⊥) (λ value. In self.now (chars name.now, value.now)) }
    {
        let mut rest = self.copy();
        while let Some((known, value)) = rest.next() {
            if is_word(known, name) {
                return Some(value);
            }
        }
        None
    }

    /// The value of a name of ASCII that is there.
    pub fn must(&self, name: &str) -> &'w Text
        requires ascii { IsTrue (is_ascii name.now) }
        requires there { In (names_in self.now) name.now }
        ensures { In self.now (name.now, result.now) }
    {
        match self.value(name) {
            Some(value) => value,
            None => unreachable!(),
        }
    }

    /// Whether the name is there.
    pub fn has(&self, name: &str) -> bool
        ensures { IsTrue result ↔ In (names_in self.now) (chars name.now) }
    {
        self.value(name).is_some()
    }

    /// Whether no name stands twice.
    pub fn is_each_once(&self) -> bool
        ensures { IsTrue result ↔ EachOnce (names_in self.now) }
    {
        let mut rest = self.copy();
        while let Some((name, _)) = rest.next() {
            if rest.has(name.as_str()) {
                return false;
            }
        }
        true
    }
}
