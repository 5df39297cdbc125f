//! Words, and what they are compared with.

ghost use Rattle.std.specs.Prelude.{◌≡◌, ◌↔◌, IsTrue};
ghost use Rattle.std.specs.Str.{chars};
ghost use Rattle.bye_terms.specs.Members.{In};
ghost use Rattle.bye_words.specs.Tables.{texts_of};

use bye_terms::Text;

/// Whether the word is this text.
pub fn is_word(word: &Text, text: &str) -> bool
    ensures { IsTrue result ↔ (chars text.now ≡ word.now) }
{
    word.as_str() == text
}

/// Whether the word is one of these texts.
pub fn is_one_of(word: &Text, texts: &[&str]) -> bool
    ensures { IsTrue result ↔ In (texts_of texts.now) word.now }
{
    match texts.split_first() {
        Some((first, rest)) => is_word(word, first) || is_one_of(word, rest),
        None => false,
    }
}
