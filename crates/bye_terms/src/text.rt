ghost use Rattle.std.specs.Prelude.{◌≡◌, ◌∷◌, ◌++◌, [], List, ℕ, IfOk, OnOk, OnErr, IsTrue, ◌↔◌};
ghost use Rattle.std.specs.Str.{chars, encode_utf8_all, all_scalars};
ghost use Rattle.std.specs.String.{string_bytes};
ghost use Rattle.bye_terms.specs.Ascii.{is_ascii};

use crate::memory::Memory;
use std::alloc::Global;
use std::marker::Model;

/// A text, which contracts see as the list of its characters.
#[derive(Debug, Drop)]
pub struct Text {
    text: String,
}

impl Model for Text {
    ghost Value = { List ℕ };

    ghost view = { λ t. chars (string_bytes t.text) };
}

impl Text {
    /// The empty text.
    pub fn new(alloc: Global) -> Text
        ensures { result ≡ [] }
    {
        Text {
            text: String::new(alloc),
        }
    }

    /// A text of the same characters.
    pub fn copy_of(alloc: Global, s: &str) -> Result<Text, Memory>
        ensures { IfOk result (λ t. t ≡ chars s.now) }
    {
        let text = String::from_str(alloc, s)?;
        Ok(Text { text })
    }

    /// The text in UTF-8. Each of its characters is a Unicode scalar value.
    pub fn as_str(&self) -> &str
        ensures text { result.now ≡ encode_utf8_all self.now }
        ensures scalars { IsTrue (all_scalars self.now) }
    {
        self.text.as_str()
    }

    /// The text. Each of its characters is a Unicode scalar value.
    pub fn as_unicode(&self) -> &Text
        ensures same { result.now ≡ self.now }
        ensures scalars { IsTrue (all_scalars self.now) }
    {
        let _ = &self.text;
        self
    }

    /// Whether the two are equal, character by character.
    pub fn same(&self, other: &Text) -> bool
        ensures { IsTrue result ↔ (self.now ≡ other.now) }
    {
        self.text.as_str() == other.text.as_str()
    }

    /// An equal text.
    pub fn copy(&self, alloc: Global) -> Result<Text, Memory>
        ensures { IfOk result (λ t. t ≡ self.now) }
    {
        let text = String::from_str(alloc, self.text.as_str())?;
        Ok(Text { text })
    }

    /// Puts another text at the end.
    pub fn push_text(&mut self, other: &Text) -> Result<(), Memory>
        ensures ok { OnOk result (self.new ≡ self.old ++ other.now) }
        ensures err { OnErr result (self.new ≡ self.old) }
    {
        self.push_str(other.text.as_str())
    }

    /// Puts characters at the end.
    pub fn push_str(&mut self, s: &str) -> Result<(), Memory>
        ensures ok { OnOk result (self.new ≡ self.old ++ chars s.now) }
        ensures err { OnErr result (self.new ≡ self.old) }
    {
        self.text.push_str(s)?;
        Ok(())
    }

    /// Puts a character at the end.
    pub fn push_char(&mut self, c: char) -> Result<(), Memory>
        ensures ok { OnOk result (self.new ≡ self.old ++ c ∷ []) }
        ensures err { OnErr result (self.new ≡ self.old) }
    {
        self.text.push(c)?;
        Ok(())
    }

    /// The text with one more character.
    pub fn with_char(mut self, c: char) -> Result<Text, Memory>
        ensures { IfOk result (λ t. t ≡ self ++ c ∷ []) }
    {
        self.push_char(c)?;
        Ok(self)
    }

    /// Puts characters of ASCII at the end.
    pub fn push_ascii(&mut self, s: &str) -> Result<(), Memory>
        requires { IsTrue (is_ascii s.now) }
        ensures ok { OnOk result (self.new ≡ self.old ++ s.now) }
        ensures err { OnErr result (self.new ≡ self.old) }
    {
        self.push_str(s)
    }
}

#[cfg(test)]
mod tests {
    use super::*;
    use std::test::Fail;

    #[test]
    fn joins_texts(rt: HostRuntime) -> Result<(), Fail> {
        let mut text = Text::new(rt.alloc());
        assert_eq!(rt; text.as_str(), "");
        text.push_str("\u{E9}\"")?;
        text.push_ascii("<")?;
        text.push_char('\u{10000}')?;
        let other = text.copy(rt.alloc())?;
        text.push_text(&other)?;
        assert_eq!(rt; text.as_str(), "\u{E9}\"<\u{10000}\u{E9}\"<\u{10000}");
        assert_eq!(rt; other.as_str(), "\u{E9}\"<\u{10000}");
        Ok(())
    }
}
