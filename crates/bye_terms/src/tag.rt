ghost use Rattle.std.specs.Prelude.{◌≡◌, List, ℕ, IfOk, IfSome, IfNone, IsTrue, true, false, ◌↔◌};
ghost use Rattle.std.specs.Str.{all_scalars};
ghost use Rattle.bye_terms.specs.Names.{is_tag};

use crate::memory::Memory;
use crate::rules;
use crate::text::Text;
use std::alloc::Global;
use std::marker::Model;

/// A language tag, without its `@` (RDF 1.1 N-Triples, section 7).
#[derive(Debug, Drop)]
pub struct Tag {
    text: Text,
}

impl Model for Tag {
    ghost Value = { List ℕ };

    ghost view = { λ i. i.text };

    ghost invariant = { λ i. is_tag i.text ≡ true };
}

impl Tag {
    /// The tag of a text that is one.
    pub fn new(text: Text) -> Tag
        requires { is_tag text ≡ true }
        ensures { result ≡ text }
    {
        Tag { text }
    }

    /// None exactly where the text is no language tag.
    pub fn from_text(text: Text) -> Option<Tag>
        ensures some { IfSome result (λ i. (i ≡ text) × IsTrue (is_tag text)) }
        ensures none { IfNone result (is_tag text ≡ false) }
    {
        if rules::is_tag(text.as_str()) {
            Some(Tag { text })
        } else {
            None
        }
    }

    /// The text of the tag, given up.
    pub fn into_text(self) -> Text
        ensures text { result ≡ self }
        ensures valid { IsTrue (is_tag self) }
    {
        self.text
    }

    /// The text of the tag, in the case in which it was written.
    pub fn text(&self) -> &Text
        ensures text { result.now ≡ self.now }
        ensures valid { IsTrue (is_tag self.now) }
        ensures scalars { IsTrue (all_scalars self.now) }
    {
        self.text.as_unicode()
    }

    /// Whether the two are equal, character by character.
    pub fn same(&self, other: &Tag) -> bool
        ensures { IsTrue result ↔ (self.now ≡ other.now) }
    {
        self.text.same(&other.text)
    }

    /// An equal one.
    pub fn copy(&self, alloc: Global) -> Result<Tag, Memory>
        ensures { IfOk result (λ t. t ≡ self.now) }
    {
        let text = self.text.copy(alloc)?;
        Ok(Tag { text })
    }
}
