ghost use Rattle.std.specs.Prelude.{◌≡◌, List, ℕ, IfOk, IfSome, IfNone, IsTrue, true, false, ◌↔◌};
ghost use Rattle.std.specs.Str.{all_scalars};
ghost use Rattle.bye_terms.specs.Names.{is_label};

use crate::memory::Memory;
use crate::rules;
use crate::text::Text;
use std::alloc::Global;
use std::marker::Model;

/// The label of a blank node, without its `_:` (RDF 1.1 N-Triples, section 7).
#[derive(Debug, Drop)]
pub struct Label {
    text: Text,
}

impl Model for Label {
    ghost Value = { List ℕ };

    ghost view = { λ i. i.text };

    ghost invariant = { λ i. is_label i.text ≡ true };
}

impl Label {
    /// The label of a text that is one.
    pub fn new(text: Text) -> Label
        requires { is_label text ≡ true }
        ensures { result ≡ text }
    {
        Label { text }
    }

    /// None exactly where the text is no label.
    pub fn from_text(text: Text) -> Option<Label>
        ensures some { IfSome result (λ i. (i ≡ text) × IsTrue (is_label text)) }
        ensures none { IfNone result (is_label text ≡ false) }
    {
        if rules::is_label(text.as_str()) {
            Some(Label { text })
        } else {
            None
        }
    }

    /// The text of the label, given up.
    pub fn into_text(self) -> Text
        ensures text { result ≡ self }
        ensures valid { IsTrue (is_label self) }
    {
        self.text
    }

    /// The text of the label.
    pub fn text(&self) -> &Text
        ensures text { result.now ≡ self.now }
        ensures valid { IsTrue (is_label self.now) }
        ensures scalars { IsTrue (all_scalars self.now) }
    {
        self.text.as_unicode()
    }

    /// Whether the two are equal, character by character.
    pub fn same(&self, other: &Label) -> bool
        ensures { IsTrue result ↔ (self.now ≡ other.now) }
    {
        self.text.same(&other.text)
    }

    /// An equal one.
    pub fn copy(&self, alloc: Global) -> Result<Label, Memory>
        ensures { IfOk result (λ t. t ≡ self.now) }
    {
        let text = self.text.copy(alloc)?;
        Ok(Label { text })
    }
}
