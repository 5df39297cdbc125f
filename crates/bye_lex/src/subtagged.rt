ghost use Rattle.bye_terms.specs.Characters.{is_letter_or_digit};
ghost use Rattle.std.specs.Prelude.{◌≡◌, ◌++◌, ◌∷◌, [], true, IfOk};

use bye_terms::{Memory, Tag, Text};
use std::marker::Model;

/// A language tag that has a hyphen, so that digits may follow.
#[derive(Debug, Drop)]
pub struct Subtagged {
    text: Text,
}

impl Model for Subtagged {
    ghost use Rattle.std.specs.Prelude.{◌≡◌, List, ℕ, true};
    ghost use Rattle.bye_lex.specs.TokenParts.{is_subtagged};

    ghost Value = { List ℕ };

    ghost view = { λ t. t.text };

    ghost invariant = { λ t. is_subtagged t.text ≡ true };
}

impl Subtagged {
    /// The tag with a hyphen and one more character.
    #[tactic(auto, using(crate::proofs::Longer::tag_subtag))]
    pub fn new(tag: Tag, c: char) -> Result<Subtagged, Memory>
        requires { is_letter_or_digit c ≡ true }
        ensures { IfOk result (λ t. t ≡ (tag ++ 45 ∷ []) ++ c ∷ []) }
    {
        let text = tag.into_text().with_char('-')?.with_char(c)?;
        Ok(Subtagged { text })
    }

    /// The tag with one more character.
    #[tactic(auto, using(crate::proofs::Longer::subtag_longer))]
    pub fn with_char(self, c: char) -> Result<Subtagged, Memory>
        requires { is_letter_or_digit c ≡ true }
        ensures { IfOk result (λ t. t ≡ self ++ c ∷ []) }
    {
        let text = self.text.with_char(c)?;
        Ok(Subtagged { text })
    }

    /// The text of the tag.
    pub fn text(&self) -> &Text
        ensures { result.now ≡ self.now }
    {
        &self.text
    }

    /// The tag.
    #[tactic(auto, using(crate::proofs::Longer::subtagged_tag))]
    pub fn into_tag(self) -> Tag
        ensures { result ≡ self }
    {
        Tag::new(self.text)
    }
}
