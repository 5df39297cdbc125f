ghost use Rattle.bye_terms.specs.Characters.{is_letter, is_scheme_char};
ghost use Rattle.std.specs.Prelude.{◌≡◌, ◌++◌, ◌∷◌, [], true, IfOk};

use bye_terms::{Iri, Memory, Text};
use std::alloc::Global;
use std::marker::Model;

/// The scheme of an IRI, or the beginning of one (RFC 3986, section 3.1).
#[derive(Debug, Drop)]
pub struct Scheme {
    text: Text,
}

impl Model for Scheme {
    ghost use Rattle.std.specs.Prelude.{◌≡◌, List, ℕ, true};
    ghost use Rattle.bye_lex.specs.TokenParts.{is_scheme};

    ghost Value = { List ℕ };

    ghost view = { λ s. s.text };

    ghost invariant = { λ s. is_scheme s.text ≡ true };
}

impl Scheme {
    /// The first letter.
    pub fn new(alloc: Global, c: char) -> Result<Scheme, Memory>
        requires { is_letter c ≡ true }
        ensures { IfOk result (λ s. s ≡ c ∷ []) }
    {
        let text = Text::new(alloc).with_char(c)?;
        Ok(Scheme { text })
    }

    /// The scheme with one more character.
    #[tactic(auto, using(crate::proofs::Longer::scheme_longer))]
    pub fn with_char(self, c: char) -> Result<Scheme, Memory>
        requires { is_scheme_char c ≡ true }
        ensures { IfOk result (λ s. s ≡ self ++ c ∷ []) }
    {
        let text = self.text.with_char(c)?;
        Ok(Scheme { text })
    }

    /// The scheme.
    pub fn text(&self) -> &Text
        ensures { result.now ≡ self.now }
    {
        &self.text
    }

    /// The IRI of the scheme and a colon.
    #[tactic(auto, using(crate::proofs::Longer::scheme_iri))]
    pub fn into_iri(self) -> Result<Iri, Memory>
        ensures { IfOk result (λ iri. iri ≡ self ++ 58 ∷ []) }
    {
        let text = self.text.with_char(':')?;
        Ok(Iri::new(text))
    }
}
