ghost use Rattle.std.specs.Prelude.{◌≡◌, ◌++◌, ◌∷◌, [], true, IfOk};
ghost use Rattle.bye_lex.specs.TokenParts.{are_dots};

use bye_terms::{Memory, Text};
use std::alloc::Global;
use std::marker::Model;

/// Dots after a label, which are part of it only where it goes on behind them.
#[derive(Debug, Drop)]
pub struct Dots {
    text: Text,
}

impl Model for Dots {
    ghost use Rattle.std.specs.Prelude.{◌≡◌, List, ℕ, true};
    ghost use Rattle.bye_lex.specs.TokenParts.{are_dots};

    ghost Value = { List ℕ };

    ghost view = { λ d. d.text };

    ghost invariant = { λ d. are_dots d.text ≡ true };
}

impl Dots {
    /// One dot.
    pub fn new(alloc: Global) -> Result<Dots, Memory>
        ensures { IfOk result (λ d. d ≡ 46 ∷ []) }
    {
        let text = Text::new(alloc).with_char('.')?;
        Ok(Dots { text })
    }

    /// One dot more.
    #[tactic(auto, using(crate::proofs::Longer::more_dots))]
    pub fn with_dot(self) -> Result<Dots, Memory>
        ensures { IfOk result (λ d. d ≡ self ++ 46 ∷ []) }
    {
        let text = self.text.with_char('.')?;
        Ok(Dots { text })
    }

    /// The dots.
    pub fn text(&self) -> &Text
        ensures text { result.now ≡ self.now }
        ensures valid { are_dots self.now ≡ true }
    {
        &self.text
    }
}
