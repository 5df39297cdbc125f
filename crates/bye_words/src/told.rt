ghost use Rattle.std.specs.Prelude.{◌≡◌};

use crate::more::More;

/// A text of a line, and what follows it.
#[derive(Clone, Copy)]
pub struct Told<'a> {
    pub text: &'static str,
    pub more: More<'a>,
}

impl<'a> Told<'a> {
    /// The text, with what follows it.
    pub fn new(text: &'static str, more: More<'a>) -> Told<'a>
        ensures text { result.text.now ≡ text.now }
        ensures more { result.more ≡ more.entry }
    {
        Told { text, more }
    }
}
