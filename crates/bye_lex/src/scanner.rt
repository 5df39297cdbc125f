//! Machines that find the end of a token.

ghost use Rattle.std.specs.Prelude.{◌≡◌, ℕ, Option};

/// How far a token was read, without what it stands for.
pub trait Scanner: Sized + Copy {
    /// The kinds of tokens that it finds.
    type Form: Copy;

    /// The state after one more character, where some continuation is a token.
    ghost next: { Self → ℕ → Option Self };

    /// The kind of what was read, where it is a token.
    ghost whole: { Self → Option Self.Form };

    /// The state after one more character, and None where no continuation is a token.
    fn step(self, c: char) -> Option<Self>
        ensures { result ≡ next self c };

    /// The kind of what was read, where it is a token.
    fn form(self) -> Option<Self::Form>
        ensures { result ≡ whole self };
}
