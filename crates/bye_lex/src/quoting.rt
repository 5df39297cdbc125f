ghost use Rattle.bye_lex.specs.Strings as strings;
ghost use Rattle.bye_lex.specs.StringSteps as spec;
ghost use Rattle.std.specs.Prelude.{◌≡◌};

use crate::style::Style;

/// The quote of a string.
#[derive(Debug, Copy, Clone)]
pub enum Quote {
    /// `"`
    Double,
    /// `'`
    Single,
}

/// What is around a string: its quote, or that three times.
#[derive(Debug, Copy, Clone)]
pub enum Quoting {
    Short(Quote),
    Long(Quote),
}

impl Quote {
    /// The character.
    pub fn mark(self) -> char
        ensures { result ≡ strings.mark_of self }
    {
        match self {
            Quote::Double => '"',
            Quote::Single => '\'',
        }
    }
}

impl Quoting {
    /// Whether the character stands raw in such a string.
    fn may_hold(self, c: char, style: Style) -> bool
        ensures { result ≡ strings.may_stand style self c }
    {
        match self {
            Quoting::Short(quote) => {
                c != quote.mark()
                    && !matches!(c, '\\' | '\n' | '\r')
                    && !(style.is_tsv() && c == '\t')
            }
            Quoting::Long(quote) => c != quote.mark() && c != '\\',
        }
    }

    /// Whether the character stands raw in such a string or begins an escape.
    pub fn takes(self, c: char, style: Style) -> bool
        ensures { result ≡ spec.takes style self c }
    {
        c == '\\' || self.may_hold(c, style)
    }
}
