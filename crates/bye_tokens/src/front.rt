//! The part of a text before a place in it.

ghost use Rattle.bye_tokens.specs.Ends.{EndsIn};
ghost use Rattle.bye_tokens.specs.Reading.{before as spec_before};
ghost use Rattle.std.specs.Prelude.{◌≡◌};
ghost use Rattle.std.specs.Str.{chars};

use bye_terms::Cursor;

/// What stands before the end of a text.
pub fn before<'a>(text: &Cursor<'a>, end: &Cursor<'a>) -> &'a str
    requires { EndsIn text.now end.now }
    ensures { chars result.now ≡ spec_before text.now end.now }
{
    let whole = text.rest();
    let last = end.rest();
    whole.split_at(whole.len() - last.len()).0
}
