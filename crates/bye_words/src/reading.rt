//! The one reader of the words.

ghost use Rattle.std.specs.Prelude.{IfSome, IfNone};
ghost use Rattle.bye_words.specs.Forms.{IsReading, IsNoReading};
ghost use Rattle.bye_words.specs.Tables.{forms_of};

use crate::form::Form;
use crate::form_name::FormName;
use crate::settings::Settings;
use bye_terms::Text;

/// What the words are read as: a form, and the settings.
#[derive(Drop)]
pub struct Reading<'w> {
    pub form: FormName,
    pub settings: Settings<'w>,
}

/// What the words are read as by a table of forms.
pub fn read_words<'w>(table: &[Form], words: &'w [Text]) -> Option<Reading<'w>>
    ensures some { IfSome result (λ reading. IsReading (forms_of table.now) words.now reading.form reading.settings) }
    ensures none { IfNone result (IsNoReading (forms_of table.now) words.now) }
{
    match table.split_first() {
        Some((first, rest)) => match first.read(words) {
            Some(settings) => Some(Reading {
                form: first.name,
                settings,
            }),
            None => read_words(rest, words),
        },
        None => None,
    }
}
