ghost use Rattle.std.specs.Prelude.{◌≡◌, ◌↔◌, List, IsTrue, IfSome, IfNone};
ghost use Rattle.std.specs.List.{AllByRecursion};
ghost use Rattle.bye_terms.specs.Members.{In};
ghost use Rattle.bye_words.specs.Pairs.{Setting};
ghost use Rattle.bye_words.specs.Forms.{IsLine, AreOf, IsKnown, names_in};
ghost use Rattle.bye_words.specs.Tables.{names_of, form_of};

use crate::form_name::FormName;
use crate::name::{Name, are_known};
use crate::settings::Settings;
use crate::word::is_word;
use bye_terms::Text;

/// A form of the words: a command, and the names that pairs of a name and a value may have after it.
#[derive(Debug, Clone, Copy)]
pub struct Form {
    pub name: FormName,
    /// The first word.
    pub command: &'static str,
    /// The names that must be there.
    pub must: &'static [Name],
    /// The names that may be there.
    pub may: &'static [Name],
}

/// Whether each of these names is there.
fn are_there(names: &[Name], settings: &Settings<'_>) -> bool
    ensures { IsTrue result ↔ AllByRecursion (λ name. In (names_in settings.now) name.text) (names_of names.now) }
{
    match names.split_first() {
        Some((first, rest)) => settings.has(first.text) && are_there(rest, settings),
        None => true,
    }
}

impl Form {
    /// Whether each name is known, and its value is of its kind.
    fn knows(&self, settings: &Settings<'_>) -> bool
        ensures { IsTrue result ↔ AllByRecursion (λ setting. IsKnown (form_of self.now) setting) settings.now }
    {
        let mut rest = settings.copy();
        while let Some((name, value)) = rest.next() {
            if !are_known(self.must, name, value) && !are_known(self.may, name, value) {
                return false;
            }
        }
        true
    }

    /// Whether these settings are of this form.
    fn fits(&self, settings: &Settings<'_>) -> bool
        ensures { IsTrue result ↔ AreOf (form_of self.now) settings.now }
    {
        self.knows(settings) && settings.is_each_once() && are_there(self.must, settings)
    }

    /// The settings, where the words are of this form.
    pub fn read<'w>(&self, words: &'w [Text]) -> Option<Settings<'w>>
        ensures some { IfSome result (λ settings. IsLine words.now (form_of self.now) settings) }
        ensures none { IfNone result ((settings : List Setting) → IsLine words.now (form_of self.now) settings → ⊥) }
    {
        let (command, rest) = words.split_first()?;
        if !is_word(command, self.command) {
            return None;
        }
        let settings = Settings::new(rest)?;
        if self.fits(&settings) {
            Some(settings)
        } else {
            None
        }
    }
}
