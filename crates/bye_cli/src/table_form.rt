//! The forms of table documents.

ghost use Rattle.std.specs.Prelude.{◌≡◌};
ghost use Rattle.bye_terms.specs.Members.{In};
ghost use Rattle.bye_words.specs.Forms.{read_forms, written_forms};
ghost use Rattle.bye_cli.specs.Words.{read_word, written_word};

use bye_terms::Text;
use bye_words::is_word;

/// A form in which tables are read.
#[derive(Debug, Clone, Copy)]
pub enum TableForm {
    Tsv,
    Json,
}

/// A form in which tables are written.
#[derive(Debug, Clone, Copy)]
pub enum WrittenForm {
    Tsv,
    Json,
    Csv,
}

/// The form that the word names.
pub fn read_form(word: &Text) -> TableForm
    requires { In read_forms word.now }
    ensures { word.now ≡ read_word result }
{
    if is_word(word, "tsv") {
        TableForm::Tsv
    } else {
        TableForm::Json
    }
}

/// The form that the word names.
pub fn written_form(word: &Text) -> WrittenForm
    requires { In written_forms word.now }
    ensures { word.now ≡ written_word result }
{
    if is_word(word, "tsv") {
        WrittenForm::Tsv
    } else if is_word(word, "json") {
        WrittenForm::Json
    } else {
        WrittenForm::Csv
    }
}
