//! The command that the words give.

ghost use Rattle.std.specs.Prelude.{List, IfSome, IfNone};
ghost use Rattle.bye_words.specs.Pairs.{Word};
ghost use Rattle.bye_words.specs.Forms as forms;
ghost use Rattle.bye_cli.specs.Words.{HasForm, HasTables, IsCommand, IsNoCommand};
ghost use Rattle.bye_cli.specs.Commands.{command_of};

use crate::table_form::{TableForm, WrittenForm, read_form, written_form};
use bye_terms::Text;
use bye_words::{FormName, Settings, forms, read_words};

/// A command, with the names of its documents and the forms of its tables.
pub enum Command<'a> {
    Learn {
        graph: &'a Text,
        wanted: &'a Text,
        tables: TableForm,
    },
    Convert {
        graph: &'a Text,
    },
    ConvertTable {
        table: &'a Text,
        from: TableForm,
        to: WrittenForm,
    },
    Run {
        graph: &'a Text,
        query: &'a Text,
        form: WrittenForm,
    },
}

/// The form of the tables of examples.
fn tables_form(settings: &Settings<'_>) -> TableForm
    requires { forms.AreOf forms.learn settings.now }
    ensures { HasTables settings.now result }
{
    match settings.value("--tables") {
        Some(word) => read_form(word),
        None => TableForm::Tsv,
    }
}

fn learn_command<'a>(settings: &Settings<'a>) -> Command<'a>
    requires { forms.AreOf forms.learn settings.now }
    ensures { (words : List Word) → forms.IsLine words forms.learn settings.now → IsCommand words (command_of result) }
{
    Command::Learn {
        graph: settings.must("--graph"),
        wanted: settings.must("--wanted"),
        tables: tables_form(settings),
    }
}

fn convert_command<'a>(settings: &Settings<'a>) -> Command<'a>
    requires { forms.AreOf forms.convert settings.now }
    ensures { (words : List Word) → forms.IsLine words forms.convert settings.now → IsCommand words (command_of result) }
{
    Command::Convert {
        graph: settings.must("--graph"),
    }
}

fn convert_table_command<'a>(settings: &Settings<'a>) -> Command<'a>
    requires { forms.AreOf forms.convert_table settings.now }
    ensures { (words : List Word) → forms.IsLine words forms.convert_table settings.now → IsCommand words (command_of result) }
{
    Command::ConvertTable {
        table: settings.must("--table"),
        from: read_form(settings.must("--from")),
        to: written_form(settings.must("--to")),
    }
}

/// The form of the answers.
fn answers_form(settings: &Settings<'_>) -> WrittenForm
    requires { forms.AreOf forms.run settings.now }
    ensures { HasForm settings.now result }
{
    match settings.value("--as") {
        Some(word) => written_form(word),
        None => WrittenForm::Tsv,
    }
}

fn run_command<'a>(settings: &Settings<'a>) -> Command<'a>
    requires { forms.AreOf forms.run settings.now }
    ensures { (words : List Word) → forms.IsLine words forms.run settings.now → IsCommand words (command_of result) }
{
    Command::Run {
        graph: settings.must("--graph"),
        query: settings.must("--query"),
        form: answers_form(settings),
    }
}

/// The command that the words give.
pub fn read_command(words: &[Text]) -> Option<Command<'_>>
    ensures command { IfSome result (λ command. IsCommand words.now (command_of command)) }
    ensures none { IfNone result (IsNoCommand words.now) }
{
    let reading = read_words(forms(), words)?;
    Some(match reading.form {
        FormName::Learn => learn_command(&reading.settings),
        FormName::Convert => convert_command(&reading.settings),
        FormName::ConvertTable => convert_table_command(&reading.settings),
        FormName::Run => run_command(&reading.settings),
    })
}
