//! The work of `convert`.

ghost use Rattle.std.specs.Prelude.{◌≡◌, ◌≤◌, List, IfOk, IfErr};
ghost use Rattle.bye_words.specs.Pairs.{Word};
ghost use Rattle.bye_cli.specs.Words.{IsConvert, IsConvertTable};
ghost use Rattle.bye_cli.specs.Converting.{table_bytes};
ghost use Rattle.bye_cli.specs.Problem.{IsAnswer};
ghost use Rattle.bye_cli.specs.Causes.{IsCause};

use crate::answer::Answer;
use crate::ending::Ending;
use crate::graph_reader::GraphReader;
use crate::opening::read_document;
use crate::table_form::{TableForm, WrittenForm};
use crate::table_reader::TableReader;
use bye_io::Folder;
use bye_json::write_json;
use bye_ntriples::write_triples;
use bye_table::Table;
use bye_terms::{Memory, Text};
use bye_tsv::{write_csv, write_tsv};
use bye_words::{Refusal, Role};
use std::alloc::Global;

/// The canonical document of the graph of this name.
pub fn converted<F: Folder>(alloc: Global, folder: &mut F, name: &Text) -> Result<Answer, Refusal>
    ensures answer { IfOk result (λ answer. (words : List Word) → IsConvert words name.now → IsAnswer (F.files folder.old) words answer) }
    ensures cause { IfErr result (λ refusal. (words : List Word) → IsConvert words name.now
        → IsCause (F.files folder.old) words (F.faults folder.old) (F.faults folder.new) refusal) }
    ensures files { F.files folder.new ≡ F.files folder.old }
    ensures later { F.faults folder.old ≤ F.faults folder.new }
{
    let graph = read_document(alloc, folder, &GraphReader, name)?;
    let bytes = write_triples(alloc, graph.as_slice())?;
    Ok(Answer {
        bytes,
        ending: Ending::Done,
    })
}

/// The document of the table in the form.
pub fn write_table(alloc: Global, table: &Table, to: WrittenForm) -> Result<Vec<u8>, Memory>
    ensures { IfOk result (λ bytes. bytes.items ≡ table_bytes to table.now) }
{
    match to {
        WrittenForm::Tsv => write_tsv(alloc, table),
        WrittenForm::Json => write_json(alloc, table),
        WrittenForm::Csv => write_csv(alloc, table),
    }
}

/// The table of this name, written in another form, its rows in their order.
pub fn converted_table<F: Folder>(
    alloc: Global,
    folder: &mut F,
    name: &Text,
    from: TableForm,
    to: WrittenForm,
) -> Result<Answer, Refusal>
    ensures answer { IfOk result (λ answer. (words : List Word) → IsConvertTable words name.now from to → IsAnswer (F.files folder.old) words answer) }
    ensures cause { IfErr result (λ refusal. (words : List Word) → IsConvertTable words name.now from to
        → IsCause (F.files folder.old) words (F.faults folder.old) (F.faults folder.new) refusal) }
    ensures files { F.files folder.new ≡ F.files folder.old }
    ensures later { F.faults folder.old ≤ F.faults folder.new }
{
    let reader = TableReader {
        role: Role::Table,
        form: from,
    };
    let table = read_document(alloc, folder, &reader, name)?;
    let bytes = write_table(alloc, &table, to)?;
    Ok(Answer {
        bytes,
        ending: Ending::Done,
    })
}
