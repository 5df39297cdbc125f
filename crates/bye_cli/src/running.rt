//! The work of `run`.

ghost use Rattle.std.specs.Prelude.{◌≡◌, ◌≤◌, List, IfOk, IfErr, length};
ghost use Rattle.bye_graph.specs.Graphs.{most_triples};
ghost use Rattle.bye_tree.specs.Selects.{select_of};
ghost use Rattle.bye_words.specs.Pairs.{Word};
ghost use Rattle.bye_cli.specs.Words.{IsRun};
ghost use Rattle.bye_cli.specs.Problem.{IsAnswer};
ghost use Rattle.bye_cli.specs.Causes.{IsCause};
ghost use Rattle.bye_cli.specs.Answering.{IsAnswerTable, IsNoTable};

use crate::answer::Answer;
use crate::converting::write_table;
use crate::ending::Ending;
use crate::graph_reader::GraphReader;
use crate::opening::read_document;
use crate::query_reader::QueryReader;
use crate::table_form::WrittenForm;
use bye_graph::Graph;
use bye_io::Folder;
use bye_member::{AnsErr, answers};
use bye_table::{Table, sorted_set};
use bye_terms::{Text, Triple};
use bye_tree::Select;
use bye_words::Refusal;
use std::alloc::Global;

/// The sorted set of the answers of a query over the graph of these triples.
fn answer_table(alloc: Global, triples: Vec<Triple>, select: &Select) -> Result<Table, Refusal>
    requires { length triples.items ≤ most_triples }
    ensures table { IfOk result (IsAnswerTable triples.items (select_of select.now)) }
    ensures cause { IfErr result (IsNoTable triples.items (select_of select.now)) }
{
    let graph = Graph::build(alloc, triples)?;
    match answers(alloc, &graph, select) {
        Ok(table) => {
            let sorted = sorted_set(alloc, &table)?;
            Ok(sorted)
        }
        Err(AnsErr::TooManyRows) => Err(Refusal::Answers),
        Err(AnsErr::Memory) => Err(Refusal::Memory),
    }
}

/// The sorted set of the answers that the query of this name has over the graph of this name, in the form.
pub fn ran<F: Folder>(
    alloc: Global,
    folder: &mut F,
    graph_name: &Text,
    query_name: &Text,
    form: WrittenForm,
) -> Result<Answer, Refusal>
    ensures answer { IfOk result (λ answer. (words : List Word) → IsRun words graph_name.now query_name.now form → IsAnswer (F.files folder.old) words answer) }
    ensures cause { IfErr result (λ refusal. (words : List Word) → IsRun words graph_name.now query_name.now form
        → IsCause (F.files folder.old) words (F.faults folder.old) (F.faults folder.new) refusal) }
    ensures files { F.files folder.new ≡ F.files folder.old }
    ensures later { F.faults folder.old ≤ F.faults folder.new }
{
    let triples = read_document(alloc, folder, &GraphReader, graph_name)?;
    let select = read_document(alloc, folder, &QueryReader, query_name)?;
    let table = answer_table(alloc, triples, &select)?;
    let bytes = write_table(alloc, &table, form)?;
    Ok(Answer {
        bytes,
        ending: Ending::Done,
    })
}
