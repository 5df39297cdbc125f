//! The work of `learn`.

ghost use Rattle.std.specs.Prelude.{◌≡◌, ◌<◌, ◌≤◌, ◌++◌, List, codes, length, IfOk, IfErr, OnOk};
ghost use Rattle.std.specs.Fmt.{decimal};
ghost use Rattle.std.specs.List.{AllByRecursion};
ghost use Rattle.std.specs.Str.{encode_utf8_all};
ghost use Rattle.bye_words.specs.Pairs.{Word};
ghost use Rattle.bye_cli.specs.Words.{IsLearn};
ghost use Rattle.bye_terms.specs.Terms.{IsTriple};
ghost use Rattle.bye_pattern.specs.Learning.{claim_of, common_query};
ghost use Rattle.bye_pattern.specs.Selects.{IsSelect};
ghost use Rattle.bye_tree.specs.Selects as spec;
ghost use Rattle.bye_cli.specs.Problem.{IsAnswer, IsClaimLine, IsWritten};
ghost use Rattle.bye_cli.specs.Causes.{IsCause};

use crate::answer::Answer;
use crate::ending::Ending;
use crate::graph_reader::GraphReader;
use crate::opening::read_document;
use crate::table_form::TableForm;
use crate::table_reader::TableReader;
use bye_io::Folder;
use bye_laws::read_as_selects;
use bye_pattern::{Claim, Conjunction, Learned, Node, learn};
use bye_printer::write_query;
use bye_table::Table;
use bye_terms::{Memory, Text, Triple, Var};
use bye_tree::{Select, Tree};
use bye_words::{Example, Refusal, Role};
use itoa::Buffer;
use std::alloc::Global;

fn push_variable(text: &mut Text, variable: &Var) -> Result<(), Memory>
    ensures { OnOk result (text.new ≡ text.old ++ (codes " ?" ++ variable.now ++ codes "\n")) }
{
    text.push_ascii(" ?")?;
    text.push_text(variable.name())?;
    text.push_ascii("\n")
}

fn push_number(text: &mut Text, number: usize) -> Result<(), Memory>
    ensures { OnOk result (text.new ≡ text.old ++ decimal number) }
{
    text.push_ascii(Buffer::new().format(number))
}

/// The line of a claim.
fn claim_line(alloc: Global, claim: &Claim) -> Result<Text, Memory>
    ensures { IfOk result (IsClaimLine (claim_of claim.now)) }
{
    let mut text = Text::new(alloc);
    match claim {
        Claim::Domains(one, other, variable) => {
            text.push_ascii("domains ")?;
            push_number(&mut text, *one)?;
            text.push_ascii(" ")?;
            push_number(&mut text, *other)?;
            push_variable(&mut text, variable)?;
        }
        Claim::NoRoot => text.push_ascii("noroot\n")?,
        Claim::Uncovered(variable) => {
            text.push_ascii("uncovered")?;
            push_variable(&mut text, variable)?;
        }
    }
    Ok(text)
}

/// The answer that is this text.
fn text_answer(alloc: Global, text: &Text, ending: Ending) -> Result<Answer, Memory>
    ensures { IfOk result (λ answer. (answer.ending ≡ ending) × (answer.bytes.items ≡ encode_utf8_all text.now)) }
{
    let bytes = Vec::from_slice(alloc, text.as_str().as_bytes())?;
    Ok(Answer { bytes, ending })
}

/// The select of a learned conjunction.
fn select_of(alloc: Global, query: Conjunction) -> Select
    requires { IsSelect (common_query query.vars.items query.triples.items) }
    ensures { spec.select_of result ≡ common_query query.vars.items query.triples.items }
{
    let root = Node::of_triples(alloc, query.triples);
    Select::plain(alloc, Tree::new(root), query.vars)
}

fn written(alloc: Global, graph: &[Triple], wanted: &Table) -> Result<Answer, Memory>
    requires triples { AllByRecursion IsTriple graph.now }
    requires some_row { 0 < length wanted.now.rows }
    ensures { IfOk result (λ answer. IsWritten graph.now wanted.now answer.ending answer.bytes.items) }
{
    read_as_selects();
    match learn(alloc, graph, wanted)? {
        Learned::Query(query) => {
            let select = select_of(alloc, query);
            let bytes = write_query(alloc, &select)?;
            Ok(Answer {
                bytes,
                ending: Ending::Done,
            })
        }
        Learned::Refused(claim) => {
            let text = claim_line(alloc, &claim)?;
            text_answer(alloc, &text, Ending::Refused)
        }
    }
}

/// What is learned from the documents of these names.
pub fn learned<F: Folder>(
    alloc: Global,
    folder: &mut F,
    graph_name: &Text,
    wanted_name: &Text,
    tables: TableForm,
) -> Result<Answer, Refusal>
    ensures answer { IfOk result (λ answer. (words : List Word) → IsLearn words graph_name.now wanted_name.now tables → IsAnswer (F.files folder.old) words answer) }
    ensures cause { IfErr result (λ refusal. (words : List Word) → IsLearn words graph_name.now wanted_name.now tables
        → IsCause (F.files folder.old) words (F.faults folder.old) (F.faults folder.new) refusal) }
    ensures files { F.files folder.new ≡ F.files folder.old }
    ensures later { F.faults folder.old ≤ F.faults folder.new }
{
    let graph = read_document(alloc, folder, &GraphReader, graph_name)?;
    let reader = TableReader {
        role: Role::Wanted,
        form: tables,
    };
    let wanted = read_document(alloc, folder, &reader, wanted_name)?;
    if wanted.rows().is_empty() {
        return Err(Refusal::Example(Example::NoWanted));
    }
    let answer = written(alloc, graph.as_slice(), &wanted)?;
    Ok(answer)
}
