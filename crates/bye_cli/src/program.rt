//! The top call.

ghost use Rattle.std.specs.Prelude.{◌≡◌, ◌≤◌, ◌⊎◌, ◌↔◌, IfOk, IfErr};
ghost use Rattle.bye_io.specs.Counts.{Rose};
ghost use Rattle.bye_cli.specs.Words.{IsNoCommand, IsSomeConvert, IsSomeRun};
ghost use Rattle.bye_cli.specs.Problem.{IsDoneOutput, IsRefusedOutput, IsOutput, IsAnswer};
ghost use Rattle.bye_cli.specs.Converting.{IsConversion};
ghost use Rattle.bye_cli.specs.Running.{IsCrowded, IsRunning};
ghost use Rattle.bye_cli.specs.Causes.{IsCause, IsFailure, IsFaulty, IsPast, IsMissing, IsWithoutRow, IsQuiet, IsAskedCase};
ghost use Rattle.bye_cli.specs.Headline.{Headline};
ghost use Rattle.bye_cli.specs.Messages.{IsMessage};
ghost use Rattle.bye_cli.specs.Statuses.{IsSilent, IsAnswered, Sends, SendsPart, outcome_status};
ghost use Rattle.bye_words.specs.declared.refusal.Refusal.TheVariants as refusals;

use crate::answer::Answer;
use crate::command::{Command, read_command};
use crate::converting::{converted, converted_table};
use crate::ending::Ending;
use crate::learning::learned;
use crate::report::report;
use crate::running::ran;
use bye_io::{Folder, Sink, write_all};
use bye_terms::Text;
use bye_words::{Refusal, Status};
use std::alloc::Global;

fn answer<F: Folder>(alloc: Global, words: &[Text], folder: &mut F) -> Result<Answer, Refusal>
    ensures answer { IfOk result (IsAnswer (F.files folder.old) words.now) }
    ensures cause { IfErr result (IsCause (F.files folder.old) words.now (F.faults folder.old) (F.faults folder.new)) }
    ensures files { F.files folder.new ≡ F.files folder.old }
    ensures later { F.faults folder.old ≤ F.faults folder.new }
{
    match read_command(words) {
        Some(
            Command::Learn {
                graph,
                wanted,
                tables,
            },
        ) => learned(alloc, folder, graph, wanted, tables),
        Some(Command::Convert { graph }) => converted(alloc, folder, graph),
        Some(Command::ConvertTable { table, from, to }) => {
            converted_table(alloc, folder, table, from, to)
        }
        Some(Command::Run { graph, query, form }) => ran(alloc, folder, graph, query, form),
        None => Err(Refusal::Words),
    }
}

/// Runs the command that the words give, but for what goes to `err`.
#[tactic(auto, using(crate::proofs::Asked::answer_command, crate::proofs::Asked::is_output))]
fn perform<F: Folder, S: Sink>(
    alloc: Global,
    words: &[Text],
    folder: &mut F,
    out: &mut S,
) -> Result<Ending, Refusal>
    ensures done { result ≡ Ok Ending.Done → Sends (IsDoneOutput (F.files folder.old) words.now) (S.sent out.old) (S.sent out.new) }
    ensures refused { result ≡ Ok Ending.Refused → Sends (IsRefusedOutput (F.files folder.old) words.now) (S.sent out.old) (S.sent out.new) }
    ensures write_fault { result ≡ Err refusals.WriteFault → SendsPart (IsOutput (F.files folder.old) words.now) (S.sent out.old) (S.sent out.new) }
    ensures write_rose { result ≡ Err refusals.WriteFault → Rose (S.faults out.old) (S.faults out.new) }
    ensures silent { IsSilent (outcome_status result) → S.sent out.new ≡ S.sent out.old }
    ensures failed { IsFailure (F.files folder.old) words.now (F.faults folder.old) (F.faults folder.new) result }
    ensures files { F.files folder.new ≡ F.files folder.old }
    ensures later { F.faults folder.old ≤ F.faults folder.new }
    ensures out_later { S.faults out.old ≤ S.faults out.new }
    ensures out_doors { S.doors out.new ≡ S.doors out.old }
    ensures out_aside { S.aside out.new ≡ S.aside out.old }
{
    let answer = answer(alloc, words, folder)?;
    match write_all(out, answer.bytes.as_slice()) {
        Ok(()) => Ok(answer.ending),
        Err(_) => Err(Refusal::WriteFault),
    }
}

/// Runs the command that the words give: its documents are read from the folder, its output goes to `out`, and why there
/// is none goes to `err`.
pub fn run_program<F: Folder, S: Sink, E: Sink>(
    alloc: Global,
    words: &[Text],
    folder: &mut F,
    out: &mut S,
    err: &mut E,
) -> Status
    // What is learned is right, and a refusal is justified.
    ensures headline { Headline (F.files folder.old) words.now (Rose (F.faults folder.old) (F.faults folder.new) ⊎ Rose (S.faults out.old) (S.faults out.new))
        (S.sent out.old) (S.sent out.new) result }

    // What is converted is the canonical document of the graph's triples.
    ensures converted { IsSomeConvert words.now → IsConversion (F.files folder.old) words.now (S.sent out.old) (S.sent out.new) result }

    // What is run is answered by the algebra.
    ensures ran { IsSomeRun words.now → IsRunning (F.files folder.old) words.now (S.sent out.old) (S.sent out.new) result }

    // What is written.
    ensures done { result ≡ Status.Done → Sends (IsDoneOutput (F.files folder.old) words.now) (S.sent out.old) (S.sent out.new) }
    ensures refused { result ≡ Status.Refused → Sends (IsRefusedOutput (F.files folder.old) words.now) (S.sent out.old) (S.sent out.new) }
    ensures write_fault { result ≡ Status.WriteFault → SendsPart (IsOutput (F.files folder.old) words.now) (S.sent out.old) (S.sent out.new) }
    ensures silent { IsSilent result → S.sent out.new ≡ S.sent out.old }

    // What goes to `err`: nothing on Done and Refused, and else the line of what stopped the command.
    ensures err { IsMessage (F.files folder.old) words.now (F.faults folder.old) (F.faults folder.new) result
        (Rose (E.faults err.old) (E.faults err.new)) (E.sent err.old) (E.sent err.new) }

    // What each other status says.
    ensures words { result ≡ Status.Words ↔ IsNoCommand words.now }
    ensures document { result ≡ Status.Document → IsFaulty (F.files folder.old) words.now }
    ensures limit { result ≡ Status.Limit → IsPast (F.files folder.old) words.now ⊎ IsCrowded (F.files folder.old) words.now }
    ensures example { result ≡ Status.Example → IsWithoutRow (F.files folder.old) words.now }
    ensures read_fault { result ≡ Status.ReadFault → Rose (F.faults folder.old) (F.faults folder.new) ⊎ IsMissing (F.files folder.old) words.now }
    ensures write_rose { result ≡ Status.WriteFault → Rose (S.faults out.old) (S.faults out.new) }

    // Where the folder tells its files and its count did not rise, each comes exactly there, but for want of memory.
    ensures faulty { IsQuiet (F.files folder.old) (F.faults folder.old) (F.faults folder.new) → IsFaulty (F.files folder.old) words.now
        → result ≡ Status.Document ⊎ result ≡ Status.Memory }
    ensures too_long { IsQuiet (F.files folder.old) (F.faults folder.old) (F.faults folder.new) → IsPast (F.files folder.old) words.now
        → result ≡ Status.Limit ⊎ result ≡ Status.Memory }
    ensures crowded { IsQuiet (F.files folder.old) (F.faults folder.old) (F.faults folder.new) → IsCrowded (F.files folder.old) words.now
        → result ≡ Status.Limit ⊎ result ≡ Status.Memory }
    ensures missing { IsQuiet (F.files folder.old) (F.faults folder.old) (F.faults folder.new) → IsMissing (F.files folder.old) words.now
        → result ≡ Status.ReadFault ⊎ result ≡ Status.Memory }
    ensures without_row { IsQuiet (F.files folder.old) (F.faults folder.old) (F.faults folder.new) → IsWithoutRow (F.files folder.old) words.now
        → result ≡ Status.Example ⊎ result ≡ Status.Memory }

    // Where moreover the output's count did not rise, a question with a row, a document to convert and a query
    // with no more answers than may be are answered.
    ensures complete { IsQuiet (F.files folder.old) (F.faults folder.old) (F.faults folder.new) → ¬ (Rose (S.faults out.old) (S.faults out.new))
        → IsAskedCase (F.files folder.old) words.now → IsAnswered result }

    // No call changes the files, or what an output tells beside what was sent; and no count falls.
    ensures files { F.files folder.new ≡ F.files folder.old }
    ensures later { F.faults folder.old ≤ F.faults folder.new }
    ensures out_later { S.faults out.old ≤ S.faults out.new }
    ensures out_doors { S.doors out.new ≡ S.doors out.old }
    ensures out_aside { S.aside out.new ≡ S.aside out.old }
    ensures err_later { E.faults err.old ≤ E.faults err.new }
    ensures err_doors { E.doors err.new ≡ E.doors err.old }
    ensures err_aside { E.aside err.new ≡ E.aside err.old }
{
    let outcome = perform(alloc, words, folder, out);
    report(outcome, err)
}
