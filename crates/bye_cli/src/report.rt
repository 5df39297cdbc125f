//! What goes to `err`, and the status.

ghost use Rattle.std.specs.Prelude.{◌≡◌, ◌≤◌};
ghost use Rattle.bye_io.specs.Counts.{Rose};
ghost use Rattle.bye_cli.specs.Messages.{IsReport};
ghost use Rattle.bye_cli.specs.Statuses.{outcome_status};

use crate::ending::Ending;
use bye_io::Sink;
use bye_words::{Refusal, Status, send_line};

/// Sends the line of a refusal, and nothing where there is an answer. The status is that of the outcome, whatever `err` does.
pub fn report<E: Sink>(outcome: Result<Ending, Refusal>, err: &mut E) -> Status
    ensures status { result ≡ outcome_status outcome }
    ensures sent { IsReport outcome (Rose (E.faults err.old) (E.faults err.new)) (E.sent err.old) (E.sent err.new) }
    ensures later { E.faults err.old ≤ E.faults err.new }
    ensures doors { E.doors err.new ≡ E.doors err.old }
    ensures aside { E.aside err.new ≡ E.aside err.old }
{
    match outcome {
        Ok(Ending::Done) => Status::Done,
        Ok(Ending::Refused) => Status::Refused,
        Err(refusal) => {
            let _sent = send_line(err, &refusal);
            refusal.status()
        }
    }
}
