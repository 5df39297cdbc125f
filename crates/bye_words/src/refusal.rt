//! Why there is no answer.

ghost use Rattle.std.specs.Prelude.{◌≡◌};
ghost use Rattle.bye_words.specs.Statuses.{status_of};

use crate::count::Count;
use crate::example::Example;
use crate::fault::Fault;
use crate::remote::Remote;
use crate::role::Role;
use crate::status::Status;
use bye_terms::Memory;

/// Why there is no answer: a status but Done and Refused, with what it speaks of and what is wrong there.
#[derive(Debug, Drop)]
pub enum Refusal {
    /// The words are not those of a command.
    Words,
    /// A document is not of its form.
    Document(Role, Fault),
    /// A document passes a limit.
    Limit(Role, Count),
    /// There are too many answers.
    Answers,
    /// A document could not be read.
    ReadFault(Role),
    /// The output could not be written.
    WriteFault,
    /// Memory was refused.
    Memory,
    /// The link to a peer failed.
    LinkFault,
    /// The examples are none that can be learned from.
    Example(Example),
    /// The reply of a peer is no answer.
    Remote(Remote),
}

impl Refusal {
    /// The status that it ends with.
    pub fn status(&self) -> Status
        ensures { result ≡ status_of self.now }
    {
        match self {
            Refusal::Words => Status::Words,
            Refusal::Document(_, _) => Status::Document,
            Refusal::Limit(_, _) | Refusal::Answers => Status::Limit,
            Refusal::ReadFault(_) => Status::ReadFault,
            Refusal::WriteFault => Status::WriteFault,
            Refusal::Memory => Status::Memory,
            Refusal::LinkFault => Status::LinkFault,
            Refusal::Example(_) => Status::Example,
            Refusal::Remote(_) => Status::Remote,
        }
    }
}

impl From<Memory> for Refusal {
    ghost use Rattle.bye_words.specs.declared.refusal.Refusal.TheVariants as refusals;
    ghost use Rattle.std.specs.Prelude.{◌≡◌};

    ghost from_gives = { λ _ refusal. refusal ≡ refusals.Memory };

    fn from(_: Memory) -> Self {
        Refusal::Memory
    }
}
