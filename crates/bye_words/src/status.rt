ghost use Rattle.std.specs.Prelude.{◌≡◌};
ghost use Rattle.std.specs.Process.{exit_status};
ghost use Rattle.bye_words.specs.Statuses.{number_of};

use std::process::ExitCode;

/// How the program ended.
#[derive(Debug, Clone, Copy, PartialEq, Eq)]
pub enum Status {
    /// The command's work was done.
    Done = 0,
    /// No query of the class fits.
    Refused = 1,
    /// The words are not those of a command.
    Words = 2,
    /// A document is not of its form.
    Document = 3,
    /// A document passes a limit, or the answers do.
    Limit = 4,
    /// A document could not be read.
    ReadFault = 5,
    /// The output could not be written.
    WriteFault = 6,
    /// Memory was refused.
    Memory = 7,
    /// The link to a peer failed.
    LinkFault = 8,
    /// There is no wanted row, or the examples do not go with the class.
    Example = 9,
    /// The reply of a peer is no answer.
    Remote = 10,
}

impl Status {
    /// What the process ends with: the status's number.
    pub fn exit_code(self) -> ExitCode
        ensures { exit_status result ≡ number_of self }
    {
        ExitCode::from(self as u8)
    }
}
