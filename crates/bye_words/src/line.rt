//! The line of a refusal, in pieces.

ghost use Rattle.std.specs.Prelude.{◌≡◌};
ghost use Rattle.bye_words.specs.Lines.{refusal_text, remote_text};
ghost use Rattle.bye_words.specs.Told.{line_text};

use crate::more::More;
use crate::refusal::Refusal;
use crate::remote::Remote;
use crate::told::Told;

/// What a line says: of what, and what is wrong there.
#[derive(Clone, Copy)]
pub struct Line<'a> {
    pub head: &'static str,
    pub told: Told<'a>,
}

fn plain(head: &'static str, text: &'static str) -> Line<'static>
    ensures head { result.head.now ≡ head.now }
    ensures text { result.told.text.now ≡ text.now }
    ensures more { result.told.more ≡ More.Nothing }
{
    Line {
        head,
        told: Told::new(text, More::Nothing),
    }
}

fn remote_line(remote: &Remote) -> Line<'_>
    ensures { line_text result ≡ remote_text remote.now }
{
    match remote {
        Remote::Status(status) => Line {
            head: "remote: ",
            told: Told::new("status ", More::Number(*status as u64)),
        },
        Remote::Media => plain("remote: ", "media type"),
        Remote::Results(fault) => Line {
            head: "remote: results: ",
            told: fault.told(),
        },
        Remote::Limit(count) => plain("remote: results: ", count.text()),
        Remote::Reply(fault) => plain("remote: reply: ", fault.text()),
    }
}

/// What the line of a refusal says.
pub fn refusal_line(refusal: &Refusal) -> Line<'_>
    ensures { line_text result ≡ refusal_text refusal.now }
{
    match refusal {
        Refusal::Words => plain("", "words"),
        Refusal::Document(role, fault) => Line {
            head: role.head(),
            told: fault.told(),
        },
        Refusal::Limit(role, count) => plain(role.head(), count.text()),
        Refusal::Answers => plain("answer: ", "too many rows"),
        Refusal::ReadFault(role) => plain(role.head(), "read failed"),
        Refusal::WriteFault => plain("", "write failed"),
        Refusal::Memory => plain("", "no memory"),
        Refusal::LinkFault => plain("", "link failed"),
        Refusal::Example(example) => plain("", example.text()),
        Refusal::Remote(remote) => remote_line(remote),
    }
}
