ghost use Rattle.std.specs.Prelude.{◌≡◌};
ghost use Rattle.bye_words.specs.Lines.{fault_text};
ghost use Rattle.bye_words.specs.Told.{told_text};

use crate::more::More;
use crate::rule::Rule;
use crate::told::Told;
use bye_terms::Text;

/// Why a document is not of its form.
#[derive(Debug, Drop)]
pub enum Fault {
    /// No document begins so, from the character at this place in bytes on; or it ends at this place and is none.
    Syntax(usize),
    /// What stands at this place in bytes is no character of UTF-8.
    NotUtf8(usize),
    /// The header of a table is wrong at this place in bytes.
    Header(usize),
    /// A term of a table is wrong at this place in bytes.
    Term(usize),
    /// This line of a table has another number of fields than the header.
    Fields(u64),
    /// It is no JSON.
    NotJson,
    /// It is no JSON of bindings.
    NotBindings,
    /// The variable of this number in the head is none, or is there twice.
    BadVariable(u32),
    /// The row of this number binds a variable that the head does not have.
    Unlisted(u32),
    /// In the row of this number the variable of this number has no term.
    BadTerm(u32, u32),
    /// At this place in bytes stands this word of a part of the language that is left out.
    LeftOut(usize, Text),
    /// At this place in bytes stands a prefix that is not declared.
    UnknownPrefix(usize),
    /// A node of the query breaks this rule: the child numbers on the way to it from the root.
    Broken(Rule, Vec<u32>),
    /// A query without DISTINCT leaves variables out.
    Projected,
    /// The first line of a certificate is of no version that is known.
    Version,
    /// This line of a certificate is wrong.
    Line(u64),
}

impl Fault {
    /// What a line says of it.
    pub fn told(&self) -> Told<'_>
        ensures { told_text result ≡ fault_text self.now }
    {
        match self {
            Fault::Syntax(place) | Fault::Header(place) | Fault::Term(place) => {
                Told::new("fault at byte ", More::Number(*place as u64))
            }
            Fault::NotUtf8(place) => Told::new("not UTF-8 at byte ", More::Number(*place as u64)),
            Fault::Fields(line) => {
                Told::new("wrong number of fields in line ", More::Number(*line))
            }
            Fault::NotJson => Told::new("not JSON", More::Nothing),
            Fault::NotBindings => Told::new("no bindings", More::Nothing),
            Fault::BadVariable(number) => {
                Told::new("bad variable ", More::Number(*number as u64))
            }
            Fault::Unlisted(row) => Told::new(
                "unlisted variable in row ",
                More::Number(*row as u64),
            ),
            Fault::BadTerm(row, variable) => Told::new(
                "bad term in row ",
                More::Numbers(*row as u64, ", variable ", *variable as u64),
            ),
            Fault::LeftOut(place, word) => {
                Told::new("left out at byte ", More::Word(*place as u64, word))
            }
            Fault::UnknownPrefix(place) => {
                Told::new("unknown prefix at byte ", More::Number(*place as u64))
            }
            Fault::Broken(rule, path) => Told::new(rule.text(), More::Node(path.as_slice())),
            Fault::Projected => { Told::new("variables left out without DISTINCT", More::Nothing) }
            Fault::Version => Told::new("unknown version", More::Nothing),
            Fault::Line(line) => Told::new("fault in line ", More::Number(*line)),
        }
    }
}
