//! Runs of characters, taken at once where a machine would take them one after another.

ghost use Rattle.bye_lex.specs.Runs.{Cuts, IriRuns, StringRuns};
ghost use Rattle.std.specs.Prelude.{◌≡◌, true, take, IfOk};
ghost use Rattle.std.specs.List.{list_all};
ghost use Rattle.std.specs.Str.{chars};

use crate::class::{Class, InIri, InString};
use crate::iri::IriAt;
use crate::string::StringAt;
use bye_terms::{Cursor, Iri, Memory};

/// How many bytes at the front are of the class.
fn run_length<C: Class>(bytes: &[u8]) -> usize
    ensures { list_all C.holds (take result bytes.now) ≡ true }
{
    let mut n = 0;
    for b in bytes {
        if !C::has(*b) {
            return n;
        }
        n += 1;
    }
    n
}

/// Cuts a run of the class from the front.
pub fn cut_run<'a, C: Class>(rest: &mut Cursor<'a>) -> &'a str
    ensures { Cuts C.holds rest.old (chars result.now) rest.new }
{
    let text = rest.rest();
    match text.split_at_checked(run_length::<C>(text.as_bytes())) {
        Some((front, more)) => {
            *rest = Cursor::new(more);
            front
        }
        None => "",
    }
}

/// The IRI with a run of its characters.
#[tactic(auto, using(crate::proofs::Runs::iri_run))]
fn longer_iri(iri: Iri, rest: &mut Cursor<'_>) -> Result<Iri, Memory>
    ensures { IfOk result (λ i. IriRuns (IriAt.Body iri) rest.old (IriAt.Body i) rest.new) }
{
    let mut text = iri.into_text();
    text.push_str(cut_run::<InIri>(rest))?;
    Ok(Iri::new(text))
}

impl IriAt {
    /// Takes what goes on with the IRI within its brackets, up to a character that is none of an IRI.
    pub fn take_run(self, rest: &mut Cursor<'_>) -> Result<IriAt, Memory>
        ensures { IfOk result (λ at. IriRuns self rest.old at rest.new) }
    {
        match self {
            IriAt::Body(iri) => Ok(IriAt::Body(longer_iri(iri, rest)?)),
            at => Ok(at),
        }
    }
}

impl StringAt {
    /// Takes what goes on with the string within its quotes, up to a character that may be no plain one.
    pub fn take_run(self, rest: &mut Cursor<'_>) -> Result<StringAt, Memory>
        ensures { IfOk result (λ at. StringRuns self rest.old at rest.new) }
    {
        match self {
            StringAt::In(quoting, mut text) => {
                text.push_str(cut_run::<InString>(rest))?;
                Ok(StringAt::In(quoting, text))
            }
            at => Ok(at),
        }
    }
}
