ghost use Rattle.bye_lex.specs.Answers.{IsBorder, Reads, text_at};
ghost use Rattle.bye_lex.specs.IriSteps as spec;
ghost use Rattle.bye_lex.specs.Iris.{IriToken};
ghost use Rattle.bye_lex.specs.Machines.{stepped};
ghost use Rattle.bye_lex.specs.declared.iri.IriAt.TheVariants.{Start as spec_start, Opened as spec_opened, Scheme as spec_scheme, Body as spec_body, Backslash as spec_backslash, Escape as spec_escape};
ghost use Rattle.bye_terms.specs.Characters.{is_iri_char as is_char};
ghost use Rattle.std.specs.Prelude.{◌≡◌, ◌++◌, ◌∷◌, [], true, IfOk};
ghost use Rattle.std.specs.Str.{IsUtf8};

use crate::escape::{EscapeAt, EscapeStep, Home};
use crate::fault::LexErr;
use crate::machine::{Machine, read_token};
use crate::measure::size;
use crate::place::cursor_at;
use crate::scheme::Scheme;
use crate::stepped::Stepped;
use crate::style::Style;
use bye_terms::characters::{is_iri_char, is_letter, is_scheme_char};
use bye_terms::{Iri, Memory};
use std::alloc::Global;

/// How far an IRI in its brackets was read, with what was read of it.
#[derive(Debug, Drop)]
pub enum IriAt {
    Start,
    Opened,
    Scheme(Scheme),
    Body(Iri),
    Backslash(Iri),
    Escape(EscapeAt, Iri),
    Done(Iri),
}

/// The IRI with one more character.
#[tactic(auto, using(crate::proofs::Longer::iri_longer))]
fn longer(iri: Iri, c: char) -> Result<Iri, Memory>
    requires { is_char c ≡ true }
    ensures { IfOk result (λ i. i ≡ iri ++ c ∷ []) }
{
    let text = iri.into_text().with_char(c)?;
    Ok(Iri::new(text))
}

fn start(c: char, style: Style) -> Stepped<IriAt>
    ensures { result ≡ stepped spec_start (spec.step style spec_start c) }
{
    if c == '<' {
        return Stepped::On(IriAt::Opened);
    }
    Stepped::Off(IriAt::Start)
}

fn opened(alloc: Global, c: char, style: Style) -> Result<Stepped<IriAt>, Memory>
    ensures { IfOk result (λ s. s ≡ stepped spec_opened (spec.step style spec_opened c)) }
{
    if is_letter(c) {
        return Ok(Stepped::On(IriAt::Scheme(Scheme::new(alloc, c)?)));
    }
    Ok(Stepped::Off(IriAt::Opened))
}

fn in_scheme(scheme: Scheme, c: char, style: Style) -> Result<Stepped<IriAt>, Memory>
    ensures { IfOk result (λ s. s ≡ stepped (spec_scheme scheme) (spec.step style (spec_scheme scheme) c)) }
{
    if c == ':' {
        return Ok(Stepped::On(IriAt::Body(scheme.into_iri()?)));
    }
    if is_scheme_char(c) {
        return Ok(Stepped::On(IriAt::Scheme(scheme.with_char(c)?)));
    }
    Ok(Stepped::Off(IriAt::Scheme(scheme)))
}

fn in_body(iri: Iri, c: char, style: Style) -> Result<Stepped<IriAt>, Memory>
    ensures { IfOk result (λ s. s ≡ stepped (spec_body iri) (spec.step style (spec_body iri) c)) }
{
    if c == '>' {
        return Ok(Stepped::On(IriAt::Done(iri)));
    }
    if c == '\\' && style.has_numbers() {
        return Ok(Stepped::On(IriAt::Backslash(iri)));
    }
    if is_iri_char(c) {
        return Ok(Stepped::On(IriAt::Body(longer(iri, c)?)));
    }
    Ok(Stepped::Off(IriAt::Body(iri)))
}

fn after_backslash(iri: Iri, c: char, style: Style) -> Stepped<IriAt>
    ensures { result ≡ stepped (spec_backslash iri) (spec.step style (spec_backslash iri) c) }
{
    match EscapeAt::begin(c) {
        Some(at) => Stepped::On(IriAt::Escape(at, iri)),
        None => Stepped::Off(IriAt::Backslash(iri)),
    }
}

fn in_escape(at: EscapeAt, iri: Iri, c: char, style: Style) -> Result<Stepped<IriAt>, Memory>
    ensures { IfOk result (λ s. s ≡ stepped (spec_escape at iri) (spec.step style (spec_escape at iri) c)) }
{
    match at.step(c, Home::Iri) {
        Some(EscapeStep::Within(at)) => Ok(Stepped::On(IriAt::Escape(at, iri))),
        Some(EscapeStep::Whole(c)) => Ok(Stepped::On(IriAt::Body(longer(iri, c)?))),
        None => Ok(Stepped::Off(IriAt::Escape(at, iri))),
    }
}

impl Machine for IriAt {
    ghost use Rattle.bye_lex.specs.IriSteps as spec;
    ghost use Rattle.bye_lex.specs.Kept.{iri_kept};

    type Token = Iri;

    ghost next = { spec.step };

    ghost whole = { spec.final };

    ghost longest = { spec.final };

    ghost kept = { iri_kept };

    #[tactic(auto, using(crate::proofs::Growing::iri_grown))]
    fn step(self, alloc: Global, c: char, style: Style) -> Result<Stepped<IriAt>, Memory> {
        match self {
            IriAt::Start => Ok(start(c, style)),
            IriAt::Opened => opened(alloc, c, style),
            IriAt::Scheme(scheme) => in_scheme(scheme, c, style),
            IriAt::Body(iri) => in_body(iri, c, style),
            IriAt::Backslash(iri) => Ok(after_backslash(iri, c, style)),
            IriAt::Escape(at, iri) => in_escape(at, iri, c, style),
            IriAt::Done(iri) => Ok(Stepped::Off(IriAt::Done(iri))),
        }
    }

    fn is_whole(&self) -> bool {
        matches!(self, IriAt::Done(_))
    }

    fn into_longest(self, _alloc: Global) -> Option<Iri> {
        match self {
            IriAt::Done(iri) => Some(iri),
            _ => None,
        }
    }

    fn kept(&self) -> usize {
        match self {
            IriAt::Start | IriAt::Opened => 0,
            IriAt::Scheme(scheme) => size(scheme.text()),
            IriAt::Body(iri) => size(iri.text()),
            IriAt::Backslash(iri) => size(iri.text()) + 1,
            IriAt::Escape(at, iri) => size(iri.text()) + at.kept(),
            IriAt::Done(iri) => size(iri.text()),
        }
    }
}

/// Reads the IRI in its brackets at the place `from`, in bytes (RDF 1.1 N-Triples, section 7, IRIREF; SPARQL 1.1 Query, section 19.8).
/// It gives the IRI and the place after it.
#[tactic(auto, using(crate::proofs::IriReads::iri_reads))]
pub fn iri_at(
    alloc: Global,
    bytes: &[u8],
    from: usize,
    style: Style,
) -> Result<(Iri, usize), LexErr>
    requires utf8 { IsUtf8 bytes.now }
    requires border { IsBorder bytes.now from }
    ensures { Reads (IriToken style) (text_at bytes.now from) from result }
{
    read_token(
        alloc,
        IriAt::Start,
        cursor_at(bytes, from),
        bytes.len(),
        style,
    )
}
