//! The machine of fields: how far a field was read, and what one more character makes of that.

ghost use Rattle.bye_tsv.specs.Fields.{string_of, tagged_of};
ghost use Rattle.bye_tsv.specs.DocRuns.{FieldRuns};
ghost use Rattle.bye_tsv.specs.FieldSteps as spec;
ghost use Rattle.bye_tsv.specs.Kept.{field_kept};
ghost use Rattle.bye_lex.specs.declared.iri.IriAt.TheVariants as iris;
ghost use Rattle.std.specs.Prelude.{◌≡◌, ◌<◌, ◌^◌, ℕ, List, IfOk, Some, is_some};

use crate::number::number;
use crate::word::{WordAt, boolean};
use bye_lex::{IriAt, LabelAt, Machine, NumberAt, Scanner, Stepped, StringAt, Style, TagAt, size};
use bye_terms::{Cursor, Iri, Literal, Memory, Tag, Term, Text};
use std::alloc::Global;

/// How far a field was read.
#[derive(Debug, Drop)]
pub enum FieldAt {
    /// Nothing of it.
    Empty,
    Iri(IriAt),
    Label(LabelAt),
    String(StringAt),
    /// In the tag of a string.
    Tag(Text, TagAt),
    /// After a string and the first `^`.
    Caret(Text),
    /// After both of them, in the datatype of a string.
    Datatype(Text, IriAt),
    Number(NumberAt, Text),
    Word(WordAt),
}

fn in_iri(alloc: Global, at: IriAt, c: char) -> Result<Option<FieldAt>, Memory>
    ensures { IfOk result (λ o. o ≡ spec.in_iri at c) }
{
    match at.step(alloc, c, Style::Tsv)? {
        Stepped::On(at) => Ok(Some(FieldAt::Iri(at))),
        Stepped::Off(_) => Ok(None),
    }
}

fn in_label(alloc: Global, at: LabelAt, c: char) -> Result<Option<FieldAt>, Memory>
    ensures { IfOk result (λ o. o ≡ spec.step (FieldAt.Label at) c) }
{
    match at.step(alloc, c, Style::Tsv)? {
        Stepped::On(at) => Ok(Some(FieldAt::Label(at))),
        Stepped::Off(_) => Ok(None),
    }
}

fn in_tag(alloc: Global, lexical: Text, at: TagAt, c: char) -> Result<Option<FieldAt>, Memory>
    ensures { IfOk result (λ o. o ≡ spec.step (FieldAt.Tag lexical at) c) }
{
    match at.step(alloc, c, Style::Tsv)? {
        Stepped::On(at) => Ok(Some(FieldAt::Tag(lexical, at))),
        Stepped::Off(_) => Ok(None),
    }
}

fn after_string(alloc: Global, lexical: Text, c: char) -> Result<Option<FieldAt>, Memory>
    ensures { IfOk result (λ o. o ≡ spec.after_string lexical c) }
{
    if c == '^' {
        return Ok(Some(FieldAt::Caret(lexical)));
    }
    in_tag(alloc, lexical, TagAt::Start, c)
}

fn in_string(alloc: Global, at: StringAt, c: char) -> Result<Option<FieldAt>, Memory>
    ensures { IfOk result (λ o. o ≡ spec.in_string at c) }
{
    match at.step(alloc, c, Style::Tsv)? {
        Stepped::On(at) => Ok(Some(FieldAt::String(at))),
        Stepped::Off(StringAt::Done(lexical)) => after_string(alloc, lexical, c),
        Stepped::Off(StringAt::Empty(_)) => after_string(alloc, Text::new(alloc), c),
        Stepped::Off(_) => Ok(None),
    }
}

fn caret(lexical: Text, c: char) -> Option<FieldAt>
    ensures { result ≡ spec.step (FieldAt.Caret lexical) c }
{
    if c == '^' {
        return Some(FieldAt::Datatype(lexical, IriAt::Start));
    }
    None
}

/// A datatype that is read to its end, which is not rdf:langString.
fn datatype_done(lexical: Text, datatype: Iri) -> Option<FieldAt>
    ensures { result ≡ spec.datatype_at lexical (iris.Done datatype) (Some datatype) }
{
    if datatype.is_lang_string() {
        return None;
    }
    Some(FieldAt::Datatype(lexical, IriAt::Done(datatype)))
}

fn in_datatype(alloc: Global, lexical: Text, at: IriAt, c: char) -> Result<Option<FieldAt>, Memory>
    ensures { IfOk result (λ o. o ≡ spec.in_datatype lexical at c) }
{
    match at.step(alloc, c, Style::Tsv)? {
        Stepped::Off(_) => Ok(None),
        Stepped::On(IriAt::Done(datatype)) => Ok(datatype_done(lexical, datatype)),
        Stepped::On(at) => Ok(Some(FieldAt::Datatype(lexical, at))),
    }
}

fn in_number(at: NumberAt, text: Text, c: char) -> Result<Option<FieldAt>, Memory>
    ensures { IfOk result (λ o. o ≡ spec.in_number at text c) }
{
    match at.step(c) {
        Some(at) => Ok(Some(FieldAt::Number(at, text.with_char(c)?))),
        None => Ok(None),
    }
}

fn in_word(at: WordAt, c: char) -> Option<FieldAt>
    ensures { result ≡ spec.step (FieldAt.Word at) c }
{
    match at.step(c) {
        Some(at) => Some(FieldAt::Word(at)),
        None => None,
    }
}

/// The first character of a field.
fn begin(alloc: Global, c: char) -> Result<Option<FieldAt>, Memory>
    ensures { IfOk result (λ o. o ≡ spec.begin c) }
{
    match c {
        '<' => in_iri(alloc, IriAt::Start, c),
        '_' => in_label(alloc, LabelAt::Start, c),
        '"' | '\'' => in_string(alloc, StringAt::Start, c),
        't' => Ok(Some(FieldAt::Word(WordAt::T))),
        'f' => Ok(Some(FieldAt::Word(WordAt::F))),
        _ => in_number(NumberAt::Start, Text::new(alloc), c),
    }
}

fn string(alloc: Global, lexical: Text) -> Result<Option<Option<Term>>, Memory>
    ensures { IfOk result (λ o. o ≡ Some (Some (string_of lexical))) }
{
    let literal = Literal::string(alloc, lexical)?;
    Ok(Some(Some(Term::Lit(literal))))
}

fn string_at_end(alloc: Global, at: StringAt) -> Result<Option<Option<Term>>, Memory>
    ensures { IfOk result (λ o. o ≡ spec.final (FieldAt.String at)) }
{
    match at {
        StringAt::Done(lexical) => string(alloc, lexical),
        StringAt::Empty(_) => string(alloc, Text::new(alloc)),
        _ => Ok(None),
    }
}

fn tagged(alloc: Global, lexical: Text, tag: Tag) -> Result<Option<Option<Term>>, Memory>
    ensures { IfOk result (λ o. o ≡ Some (Some (tagged_of lexical tag))) }
{
    let literal = Literal::tagged(alloc, lexical, tag)?;
    Ok(Some(Some(Term::Lit(literal))))
}

fn tag_at_end(alloc: Global, lexical: Text, at: TagAt) -> Result<Option<Option<Term>>, Memory>
    ensures { IfOk result (λ o. o ≡ spec.final (FieldAt.Tag lexical at)) }
{
    match at {
        TagAt::Letters(tag) => tagged(alloc, lexical, tag),
        TagAt::Subtag(tag) => tagged(alloc, lexical, tag.into_tag()),
        _ => Ok(None),
    }
}

fn datatype_at_end(lexical: Text, at: IriAt) -> Option<Option<Term>>
    ensures { result ≡ spec.final (FieldAt.Datatype lexical at) }
{
    let IriAt::Done(datatype) = at else {
        return None;
    };
    match Literal::typed(lexical, datatype) {
        Some(literal) => Some(Some(Term::Lit(literal))),
        None => None,
    }
}

fn number_at_end(alloc: Global, at: NumberAt, text: Text) -> Result<Option<Option<Term>>, Memory>
    ensures { IfOk result (λ o. o ≡ spec.final (FieldAt.Number at text)) }
{
    match at.form() {
        Some(kind) => Ok(Some(Some(number(alloc, kind, text)?))),
        None => Ok(None),
    }
}

fn word_at_end(alloc: Global, at: WordAt) -> Result<Option<Option<Term>>, Memory>
    ensures { IfOk result (λ o. o ≡ spec.final (FieldAt.Word at)) }
{
    match at.value() {
        Some(value) => Ok(Some(Some(boolean(alloc, value)?))),
        None => Ok(None),
    }
}

/// Whether a datatype is read to its end, and is not rdf:langString.
fn is_whole_datatype(at: &IriAt) -> bool
    ensures { (lexical : List ℕ) → result ≡ is_some (spec.final (FieldAt.Datatype lexical at.now)) }
{
    match at {
        IriAt::Done(datatype) => !datatype.is_lang_string(),
        _ => false,
    }
}

impl FieldAt {
    /// The state after one more character of the field, and None where no continuation is a field.
    pub fn step(self, alloc: Global, c: char) -> Result<Option<FieldAt>, Memory>
        ensures { IfOk result (λ o. o ≡ spec.step self c) }
    {
        match self {
            FieldAt::Empty => begin(alloc, c),
            FieldAt::Iri(at) => in_iri(alloc, at, c),
            FieldAt::Label(at) => in_label(alloc, at, c),
            FieldAt::String(at) => in_string(alloc, at, c),
            FieldAt::Tag(lexical, at) => in_tag(alloc, lexical, at, c),
            FieldAt::Caret(lexical) => Ok(caret(lexical, c)),
            FieldAt::Datatype(lexical, at) => in_datatype(alloc, lexical, at, c),
            FieldAt::Number(at, text) => in_number(at, text, c),
            FieldAt::Word(at) => Ok(in_word(at, c)),
        }
    }

    /// Takes what goes on with an IRI or a string within it, as far as its characters have no other meaning there.
    #[tactic(auto, using(crate::proofs::DocRuns::iri_runs, crate::proofs::DocRuns::datatype_runs, crate::proofs::DocRuns::string_runs, crate::proofs::DocRuns::still))]
    pub fn take_run(self, rest: &mut Cursor<'_>) -> Result<FieldAt, Memory>
        ensures { IfOk result (λ at. FieldRuns self rest.old at rest.new) }
    {
        match self {
            FieldAt::Iri(at) => Ok(FieldAt::Iri(at.take_run(rest)?)),
            FieldAt::String(at) => Ok(FieldAt::String(at.take_run(rest)?)),
            FieldAt::Datatype(lexical, at) => Ok(FieldAt::Datatype(lexical, at.take_run(rest)?)),
            at => Ok(at),
        }
    }

    /// What stands in the cell of a field that ends there: None where no field ends there, and within, None for an empty one.
    pub fn cell(self, alloc: Global) -> Result<Option<Option<Term>>, Memory>
        ensures { IfOk result (λ o. o ≡ spec.final self) }
    {
        match self {
            FieldAt::Empty => Ok(Some(None)),
            FieldAt::Iri(IriAt::Done(iri)) => Ok(Some(Some(Term::Iri(iri)))),
            FieldAt::Iri(_) => Ok(None),
            FieldAt::Label(LabelAt::In(label)) => Ok(Some(Some(Term::Blank(label)))),
            FieldAt::Label(_) => Ok(None),
            FieldAt::String(at) => string_at_end(alloc, at),
            FieldAt::Tag(lexical, at) => tag_at_end(alloc, lexical, at),
            FieldAt::Caret(_) => Ok(None),
            FieldAt::Datatype(lexical, at) => Ok(datatype_at_end(lexical, at)),
            FieldAt::Number(at, text) => number_at_end(alloc, at, text),
            FieldAt::Word(at) => word_at_end(alloc, at),
        }
    }

    /// Whether a field may end there.
    pub fn is_whole(&self) -> bool
        ensures { result ≡ is_some (spec.final self.now) }
    {
        match self {
            FieldAt::Empty => true,
            FieldAt::Iri(at) => matches!(at, IriAt::Done(_)),
            FieldAt::Label(at) => matches!(at, LabelAt::In(_)),
            FieldAt::String(at) => matches!(at, StringAt::Done(_) | StringAt::Empty(_)),
            FieldAt::Tag(_, at) => matches!(at, TagAt::Letters(_) | TagAt::Subtag(_)),
            FieldAt::Caret(_) => false,
            FieldAt::Datatype(_, at) => is_whole_datatype(at),
            FieldAt::Number(at, _) => at.form().is_some(),
            FieldAt::Word(at) => at.value().is_some(),
        }
    }

    /// How many bytes of what was read of it are kept.
    pub fn kept(&self) -> usize
        requires { field_kept self.now < 2 ^ 64 }
        ensures { result ≡ field_kept self.now }
    {
        match self {
            FieldAt::Empty => 0,
            FieldAt::Iri(at) => at.kept(),
            FieldAt::Label(at) => at.kept(),
            FieldAt::String(at) => at.kept(),
            FieldAt::Tag(lexical, at) => size(lexical) + at.kept(),
            FieldAt::Caret(lexical) => size(lexical),
            FieldAt::Datatype(lexical, at) => size(lexical) + at.kept(),
            FieldAt::Number(_, text) => size(text),
            FieldAt::Word(at) => at.kept(),
        }
    }
}
