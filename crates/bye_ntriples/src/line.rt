//! The machine of lines: how far a line was read, and what one more character makes of that.

ghost use Rattle.bye_ntriples.specs.Lines as lines;
ghost use Rattle.bye_ntriples.specs.LineSteps as spec;
ghost use Rattle.bye_ntriples.specs.Triples.{triple_of, string_of, tagged_of};
ghost use Rattle.std.specs.Prelude.{◌≡◌, IfOk, true};

use crate::line_triple::LineTriple;
use crate::subject::Subject;
use bye_lex::{IriAt, LabelAt, Machine, Stepped, StringAt, Style, TagAt};
use bye_terms::{Iri, Label, Literal, Memory, Tag, Term, Text};
use std::alloc::Global;

/// How far a subject was read.
#[derive(Debug, Drop)]
pub enum SubjectAt {
    Iri(IriAt),
    Label(LabelAt),
}

/// How far an object was read.
#[derive(Debug, Drop)]
pub enum ObjectAt {
    Iri(IriAt),
    Label(LabelAt),
    /// After a label and a dot, which may belong to it or end the triple.
    Dot(Label),
    String(StringAt),
}

/// How far that was read which may stand after a string.
#[derive(Debug, Drop)]
pub enum SuffixAt {
    /// Nothing, or spaces.
    Start,
    Tag(TagAt),
    /// The first `^`.
    Caret,
    /// Both of them, and maybe spaces.
    Carets,
    Datatype(IriAt),
}

/// How far a line was read.
#[derive(Debug, Drop)]
pub enum LineAt {
    /// At its beginning, or after spaces there.
    Begin,
    Subject(SubjectAt),
    AfterSubject(Subject),
    Predicate(Subject, IriAt),
    AfterPredicate(Subject, Iri),
    Object(Subject, Iri, ObjectAt),
    /// After a string.
    Suffix(Subject, Iri, Text, SuffixAt),
    AfterObject(LineTriple),
    /// After the dot.
    Ended(LineTriple),
    /// In a comment, with the triple that stands before it.
    Comment(Option<LineTriple>),
}

/// A space or a TAB.
pub fn is_space(c: char) -> bool
    ensures { result ≡ lines.is_space c }
{
    c == ' ' || c == '\t'
}

/// LF or CR.
pub fn is_line_end(c: char) -> bool
    ensures { result ≡ lines.is_line_end c }
{
    c == '\n' || c == '\r'
}

fn after_object(triple: LineTriple, c: char) -> Option<LineAt>
    ensures { result ≡ spec.after_object triple c }
{
    if is_space(c) {
        return Some(LineAt::AfterObject(triple));
    }
    if c == '.' {
        return Some(LineAt::Ended(triple));
    }
    None
}

fn ended(triple: LineTriple, c: char) -> Option<LineAt>
    ensures { result ≡ spec.ended triple c }
{
    if is_space(c) {
        return Some(LineAt::Ended(triple));
    }
    if c == '#' {
        return Some(LineAt::Comment(Some(triple)));
    }
    None
}

fn in_predicate(alloc: Global, s: Subject, at: IriAt, c: char) -> Result<Option<LineAt>, Memory>
    ensures { IfOk result (λ o. o ≡ spec.in_predicate s at c) }
{
    match at.step(alloc, c, Style::Triples)? {
        Stepped::Off(_) => Ok(None),
        Stepped::On(IriAt::Done(p)) => Ok(Some(LineAt::AfterPredicate(s, p))),
        Stepped::On(at) => Ok(Some(LineAt::Predicate(s, at))),
    }
}

fn after_subject(alloc: Global, s: Subject, c: char) -> Result<Option<LineAt>, Memory>
    ensures { IfOk result (λ o. o ≡ spec.after_subject s c) }
{
    if is_space(c) {
        return Ok(Some(LineAt::AfterSubject(s)));
    }
    in_predicate(alloc, s, IriAt::Start, c)
}

fn in_subject(alloc: Global, at: IriAt, c: char) -> Result<Option<LineAt>, Memory>
    ensures { IfOk result (λ o. o ≡ spec.in_subject at c) }
{
    match at.step(alloc, c, Style::Triples)? {
        Stepped::Off(_) => Ok(None),
        Stepped::On(IriAt::Done(s)) => Ok(Some(LineAt::AfterSubject(Subject::iri(s)))),
        Stepped::On(at) => Ok(Some(LineAt::Subject(SubjectAt::Iri(at)))),
    }
}

fn in_subject_label(alloc: Global, at: LabelAt, c: char) -> Result<Option<LineAt>, Memory>
    ensures { IfOk result (λ o. o ≡ spec.in_subject_label at c) }
{
    match at.step(alloc, c, Style::Triples)? {
        Stepped::On(at) => Ok(Some(LineAt::Subject(SubjectAt::Label(at)))),
        Stepped::Off(LabelAt::In(s)) => after_subject(alloc, Subject::blank(s), c),
        Stepped::Off(_) => Ok(None),
    }
}

/// A character that may begin a subject.
fn subject(alloc: Global, c: char) -> Result<Option<LineAt>, Memory>
    ensures { IfOk result (λ o. o ≡ spec.subject c) }
{
    if c == '<' {
        return in_subject(alloc, IriAt::Start, c);
    }
    in_subject_label(alloc, LabelAt::Start, c)
}

fn begin(alloc: Global, c: char) -> Result<Option<LineAt>, Memory>
    ensures { IfOk result (λ o. o ≡ spec.begin c) }
{
    if is_space(c) {
        return Ok(Some(LineAt::Begin));
    }
    if c == '#' {
        return Ok(Some(LineAt::Comment(None)));
    }
    subject(alloc, c)
}

fn in_object(
    alloc: Global,
    s: Subject,
    p: Iri,
    at: IriAt,
    c: char,
) -> Result<Option<LineAt>, Memory>
    ensures { IfOk result (λ o. o ≡ spec.in_object s p at c) }
{
    match at.step(alloc, c, Style::Triples)? {
        Stepped::Off(_) => Ok(None),
        Stepped::On(IriAt::Done(o)) => Ok(Some(LineAt::AfterObject(LineTriple::new(
            s,
            p,
            Term::Iri(o),
        )))),
        Stepped::On(at) => Ok(Some(LineAt::Object(s, p, ObjectAt::Iri(at)))),
    }
}

/// Within the label of an object, where no dot stands after a whole one.
fn go_on_in_label(
    alloc: Global,
    s: Subject,
    p: Iri,
    at: LabelAt,
    c: char,
) -> Result<Option<LineAt>, Memory>
    ensures { IfOk result (λ o. o ≡ spec.go_on_in_label s p at c) }
{
    match at.step(alloc, c, Style::Triples)? {
        Stepped::On(at) => Ok(Some(LineAt::Object(s, p, ObjectAt::Label(at)))),
        Stepped::Off(LabelAt::In(o)) => Ok(after_object(LineTriple::new(s, p, Term::Blank(o)), c)),
        Stepped::Off(_) => Ok(None),
    }
}

/// Within the label of an object: after a whole label a dot may end the triple, and after two dots or more the label goes on.
fn in_object_label(
    alloc: Global,
    s: Subject,
    p: Iri,
    at: LabelAt,
    c: char,
) -> Result<Option<LineAt>, Memory>
    ensures { IfOk result (λ o. o ≡ spec.in_object_label s p at c) }
{
    match at {
        LabelAt::In(o) if c == '.' => Ok(Some(LineAt::Object(s, p, ObjectAt::Dot(o)))),
        at => go_on_in_label(alloc, s, p, at, c),
    }
}

/// After a label and a dot: the label goes on, or the triple is ended.
fn after_dot(
    alloc: Global,
    s: Subject,
    p: Iri,
    label: Label,
    c: char,
) -> Result<Option<LineAt>, Memory>
    ensures { IfOk result (λ o. o ≡ spec.after_dot s p label c) }
{
    match LabelAt::after_dot(alloc, label)?.step(alloc, c, Style::Triples)? {
        Stepped::On(at) => Ok(Some(LineAt::Object(s, p, ObjectAt::Label(at)))),
        Stepped::Off(LabelAt::Dotted(o, _)) => Ok(ended(LineTriple::new(s, p, Term::Blank(o)), c)),
        Stepped::Off(_) => unreachable!(),
    }
}

fn in_object_string(
    alloc: Global,
    s: Subject,
    p: Iri,
    at: StringAt,
    c: char,
) -> Result<Option<LineAt>, Memory>
    ensures { IfOk result (λ o. o ≡ spec.in_object_string s p at c) }
{
    match at.step(alloc, c, Style::Triples)? {
        Stepped::Off(_) => Ok(None),
        Stepped::On(StringAt::Done(text)) => Ok(Some(LineAt::Suffix(s, p, text, SuffixAt::Start))),
        Stepped::On(at) => Ok(Some(LineAt::Object(s, p, ObjectAt::String(at)))),
    }
}

fn object(alloc: Global, s: Subject, p: Iri, c: char) -> Result<Option<LineAt>, Memory>
    ensures { IfOk result (λ o. o ≡ spec.object s p c) }
{
    if c == '<' {
        return in_object(alloc, s, p, IriAt::Start, c);
    }
    if c == '"' {
        return in_object_string(alloc, s, p, StringAt::Start, c);
    }
    in_object_label(alloc, s, p, LabelAt::Start, c)
}

fn after_predicate(alloc: Global, s: Subject, p: Iri, c: char) -> Result<Option<LineAt>, Memory>
    ensures { IfOk result (λ o. o ≡ spec.after_predicate s p c) }
{
    if is_space(c) {
        return Ok(Some(LineAt::AfterPredicate(s, p)));
    }
    object(alloc, s, p, c)
}

fn string_triple(alloc: Global, s: Subject, p: Iri, lexical: Text) -> Result<LineTriple, Memory>
    ensures { IfOk result (λ t. t ≡ triple_of s p (string_of lexical)) }
{
    let literal = Literal::string(alloc, lexical)?;
    Ok(LineTriple::new(s, p, Term::Lit(literal)))
}

fn tagged_triple(
    alloc: Global,
    s: Subject,
    p: Iri,
    lexical: Text,
    tag: Tag,
) -> Result<LineTriple, Memory>
    ensures { IfOk result (λ t. t ≡ triple_of s p (tagged_of lexical tag)) }
{
    let literal = Literal::tagged(alloc, lexical, tag)?;
    Ok(LineTriple::new(s, p, Term::Lit(literal)))
}

/// After a whole tag.
fn after_tag(
    alloc: Global,
    s: Subject,
    p: Iri,
    lexical: Text,
    tag: Tag,
    c: char,
) -> Result<Option<LineAt>, Memory>
    ensures { IfOk result (λ o. o ≡ spec.after_object (triple_of s p (tagged_of lexical tag)) c) }
{
    let triple = tagged_triple(alloc, s, p, lexical, tag)?;
    Ok(after_object(triple, c))
}

fn in_tag(
    alloc: Global,
    s: Subject,
    p: Iri,
    lexical: Text,
    at: TagAt,
    c: char,
) -> Result<Option<LineAt>, Memory>
    ensures { IfOk result (λ o. o ≡ spec.in_tag s p lexical at c) }
{
    match at.step(alloc, c, Style::Triples)? {
        Stepped::On(at) => Ok(Some(LineAt::Suffix(s, p, lexical, SuffixAt::Tag(at)))),
        Stepped::Off(TagAt::Letters(tag)) => after_tag(alloc, s, p, lexical, tag, c),
        Stepped::Off(TagAt::Subtag(tag)) => after_tag(alloc, s, p, lexical, tag.into_tag(), c),
        Stepped::Off(_) => Ok(None),
    }
}

fn after_string(
    alloc: Global,
    s: Subject,
    p: Iri,
    lexical: Text,
    c: char,
) -> Result<Option<LineAt>, Memory>
    ensures { IfOk result (λ o. o ≡ spec.after_string s p lexical c) }
{
    if is_space(c) {
        return Ok(Some(LineAt::Suffix(s, p, lexical, SuffixAt::Start)));
    }
    if c == '.' {
        let triple = string_triple(alloc, s, p, lexical)?;
        return Ok(Some(LineAt::Ended(triple)));
    }
    if c == '^' {
        return Ok(Some(LineAt::Suffix(s, p, lexical, SuffixAt::Caret)));
    }
    in_tag(alloc, s, p, lexical, TagAt::Start, c)
}

fn typed(s: Subject, p: Iri, lexical: Text, datatype: Iri) -> Option<LineAt>
    ensures { result ≡ spec.typed s p lexical datatype }
{
    match Literal::typed(lexical, datatype) {
        Some(literal) => Some(LineAt::AfterObject(LineTriple::new(s, p, Term::Lit(literal)))),
        None => None,
    }
}

fn in_datatype(
    alloc: Global,
    s: Subject,
    p: Iri,
    lexical: Text,
    at: IriAt,
    c: char,
) -> Result<Option<LineAt>, Memory>
    ensures { IfOk result (λ o. o ≡ spec.in_datatype s p lexical at c) }
{
    match at.step(alloc, c, Style::Triples)? {
        Stepped::Off(_) => Ok(None),
        Stepped::On(IriAt::Done(datatype)) => Ok(typed(s, p, lexical, datatype)),
        Stepped::On(at) => Ok(Some(LineAt::Suffix(s, p, lexical, SuffixAt::Datatype(at)))),
    }
}

fn after_carets(
    alloc: Global,
    s: Subject,
    p: Iri,
    lexical: Text,
    c: char,
) -> Result<Option<LineAt>, Memory>
    ensures { IfOk result (λ o. o ≡ spec.after_carets s p lexical c) }
{
    if is_space(c) {
        return Ok(Some(LineAt::Suffix(s, p, lexical, SuffixAt::Carets)));
    }
    in_datatype(alloc, s, p, lexical, IriAt::Start, c)
}

fn caret(s: Subject, p: Iri, lexical: Text, c: char) -> Option<LineAt>
    ensures { result ≡ spec.caret s p lexical c }
{
    if c == '^' {
        return Some(LineAt::Suffix(s, p, lexical, SuffixAt::Carets));
    }
    None
}

fn comment(triple: Option<LineTriple>, c: char) -> Option<LineAt>
    ensures { result ≡ spec.comment triple c }
{
    if is_line_end(c) {
        return None;
    }
    Some(LineAt::Comment(triple))
}

fn subject_step(alloc: Global, at: SubjectAt, c: char) -> Result<Option<LineAt>, Memory>
    ensures { IfOk result (λ o. o ≡ spec.subject_step at c) }
{
    match at {
        SubjectAt::Iri(at) => in_subject(alloc, at, c),
        SubjectAt::Label(at) => in_subject_label(alloc, at, c),
    }
}

fn object_step(
    alloc: Global,
    s: Subject,
    p: Iri,
    at: ObjectAt,
    c: char,
) -> Result<Option<LineAt>, Memory>
    ensures { IfOk result (λ o. o ≡ spec.object_step s p at c) }
{
    match at {
        ObjectAt::Iri(at) => in_object(alloc, s, p, at, c),
        ObjectAt::Label(at) => in_object_label(alloc, s, p, at, c),
        ObjectAt::Dot(label) => after_dot(alloc, s, p, label, c),
        ObjectAt::String(at) => in_object_string(alloc, s, p, at, c),
    }
}

fn suffix_step(
    alloc: Global,
    s: Subject,
    p: Iri,
    lexical: Text,
    at: SuffixAt,
    c: char,
) -> Result<Option<LineAt>, Memory>
    ensures { IfOk result (λ o. o ≡ spec.suffix_step s p lexical at c) }
{
    match at {
        SuffixAt::Start => after_string(alloc, s, p, lexical, c),
        SuffixAt::Tag(at) => in_tag(alloc, s, p, lexical, at, c),
        SuffixAt::Caret => Ok(caret(s, p, lexical, c)),
        SuffixAt::Carets => after_carets(alloc, s, p, lexical, c),
        SuffixAt::Datatype(at) => in_datatype(alloc, s, p, lexical, at, c),
    }
}

/// The state after one more character of the line, and None where no continuation is a line.
pub fn step(alloc: Global, at: LineAt, c: char) -> Result<Option<LineAt>, Memory>
    ensures { IfOk result (λ o. o ≡ spec.step at c) }
{
    match at {
        LineAt::Begin => begin(alloc, c),
        LineAt::Subject(at) => subject_step(alloc, at, c),
        LineAt::AfterSubject(s) => after_subject(alloc, s, c),
        LineAt::Predicate(s, at) => in_predicate(alloc, s, at, c),
        LineAt::AfterPredicate(s, p) => after_predicate(alloc, s, p, c),
        LineAt::Object(s, p, at) => object_step(alloc, s, p, at, c),
        LineAt::Suffix(s, p, lexical, at) => suffix_step(alloc, s, p, lexical, at, c),
        LineAt::AfterObject(triple) => Ok(after_object(triple, c)),
        LineAt::Ended(triple) => Ok(ended(triple, c)),
        LineAt::Comment(triple) => Ok(comment(triple, c)),
    }
}

/// The triple of a line that ends within its object.
fn triple_in_object(s: Subject, p: Iri, at: ObjectAt) -> Option<Option<LineTriple>>
    ensures { result ≡ spec.last_object s p at }
{
    match at {
        ObjectAt::Dot(label) => Some(Some(LineTriple::new(s, p, Term::Blank(label)))),
        ObjectAt::Iri(_) => None,
        ObjectAt::Label(_) => None,
        ObjectAt::String(_) => None,
    }
}

/// The triple of a line that ends there, and None where no line ends there.
pub fn triple_at_end(at: LineAt) -> Option<Option<LineTriple>>
    ensures { result ≡ spec.final at }
{
    match at {
        LineAt::Begin => Some(None),
        LineAt::Object(s, p, at) => triple_in_object(s, p, at),
        LineAt::Ended(triple) => Some(Some(triple)),
        LineAt::Comment(triple) => Some(triple),
        _ => None,
    }
}
