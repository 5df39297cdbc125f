//! The machine of documents: the triples of the lines before, and how far the present line was read.

ghost use Rattle.bye_ntriples.specs.DocSteps as spec;
ghost use Rattle.bye_ntriples.specs.Answers.{triple_limit};
ghost use Rattle.bye_ntriples.specs.DocSteps.{CannotAdvance, CannotWalk, Moves, Went, if_one, walk};
ghost use Rattle.bye_ntriples.specs.LineSteps as line_spec;
ghost use Rattle.bye_ntriples.specs.declared.line.LineAt.TheVariants as lines;
ghost use Rattle.bye_ntriples.specs.declared.fault.NtErr.TheVariants as faults;
ghost use Rattle.std.specs.Prelude.{◌≡◌, ◌≤◌, ◌+◌, ◌++◌, Some, MatchOption, IfOk, IfErr, OnOk, cond, nat_lt, true, false, option_map, option_to_list, length};
ghost use Rattle.std.specs.Str.{encode_utf8_all};

use crate::fault::NtErr;
use crate::line::{LineAt, ObjectAt, is_line_end, step, triple_at_end};
use crate::line_slot::LineSlot;
use crate::line_triple::LineTriple;
use crate::plain::plain_line;
use bye_lex::LabelAt;
use bye_terms::{Cursor, Memory, Triple, push_item};
use std::alloc::Global;
use std::marker::Model;

/// The greatest number of triples of a document, repeats counted.
const TRIPLE_LIMIT: usize = 1_048_576;

/// The triples of the lines before, and how far the present line was read.
#[derive(Debug, Drop)]
pub struct Document {
    triples: Vec<Triple>,
    at: LineSlot,
}

impl Model for Document {
    ghost use Rattle.bye_ntriples.specs.DocSteps.{DocAt};

    ghost Value = { DocAt };

    ghost view = { λ d. record { done = d.triples.items; at = d.at } };
}

/// Puts the triple of a line at the end.
fn push_triple(triples: &mut Vec<Triple>, triple: Option<LineTriple>) -> Result<(), Memory>
    ensures { OnOk result (triples.new.items ≡ triples.old.items ++ option_to_list triple) }
{
    match triple {
        Some(triple) => push_item(triples, triple.into_triple()),
        None => Ok(()),
    }
}

/// Whether the present line has a triple whose dot is read.
fn has_triple(at: &LineAt) -> bool
    ensures { if_one result ≡ spec.held at.now }
{
    matches!(at, LineAt::Ended(_) | LineAt::Comment(Some(_)))
}

fn ends_at_dot(at: &ObjectAt) -> bool
    ensures { if_one result ≡ spec.object_pending at.now }
{
    match at {
        ObjectAt::Label(at) => matches!(at, LabelAt::Dotted(_, _)),
        ObjectAt::Dot(_) => true,
        ObjectAt::Iri(_) | ObjectAt::String(_) => false,
    }
}

/// Whether the present line has one that ends at a dot unless that belongs to a label.
fn may_end_at_dot(at: &LineAt) -> bool
    ensures { if_one result ≡ spec.pending at.now }
{
    match at {
        LineAt::Object(_, _, at) => ends_at_dot(at),
        _ => false,
    }
}

/// Whether there are more triples than are allowed, so many and one more where `more` says so.
#[tactic(auto, unfolding(crate::specs::Answers::triple_limit))]
fn exceeds(triples: &Vec<Triple>, more: bool) -> bool
    ensures { result ≡ nat_lt triple_limit (length triples.now.items + if_one more) }
{
    if more {
        triples.len() >= TRIPLE_LIMIT
    } else {
        triples.len() > TRIPLE_LIMIT
    }
}

/// Why no continuation is a document from this place on.
fn stopped(over: bool, here: usize) -> NtErr
    ensures { result ≡ cond over faults.TooMany (faults.Syntax here) }
{
    if over {
        NtErr::TooMany
    } else {
        NtErr::Syntax(here)
    }
}

impl Document {
    /// Before its first character.
    pub fn new(alloc: Global) -> Document
        ensures { result ≡ spec.start }
    {
        Document {
            triples: Vec::new(alloc),
            at: LineSlot::new(alloc),
        }
    }

    /// Whether more triples than are allowed are complete.
    fn is_over(&self) -> bool
        ensures { result ≡ spec.is_over self.now }
    {
        match self.at.get() {
            Some(at) => exceeds(&self.triples, has_triple(at)),
            None => exceeds(&self.triples, false),
        }
    }

    /// The same where the text goes no further, so that no dot belongs to a label any more.
    pub fn is_over_there(&self) -> bool
        ensures { result ≡ spec.is_over_there self.now }
    {
        match self.at.get() {
            Some(at) => exceeds(&self.triples, has_triple(at) || may_end_at_dot(at)),
            None => exceeds(&self.triples, false),
        }
    }

    /// Ends the present line. False where none ends there; then the document is spoiled.
    fn end_line(&mut self) -> Result<bool, Memory>
        ensures { IfOk result (λ ended. Moves ended self.new (option_map (spec.line_ended self.old.done) (line_spec.final self.old.at))) }
    {
        match triple_at_end(self.at.take()) {
            Some(triple) => {
                push_triple(&mut self.triples, triple)?;
                Ok(true)
            }
            None => Ok(false),
        }
    }

    /// Takes one more character of the present line. False where no continuation is a line; then the document is spoiled.
    fn move_line(&mut self, alloc: Global, c: char) -> Result<bool, Memory>
        ensures { IfOk result (λ moved. Moves moved self.new (option_map (spec.line_moved self.old.done) (line_spec.step self.old.at c))) }
    {
        match step(alloc, self.at.take(), c)? {
            Some(at) => {
                self.at.put(at)?;
                Ok(true)
            }
            None => Ok(false),
        }
    }

    /// Takes one more character. False where no continuation is a document; then the document is spoiled.
    fn step(&mut self, alloc: Global, c: char) -> Result<bool, Memory>
        ensures { IfOk result (λ moved. Moves moved self.new (spec.step self.old c)) }
    {
        if is_line_end(c) {
            self.end_line()
        } else {
            self.move_line(alloc, c)
        }
    }

    /// Takes one more character, which stands at the place `here`. After a refusal the document is spoiled.
    fn advance(&mut self, alloc: Global, c: char, here: usize) -> Result<(), NtErr>
        ensures ok { OnOk result ((spec.step self.old c ≡ Some self.new) × (spec.is_over self.new ≡ false)) }
        ensures err { IfErr result (λ e. CannotAdvance self.old here e (spec.step self.old c)) }
    {
        let over = self.is_over_there();
        if !self.step(alloc, c)? {
            return Err(stopped(over, here));
        }
        if self.is_over() {
            return Err(NtErr::TooMany);
        }
        Ok(())
    }

    /// Takes a whole line at once, where the next one has no escapes. False where it takes none.
    fn take_line<'a>(&mut self, alloc: Global, rest: &mut Cursor<'a>) -> Result<bool, Memory>
        ensures same { IfOk result (λ _. walk self.old rest.old ≡ walk self.new rest.new) }
        ensures taken { IfOk result (λ taken. if_one taken + length (encode_utf8_all rest.new) ≤ length (encode_utf8_all rest.old)) }
        ensures kept { IfOk result (λ taken. taken ≡ false → rest.new ≡ rest.old) }
    {
        if !self.at.is_begin() || self.triples.len() >= TRIPLE_LIMIT {
            return Ok(false);
        }
        let mut after = Cursor::new(rest.rest());
        let Some(triple) = plain_line(alloc, &mut after)? else {
            return Ok(false);
        };
        push_item(&mut self.triples, triple.into_triple())?;
        *rest = after;
        Ok(true)
    }

    /// Takes more characters, which end at so many bytes. After a refusal the document is spoiled.
    pub fn walk(&mut self, alloc: Global, mut rest: Cursor<'_>, total: usize) -> Result<(), NtErr>
        requires { length (encode_utf8_all rest) ≤ total }
        ensures ok { OnOk result (walk self.old rest.entry ≡ Went self.new) }
        ensures err { IfErr result (λ e. CannotWalk total e (walk self.old rest.entry)) }
    {
        loop {
            if self.take_line(alloc, &mut rest)? {
                continue;
            }
            let here = total - rest.len();
            let Some(c) = rest.next() else {
                return Ok(());
            };
            self.advance(alloc, c, here)?;
        }
    }

    /// The triples of a document that ends there, and None where none does.
    pub fn end(self) -> Result<Option<Vec<Triple>>, Memory>
        ensures { IfOk result (λ o. option_map (λ v. v.items) o ≡ spec.final self) }
    {
        let Document {
            mut triples,
            mut at,
        } = self;
        match triple_at_end(at.take()) {
            Some(triple) => {
                push_triple(&mut triples, triple)?;
                Ok(Some(triples))
            }
            None => Ok(None),
        }
    }
}
