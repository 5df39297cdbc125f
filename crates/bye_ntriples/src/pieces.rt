//! Graph documents that come in pieces.

ghost use Rattle.bye_ntriples.specs.Answers.{IsFault, IsFeedFault, IsGraph, MayBeFront};
ghost use Rattle.bye_ntriples.specs.Pieces.{Came, HasRoom, IsReading};
ghost use Rattle.bye_ntriples.specs.declared.fault.NtErr.{NtErr as Fault};
ghost use Rattle.bye_ntriples.specs.declared.pieces.State.TheVariants as states;
ghost use Rattle.std.specs.Prelude.{◌≡◌, ◌<◌, ◌+◌, ◌^◌, ◌++◌, [], ℕ, List, Err, IfOk, IfErr, OnOk, length};

use crate::fault::NtErr;
use crate::reader::Reading;
use bye_terms::Triple;
use std::alloc::Global;
use std::marker::Model;

/// What a reader is: reading, or refusing.
#[derive(Debug, Drop)]
pub enum State {
    Reading(Reading),
    Refused(NtErr),
}

/// A reader of a graph document that comes in pieces.
#[derive(Debug, Drop)]
pub struct NtReader {
    alloc: Global,
    state: State,
}

impl Model for NtReader {
    ghost use Rattle.bye_ntriples.specs.declared.pieces.State.{State};

    ghost Value = { State };

    ghost view = { λ r. r.state };
}

impl NtReader {
    /// A reader that has been given nothing and has refused nothing. It takes no memory.
    pub fn new(alloc: Global) -> NtReader
        ensures came { Came [] result }
        ensures reads { IsReading result }
        ensures room { (more : ℕ) → more < 2 ^ 64 → HasRoom result more }
    {
        NtReader {
            alloc,
            state: State::Reading(Reading::new(alloc)),
        }
    }

    /// Gives the reader one more piece, cut wherever it may be. A refusal is that of every document that begins with what came;
    /// from then on each call answers the same.
    pub fn feed(&mut self, piece: &[u8]) -> Result<(), NtErr>
        requires { HasRoom self.old (length piece.now) }
        ensures came { (bytes : List ℕ) → Came bytes self.old → Came (bytes ++ piece.now) self.new }
        ensures ok { (bytes : List ℕ) → Came bytes self.old → OnOk result (MayBeFront (bytes ++ piece.now)) }
        ensures reads { OnOk result (IsReading self.new) }
        ensures err { (bytes : List ℕ) → Came bytes self.old → IfErr result (IsFeedFault (bytes ++ piece.now)) }
        ensures room { OnOk result ((more : ℕ) → HasRoom self.old (length piece.now + more) → HasRoom self.new more) }
        ensures refused { IfErr result (λ fault. self.new ≡ states.Refused fault) }
        ensures same { (fault : Fault) → self.old ≡ states.Refused fault → result ≡ Err fault × self.new ≡ states.Refused fault }
    {
        let fed = match &mut self.state {
            State::Refused(fault) => return Err(*fault),
            State::Reading(reading) => reading.feed(self.alloc, piece),
        };
        if let Err(fault) = fed {
            self.state = State::Refused(fault);
            return Err(fault);
        }
        Ok(())
    }

    /// The triples of the whole document, as `read_triples` reads it.
    pub fn finish(self) -> Result<Vec<Triple>, NtErr>
        ensures read { (bytes : List ℕ) → Came bytes self → IfOk result (λ triples. IsGraph bytes triples.items) }
        ensures fault { (bytes : List ℕ) → Came bytes self → IfErr result (IsFault bytes) }
        ensures same { (fault : Fault) → self ≡ states.Refused fault → result ≡ Err fault }
    {
        match self.state {
            State::Reading(reading) => reading.finish(),
            State::Refused(fault) => Err(fault),
        }
    }
}
