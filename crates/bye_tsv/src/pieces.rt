//! Table documents that come in pieces.

ghost use Rattle.bye_tsv.specs.Answers.{IsFault, IsRead, IsRefusal, MayBeFront};
ghost use Rattle.bye_tsv.specs.Feeding.{Came, HasRoom, IsReading};
ghost use Rattle.bye_tsv.specs.Kept.{kept, unfinished};
ghost use Rattle.bye_tsv.specs.declared.fault.TsvErr.{TsvErr as Fault};
ghost use Rattle.bye_tsv.specs.declared.pieces.State.TheVariants as states;
ghost use Rattle.std.specs.Prelude.{◌≡◌, ◌<◌, ◌≤◌, ◌+◌, ◌^◌, ◌++◌, [], ℕ, List, Err, IfOk, IfErr, OnOk, length};

use crate::fault::{Bounds, TsvErr};
use crate::reader::Reading;
use bye_table::Table;
use std::alloc::Global;
use std::marker::Model;

/// What a reader is: reading, or refusing.
#[derive(Debug, Drop)]
pub enum State {
    Reading(Reading),
    Refused(TsvErr),
}

/// A reader of a table document that comes in pieces.
#[derive(Debug, Drop)]
pub struct TsvReader {
    alloc: Global,
    bounds: Bounds,
    state: State,
}

impl Model for TsvReader {
    ghost use Rattle.bye_tsv.specs.Feeding.{IsKept};
    ghost use Rattle.bye_tsv.specs.Readers.{ReaderAt};

    ghost Value = { ReaderAt };

    ghost view = { λ r. record { bounds = r.bounds; state = r.state } };

    ghost invariant = { λ r. IsKept r.bounds r.state };
}

impl TsvReader {
    /// A reader that has been given nothing and has refused nothing, with the greatest numbers of variables and rows. It takes no
    /// memory.
    pub fn new(alloc: Global, bounds: Bounds) -> TsvReader
        ensures bounds { result.bounds ≡ bounds }
        ensures came { Came bounds [] result.state }
        ensures reads { IsReading result.state }
        ensures room { (more : ℕ) → more < 2 ^ 64 → HasRoom result.state more }
    {
        TsvReader {
            alloc,
            bounds,
            state: State::Reading(Reading::new(alloc)),
        }
    }

    /// Gives the reader one more piece, cut wherever it may be. A refusal is that of every document that begins with what came;
    /// from then on each call answers the same.
    pub fn feed(&mut self, piece: &[u8]) -> Result<(), TsvErr>
        requires { HasRoom self.old.state (length piece.now) }
        ensures bounds { self.new.bounds ≡ self.old.bounds }
        ensures came { (bytes : List ℕ) → Came self.old.bounds bytes self.old.state → Came self.old.bounds (bytes ++ piece.now) self.new.state }
        ensures ok { (bytes : List ℕ) → Came self.old.bounds bytes self.old.state → OnOk result (MayBeFront self.old.bounds (bytes ++ piece.now)) }
        ensures reads { OnOk result (IsReading self.new.state) }
        ensures err { (bytes : List ℕ) → Came self.old.bounds bytes self.old.state → IfErr result (IsRefusal self.old.bounds (bytes ++ piece.now)) }
        ensures room { OnOk result ((more : ℕ) → HasRoom self.old.state (length piece.now + more) → HasRoom self.new.state more) }
        ensures refused { IfErr result (λ fault. self.new.state ≡ states.Refused fault) }
        ensures same { (fault : Fault) → self.old.state ≡ states.Refused fault → result ≡ Err fault × self.new.state ≡ states.Refused fault }
    {
        let fed = match &mut self.state {
            State::Refused(fault) => return Err(*fault),
            State::Reading(reading) => reading.feed(self.alloc, self.bounds, piece),
        };
        if let Err(fault) = fed {
            self.state = State::Refused(fault);
            return Err(fault);
        }
        Ok(())
    }

    /// How many bytes of the line that is not ended the reader keeps, besides the rows that are complete: no more than stand after
    /// the last LF. A reader that refuses keeps nothing. It takes no memory.
    pub fn carried(&self) -> u64
        ensures kept { result ≡ kept self.now.state }
        ensures bound { (bytes : List ℕ) → Came self.now.bounds bytes self.now.state → result ≤ length (unfinished bytes) }
    {
        match &self.state {
            State::Reading(reading) => reading.kept() as u64,
            State::Refused(_) => 0,
        }
    }

    /// The table of the whole document, as `read_tsv` reads it.
    pub fn finish(self) -> Result<Table, TsvErr>
        ensures read { (bytes : List ℕ) → Came self.bounds bytes self.state → IfOk result (IsRead self.bounds bytes) }
        ensures fault { (bytes : List ℕ) → Came self.bounds bytes self.state → IfErr result (IsFault self.bounds bytes) }
        ensures same { (fault : Fault) → self.state ≡ states.Refused fault → result ≡ Err fault }
    {
        let TsvReader {
            alloc,
            bounds,
            state,
        } = self;
        match state {
            State::Reading(reading) => reading.finish(alloc, bounds),
            State::Refused(fault) => Err(fault),
        }
    }
}
