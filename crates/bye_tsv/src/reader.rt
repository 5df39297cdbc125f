//! Table documents, read whole or in pieces.

ghost use Rattle.bye_table.specs.Tables.{TableValue};
ghost use Rattle.bye_tsv.specs.Answers.{IsFault, IsRead, IsRefusal};
ghost use Rattle.bye_tsv.specs.DocSteps.{IsSound, start};
ghost use Rattle.bye_tsv.specs.Feeding.{CannotGoOn, HasCome, LedTo};
ghost use Rattle.bye_tsv.specs.Kept.{reading_kept};
ghost use Rattle.bye_tsv.specs.Reading.{taken};
ghost use Rattle.std.specs.Prelude.{◌≡◌, ◌<◌, ◌+◌, ◌^◌, ◌++◌, [], ℕ, List, IfOk, IfErr, OnOk, length, true};
ghost use Rattle.std.specs.Str.{encode_utf8_all};

use crate::document::Document;
use crate::fault::{Bounds, TsvErr};
use bye_lex::decode;
use bye_table::Table;
use bye_terms::{Cursor, Memory};
use std::alloc::Global;
use std::marker::Model;
use std::mem;

/// How far a document was read: its lines, the bytes of a character that has not come whole, and the place of these.
#[derive(Debug, Drop)]
pub struct Reading {
    document: Document,
    left: Vec<u8>,
    place: usize,
}

impl Model for Reading {
    ghost use Rattle.bye_tsv.specs.Reading.{ReadingAt};

    ghost Value = { ReadingAt };

    ghost view = { λ r. record { doc = r.document; left = r.left.items; place = r.place } };
}

/// Whether what is left over after whole characters lets the document go on, at its place.
fn judge(begins: bool, place: usize) -> Result<(), TsvErr>
    ensures ok { OnOk result (begins ≡ true) }
    ensures err { IfErr result (CannotGoOn begins place) }
{
    if !begins {
        return Err(TsvErr::NotUtf8(place));
    }
    Ok(())
}

/// Puts bytes at the end of others.
fn append(bytes: &mut Vec<u8>, more: &[u8]) -> Result<(), Memory>
    ensures { OnOk result (bytes.new.items ≡ bytes.old.items ++ more.now) }
{
    bytes.extend_from_slice(more)?;
    Ok(())
}

impl Reading {
    /// Before the first byte.
    pub fn new(alloc: Global) -> Reading
        ensures { result ≡ record { doc = start; left = []; place = 0 } }
    {
        Reading {
            document: Document::new(alloc),
            left: Vec::new(alloc),
            place: 0,
        }
    }

    /// Takes bytes that come after whole characters. After a refusal the reading is spoiled.
    fn take_bytes(&mut self, alloc: Global, bounds: Bounds, bytes: &[u8]) -> Result<(), TsvErr>
        requires room { self.old.place + length bytes.now < 2 ^ 64 }
        requires sound { IsSound self.old.doc }
        ensures ok { (front : List ℕ) → LedTo bounds front self.old.doc self.old.place → OnOk result (HasCome bounds (encode_utf8_all front ++ bytes.now) self.new) }
        ensures err { (front : List ℕ) → LedTo bounds front self.old.doc self.old.place → IfErr result (IsRefusal bounds (encode_utf8_all front ++ bytes.now)) }
        ensures sound { OnOk result (IsSound self.new.doc) }
        ensures taken { OnOk result (taken self.new ≡ self.old.place + length bytes.now) }
    {
        let decoded = decode(bytes);
        let end = self.place + decoded.text.as_bytes().len();
        self.document
            .walk(alloc, bounds, Cursor::new(decoded.text), end)?;
        judge(decoded.begins, end)?;
        self.left.clear();
        append(&mut self.left, decoded.left)?;
        self.place = end;
        Ok(())
    }

    /// Takes more bytes. After a refusal the reading is spoiled.
    pub fn feed(&mut self, alloc: Global, bounds: Bounds, piece: &[u8]) -> Result<(), TsvErr>
        requires room { taken self.old + length piece.now < 2 ^ 64 }
        requires sound { IsSound self.old.doc }
        ensures ok { (bytes : List ℕ) → HasCome bounds bytes self.old → OnOk result (HasCome bounds (bytes ++ piece.now) self.new) }
        ensures err { (bytes : List ℕ) → HasCome bounds bytes self.old → IfErr result (IsRefusal bounds (bytes ++ piece.now)) }
        ensures sound { OnOk result (IsSound self.new.doc) }
        ensures taken { OnOk result (taken self.new ≡ taken self.old + length piece.now) }
    {
        if self.left.is_empty() {
            return self.take_bytes(alloc, bounds, piece);
        }
        let mut bytes = mem::replace(&mut self.left, Vec::new(alloc));
        append(&mut bytes, piece)?;
        self.take_bytes(alloc, bounds, bytes.as_slice())
    }

    /// How many bytes of the line that is not ended it keeps.
    pub fn kept(&self) -> usize
        requires { reading_kept self.now < 2 ^ 64 }
        ensures { result ≡ reading_kept self.now }
    {
        self.document.kept() + self.left.len()
    }

    /// The table of the document that ends there.
    pub fn finish(self, alloc: Global, bounds: Bounds) -> Result<Table, TsvErr>
        requires { IsSound self.doc }
        ensures read { (bytes : List ℕ) → HasCome bounds bytes self → IfOk result (IsRead bounds bytes) }
        ensures fault { (bytes : List ℕ) → HasCome bounds bytes self → IfErr result (IsFault bounds bytes) }
    {
        if !self.left.is_empty() {
            return Err(TsvErr::NotUtf8(self.place));
        }
        let Reading {
            document,
            left: _,
            place,
        } = self;
        document.finish(alloc, bounds, place)
    }
}

/// The table of a document (SPARQL 1.1 Query Results CSV and TSV Formats, section 4), with no more variables and rows than the bounds.
pub fn read_tsv(alloc: Global, bytes: &[u8], bounds: Bounds) -> Result<Table, TsvErr>
    ensures read { IfOk result (IsRead bounds bytes.now) }
    ensures fault { IfErr result (IsFault bounds bytes.now) }
{
    let mut reading = Reading::new(alloc);
    reading.take_bytes(alloc, bounds, bytes)?;
    reading.finish(alloc, bounds)
}
