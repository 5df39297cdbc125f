//! Graph documents, read whole or in pieces.

ghost use Rattle.bye_ntriples.specs.Answers.{IsFault, IsGraph};
ghost use Rattle.bye_ntriples.specs.DocSteps.{start};
ghost use Rattle.bye_ntriples.specs.Feeding.{HasCome, IsRefusal, LedTo, taken};
ghost use Rattle.bye_ntriples.specs.Judging.{CanGoOn, CannotGoOn};
ghost use Rattle.std.specs.Prelude.{◌≡◌, ◌<◌, ◌+◌, ◌^◌, ◌++◌, [], ℕ, List, IfOk, IfErr, OnOk, length};
ghost use Rattle.std.specs.Str.{encode_utf8_all};

use crate::document::Document;
use crate::fault::NtErr;
use bye_lex::{decode, may_go_on_in_label};
use bye_terms::{Cursor, Memory, Triple};
use std::alloc::Global;
use std::marker::Model;
use std::mem;

/// How far a document was read: its lines, the bytes of a character that has not come whole, and the place of these.
#[derive(Debug, Drop)]
pub struct Reading {
    document: Document,
    left: Vec<u8>,
    place: usize,
}

impl Model for Reading {
    ghost use Rattle.bye_ntriples.specs.Feeding.{ReadingAt};

    ghost Value = { ReadingAt };

    ghost view = { λ r. record { doc = r.document; left = r.left.items; place = r.place } };
}

/// Whether what is left over after whole characters lets the document go on, at its place.
fn judge(document: &Document, left: &[u8], begins: bool, place: usize) -> Result<(), NtErr>
    ensures ok { OnOk result (CanGoOn document.now left.now begins) }
    ensures err { IfErr result (CannotGoOn document.now left.now begins place) }
{
    if !begins {
        if document.is_over_there() {
            return Err(NtErr::TooMany);
        }
        return Err(NtErr::NotUtf8(place));
    }
    if document.is_over_there() && !may_go_on_in_label(left) {
        return Err(NtErr::TooMany);
    }
    Ok(())
}

/// Puts bytes at the end of others.
fn append(bytes: &mut Vec<u8>, more: &[u8]) -> Result<(), Memory>
    ensures { OnOk result (bytes.new.items ≡ bytes.old.items ++ more.now) }
{
    bytes.extend_from_slice(more)?;
    Ok(())
}

impl Reading {
    /// Before the first byte.
    pub fn new(alloc: Global) -> Reading
        ensures { result ≡ record { doc = start; left = []; place = 0 } }
    {
        Reading {
            document: Document::new(alloc),
            left: Vec::new(alloc),
            place: 0,
        }
    }

    /// Takes bytes that come after whole characters. After a refusal the reading is spoiled.
    fn take_bytes(&mut self, alloc: Global, bytes: &[u8]) -> Result<(), NtErr>
        requires { self.old.place + length bytes.now < 2 ^ 64 }
        ensures ok { (front : List ℕ) → LedTo front self.old.doc self.old.place → OnOk result (HasCome (encode_utf8_all front ++ bytes.now) self.new) }
        ensures err { (front : List ℕ) → LedTo front self.old.doc self.old.place → IfErr result (IsRefusal (encode_utf8_all front ++ bytes.now)) }
        ensures taken { OnOk result (taken self.new ≡ self.old.place + length bytes.now) }
    {
        let decoded = decode(bytes);
        let end = self.place + decoded.text.as_bytes().len();
        self.document.walk(alloc, Cursor::new(decoded.text), end)?;
        judge(&self.document, decoded.left, decoded.begins, end)?;
        self.left.clear();
        append(&mut self.left, decoded.left)?;
        self.place = end;
        Ok(())
    }

    /// Takes more bytes. After a refusal the reading is spoiled.
    pub fn feed(&mut self, alloc: Global, piece: &[u8]) -> Result<(), NtErr>
        requires { taken self.old + length piece.now < 2 ^ 64 }
        ensures ok { (bytes : List ℕ) → HasCome bytes self.old → OnOk result (HasCome (bytes ++ piece.now) self.new) }
        ensures err { (bytes : List ℕ) → HasCome bytes self.old → IfErr result (IsRefusal (bytes ++ piece.now)) }
        ensures taken { OnOk result (taken self.new ≡ taken self.old + length piece.now) }
    {
        if self.left.is_empty() {
            return self.take_bytes(alloc, piece);
        }
        let mut bytes = mem::replace(&mut self.left, Vec::new(alloc));
        append(&mut bytes, piece)?;
        self.take_bytes(alloc, bytes.as_slice())
    }

    /// The triples of the document that ends there.
    pub fn finish(self) -> Result<Vec<Triple>, NtErr>
        ensures read { (bytes : List ℕ) → HasCome bytes self → IfOk result (λ triples. IsGraph bytes triples.items) }
        ensures fault { (bytes : List ℕ) → HasCome bytes self → IfErr result (IsFault bytes) }
    {
        if self.document.is_over_there() {
            return Err(NtErr::TooMany);
        }
        if !self.left.is_empty() {
            return Err(NtErr::NotUtf8(self.place));
        }
        let Reading {
            document,
            left: _,
            place,
        } = self;
        match document.end()? {
            Some(triples) => Ok(triples),
            None => Err(NtErr::Syntax(place)),
        }
    }
}

/// The triples of a graph document, in the order of its lines, repeats included (RDF 1.1 N-Triples, section 2).
pub fn read_triples(alloc: Global, bytes: &[u8]) -> Result<Vec<Triple>, NtErr>
    ensures read { IfOk result (λ triples. IsGraph bytes.now triples.items) }
    ensures fault { IfErr result (IsFault bytes.now) }
{
    let mut reading = Reading::new(alloc);
    reading.take_bytes(alloc, bytes)?;
    reading.finish()
}
