//! The written spelling of a term, put at the end of bytes. Where memory is refused, a part puts a front of its spelling
//! there, which `push_term` takes away again.

ghost use Rattle.std.specs.Prelude.{◌≡◌, ◌++◌, ◌∷◌, [], OnOk, OnErr, None, codes};
ghost use Rattle.std.specs.List.{flat_map};
ghost use Rattle.std.specs.Str.{encode_utf8_all};
ghost use Rattle.bye_terms.specs.Spellings.{suffix_text};
ghost use Rattle.bye_lex.specs.Ends.{IsFront};
ghost use Rattle.bye_lex.specs.Written.{escaped_in, written_literal, written, WrittenAsOrdered};

use crate::style::Style;
use bye_terms::{Cursor, Iri, Label, Literal, Memory, Tag, Term, Text};
use std::alloc::Global;

fn push_str(out: &mut Vec<u8>, piece: &str) -> Result<(), Memory>
    ensures ok { OnOk result (out.new.items ≡ out.old.items ++ piece.now) }
    ensures front { IsFront out.old.items out.new.items }
{
    out.extend_from_slice(piece.as_bytes())?;
    Ok(())
}

fn push_text(out: &mut Vec<u8>, text: &Text) -> Result<(), Memory>
    ensures ok { OnOk result (out.new.items ≡ out.old.items ++ encode_utf8_all text.now) }
    ensures front { IsFront out.old.items out.new.items }
{
    push_str(out, text.as_str())
}

#[tactic(auto, using(crate::proofs::Ends::bracketed))]
fn push_iri(out: &mut Vec<u8>, iri: &Iri) -> Result<(), Memory>
    ensures ok { OnOk result (out.new.items ≡ out.old.items ++ encode_utf8_all (codes "<" ++ iri.now ++ codes ">")) }
    ensures front { IsFront out.old.items out.new.items }
{
    push_str(out, "<")?;
    push_text(out, iri.text())?;
    push_str(out, ">")?;
    Ok(())
}

fn push_label(out: &mut Vec<u8>, label: &Label) -> Result<(), Memory>
    ensures ok { OnOk result (out.new.items ≡ out.old.items ++ encode_utf8_all (codes "_:" ++ label.now)) }
    ensures front { IsFront out.old.items out.new.items }
{
    push_str(out, "_:")?;
    push_text(out, label.text())
}

fn push_raw(out: &mut Vec<u8>, c: char) -> Result<(), Memory>
    ensures ok { OnOk result (out.new.items ≡ out.old.items ++ encode_utf8_all (c ∷ [])) }
    ensures front { IsFront out.old.items out.new.items }
{
    let mut buf = [0u8; 4];
    push_str(out, c.encode_utf8(&mut buf))
}

fn push_char(out: &mut Vec<u8>, c: char, style: Style) -> Result<(), Memory>
    ensures ok { OnOk result (out.new.items ≡ out.old.items ++ encode_utf8_all (escaped_in style c)) }
    ensures front { IsFront out.old.items out.new.items }
{
    match (style, c) {
        (_, '"') => push_str(out, "\\\""),
        (_, '\\') => push_str(out, "\\\\"),
        (_, '\n') => push_str(out, "\\n"),
        (_, '\r') => push_str(out, "\\r"),
        (Style::Tsv, '\t') => push_str(out, "\\t"),
        _ => push_raw(out, c),
    }
}

fn push_lexical(out: &mut Vec<u8>, text: &Text, style: Style) -> Result<(), Memory>
    ensures ok { OnOk result (out.new.items ≡ out.old.items ++ encode_utf8_all (flat_map (escaped_in style) text.now)) }
    ensures front { IsFront out.old.items out.new.items }
{
    let mut rest = Cursor::new(text.as_str());
    while let Some(c) = rest.next() {
        push_char(out, c, style)?;
    }
    Ok(())
}

fn push_tag(out: &mut Vec<u8>, tag: &Tag) -> Result<(), Memory>
    ensures ok { OnOk result (out.new.items ≡ out.old.items ++ encode_utf8_all (codes "@" ++ tag.now)) }
    ensures front { IsFront out.old.items out.new.items }
{
    push_str(out, "@")?;
    push_text(out, tag.text())
}

fn push_datatype(out: &mut Vec<u8>, datatype: &Iri) -> Result<(), Memory>
    ensures ok { OnOk result (out.new.items ≡ out.old.items ++ encode_utf8_all (suffix_text None datatype.now)) }
    ensures front { IsFront out.old.items out.new.items }
{
    if datatype.is_xsd_string() {
        return Ok(());
    }
    push_str(out, "^^")?;
    push_iri(out, datatype)
}

fn push_suffix(out: &mut Vec<u8>, literal: &Literal) -> Result<(), Memory>
    ensures ok { OnOk result (out.new.items ≡
        out.old.items ++ encode_utf8_all (suffix_text literal.now.tag literal.now.datatype)) }
    ensures front { IsFront out.old.items out.new.items }
{
    match literal.tag() {
        Some(tag) => push_tag(out, tag),
        None => push_datatype(out, literal.datatype()),
    }
}

#[tactic(auto, using(crate::proofs::Ends::quoted))]
fn push_literal(out: &mut Vec<u8>, literal: &Literal, style: Style) -> Result<(), Memory>
    ensures ok { OnOk result (out.new.items ≡ out.old.items ++ encode_utf8_all (written_literal style literal.now)) }
    ensures front { IsFront out.old.items out.new.items }
{
    push_str(out, "\"")?;
    push_lexical(out, literal.lexical(), style)?;
    push_str(out, "\"")?;
    push_suffix(out, literal)?;
    Ok(())
}

fn push_spelling(out: &mut Vec<u8>, t: &Term, style: Style) -> Result<(), Memory>
    ensures ok { OnOk result (out.new.items ≡ out.old.items ++ encode_utf8_all (written style t.now)) }
    ensures front { IsFront out.old.items out.new.items }
{
    match t {
        Term::Iri(iri) => push_iri(out, iri),
        Term::Blank(label) => push_label(out, label),
        Term::Lit(literal) => push_literal(out, literal, style),
    }
}

/// Puts the written spelling of a term at the end (RDF 1.1 N-Triples, section 4; SPARQL 1.1 Query Results CSV and TSV
/// Formats, section 4). Where memory is refused, nothing is put there.
pub fn push_term(_alloc: Global, out: &mut Vec<u8>, t: &Term, style: Style) -> Result<(), Memory>
    ensures ok { OnOk result (out.new.items ≡ out.old.items ++ encode_utf8_all (written style t.now)) }
    ensures err { OnErr result (out.new.items ≡ out.old.items) }
{
    let len = out.len();
    let spelled = push_spelling(out, t, style);
    if spelled.is_err() {
        out.truncate(len);
    }
    spelled
}

/// N-Triples and queries write a term as the order of terms has it.
pub fn written_as_ordered()
    ensures { WrittenAsOrdered }
{}
