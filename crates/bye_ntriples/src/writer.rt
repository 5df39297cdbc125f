//! The canonical document of triples. Their lines are spelled one after another into one text, which is cut into lines; these
//! are sorted with their keys, and joined without repeats.

ghost use Rattle.std.specs.Prelude.{◌≡◌, ◌++◌, [], IfOk, OnOk, map};
ghost use Rattle.bye_terms.specs.Spellings.{term_bytes};
ghost use Rattle.bye_ntriples.specs.Canonical.{line_bytes, IsCanonical, IsReadBack, IsStatement};
ghost use Rattle.bye_ntriples.specs.Writing.{IsAdded, AreSpelled, parts, MayCut, joined, AreJoined};

use crate::keys::keyed;
use bye_lex::{Style, push_term, written_as_ordered};
use bye_terms::{Memory, Term, Triple, push_item};
use std::alloc::Global;

/// Puts the spelling of a term at the end.
fn push_spelling(alloc: Global, out: &mut Vec<u8>, term: &Term) -> Result<(), Memory>
    ensures { OnOk result (out.new.items ≡ out.old.items ++ term_bytes term.now) }
{
    written_as_ordered();
    push_term(alloc, out, term, Style::Triples)
}

/// Puts the line of a triple at the end.
#[tactic(auto, using(crate::proofs::Spelled::line_put))]
fn push_line(alloc: Global, out: &mut Vec<u8>, triple: &Triple) -> Result<(), Memory>
    ensures line { OnOk result (out.new.items ≡ out.old.items ++ line_bytes triple.now) }
    ensures valid { OnOk result (IsStatement triple.now) }
{
    push_spelling(alloc, out, triple.s())?;
    out.extend_from_slice(b" ")?;
    push_spelling(alloc, out, triple.p())?;
    out.extend_from_slice(b" ")?;
    push_spelling(alloc, out, triple.o())?;
    out.extend_from_slice(b" .\n")?;
    Ok(())
}

/// The lines of triples, one after another, and how long each is.
#[derive(Drop)]
struct Spelled {
    text: Vec<u8>,
    lengths: Vec<usize>,
}

/// Puts the line of a triple after the others.
fn add(alloc: Global, spelled: &mut Spelled, triple: &Triple) -> Result<(), Memory>
    ensures { OnOk result (IsAdded triple.now spelled.old.text.items spelled.old.lengths.items
        spelled.new.text.items spelled.new.lengths.items) }
{
    let before = spelled.text.len();
    push_line(alloc, &mut spelled.text, triple)?;
    let length = spelled.text.len() - before;
    push_item(&mut spelled.lengths, length)
}

/// The lines of the triples.
fn spell(alloc: Global, triples: &[Triple]) -> Result<Spelled, Memory>
    ensures { IfOk result (λ s. AreSpelled triples.now s.text.items s.lengths.items) }
{
    let mut spelled = Spelled {
        text: Vec::new(alloc),
        lengths: Vec::with_capacity(alloc, triples.len())?,
    };
    for triple in triples {
        add(alloc, &mut spelled, triple)?;
    }
    Ok(spelled)
}

/// The parts of the text that have these lengths.
fn cut<'a>(alloc: Global, text: &'a str, lengths: &[usize]) -> Result<Vec<&'a str>, Memory>
    requires { MayCut lengths.now text.now }
    ensures { IfOk result (λ v. map (λ s. s.now) v.items ≡ parts lengths.now text.now) }
{
    let mut lines = Vec::with_capacity(alloc, lengths.len())?;
    let mut rest = text;
    for length in lengths {
        let (line, more) = rest.split_at(*length);
        push_item(&mut lines, line)?;
        rest = more;
    }
    Ok(lines)
}

/// The lines one after another, without those that equal the line before them.
fn join(alloc: Global, lines: &[(u64, u64, &str)], capacity: usize) -> Result<Vec<u8>, Memory>
    ensures { IfOk result (λ v. v.items ≡ joined [] (map (λ k. k.2.now) lines.now)) }
{
    let mut out = Vec::with_capacity(alloc, capacity)?;
    let mut last = "";
    for (_, _, line) in lines {
        if *line != last {
            out.extend_from_slice(line.as_bytes())?;
        }
        last = line;
    }
    Ok(out)
}

/// The canonical document of these lines.
fn sort(alloc: Global, text: &str, lengths: &[usize]) -> Result<Vec<u8>, Memory>
    requires { MayCut lengths.now text.now }
    ensures { IfOk result (λ v. AreJoined (parts lengths.now text.now) v.items) }
{
    let cut = cut(alloc, text, lengths)?;
    let mut lines = keyed(alloc, cut.as_slice())?;
    lines.sort_unstable();
    join(alloc, lines.as_slice(), text.len())
}

/// The canonical document of the triples: the distinct ones, each on a line of its own, in the byte order of these lines (RDF 1.1
/// N-Triples, section 4).
pub fn write_triples(alloc: Global, triples: &[Triple]) -> Result<Vec<u8>, Memory>
    ensures canonical { IfOk result (λ bytes. IsCanonical triples.now bytes.items) }
    ensures document { IfOk result (λ bytes. IsReadBack triples.now bytes.items) }
{
    let spelled = spell(alloc, triples)?;
    match str::from_utf8(spelled.text.as_slice()) {
        Ok(text) => sort(alloc, text, spelled.lengths.as_slice()),
        Err(_) => unreachable!(),
    }
}
