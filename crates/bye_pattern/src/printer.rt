//! The written text of the places of a triple pattern, and of its line (SPARQL 1.1 Query, section 19.8).

ghost use Rattle.std.specs.Prelude.{◌≡◌, ◌++◌, OnOk};
ghost use Rattle.bye_terms.specs.Spellings.{term_text};
ghost use Rattle.bye_pattern.specs.Printed as spec;

use crate::pattern::TriplePattern;
use crate::slot::Slot;
use bye_lex::{Style, written_as_ordered};
use bye_terms::{Memory, Term, Text};
use std::alloc::Global;

/// Puts the spelling of a term at the end.
fn push_term(alloc: Global, out: &mut Text, term: &Term) -> Result<(), Memory>
    ensures { OnOk result (out.new ≡ out.old ++ term_text term.now) }
{
    written_as_ordered();
    let mut spelled = Vec::new(alloc);
    bye_lex::push_term(alloc, &mut spelled, term.as_rdf(), Style::Query)?;
    match str::from_utf8(spelled.as_slice()) {
        Ok(text) => out.push_str(text),
        Err(_) => unreachable!(),
    }
}

/// Puts a variable after its mark, or the spelling of a constant, at the end.
fn push_slot(alloc: Global, out: &mut Text, slot: &Slot) -> Result<(), Memory>
    ensures { OnOk result (out.new ≡ out.old ++ spec.slot_text slot.now) }
{
    match slot {
        Slot::Var(v) => {
            out.push_ascii("?")?;
            out.push_text(v.name())
        }
        Slot::Const(c) => push_term(alloc, out, c.term()),
    }
}

/// Puts the line of a triple pattern within the outermost group at the end.
#[tactic(auto, unfolding(crate::specs::Printed::root_line))]
pub fn push_line(alloc: Global, out: &mut Text, pattern: &TriplePattern) -> Result<(), Memory>
    ensures { OnOk result (out.new ≡ out.old ++ spec.root_line pattern.now) }
{
    out.push_ascii("  ")?;
    push_slot(alloc, out, pattern.s())?;
    out.push_ascii(" ")?;
    push_slot(alloc, out, pattern.p())?;
    out.push_ascii(" ")?;
    push_slot(alloc, out, pattern.o())?;
    out.push_ascii(" .\n")
}
