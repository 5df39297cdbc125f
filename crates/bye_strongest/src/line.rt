//! The line of a triple pattern in the group of a query, in UTF-8 (SPARQL 1.1 Query, section 19.8).

ghost use Rattle.std.specs.Prelude.{◌≡◌, ◌++◌, OnOk};
ghost use Rattle.std.specs.Str.{encode_utf8_all};
ghost use Rattle.bye_terms.specs.Spellings.{term_text};
ghost use Rattle.bye_pattern.specs.Printed.{slot_text};
ghost use Rattle.bye_pattern.specs.TrialOrder.{line_bytes};

use bye_lex::{Style, written_as_ordered};
use bye_pattern::{Slot, TriplePattern};
use bye_terms::{Memory, Term};
use std::alloc::Global;

fn push_bytes(out: &mut Vec<u8>, bytes: &[u8]) -> Result<(), Memory>
    ensures { OnOk result (out.new.items ≡ out.old.items ++ bytes.now) }
{
    out.extend_from_slice(bytes)?;
    Ok(())
}

fn push_term(alloc: Global, out: &mut Vec<u8>, term: &Term) -> Result<(), Memory>
    ensures { OnOk result (out.new.items ≡ out.old.items ++ encode_utf8_all (term_text term.now)) }
{
    written_as_ordered();
    bye_lex::push_term(alloc, out, term, Style::Query)?;
    Ok(())
}

fn push_slot(alloc: Global, out: &mut Vec<u8>, slot: &Slot) -> Result<(), Memory>
    ensures { OnOk result (out.new.items ≡ out.old.items ++ encode_utf8_all (slot_text slot.now)) }
{
    match slot {
        Slot::Var(var) => {
            push_bytes(out, b"?")?;
            push_bytes(out, var.name().as_str().as_bytes())?;
            Ok(())
        }
        Slot::Const(constant) => push_term(alloc, out, constant.term()),
    }
}

/// Puts the line at the end.
pub fn push_line(alloc: Global, out: &mut Vec<u8>, pattern: &TriplePattern) -> Result<(), Memory>
    ensures { OnOk result (out.new.items ≡ out.old.items ++ line_bytes pattern.now) }
{
    push_bytes(out, b"  ")?;
    push_slot(alloc, out, pattern.s())?;
    push_bytes(out, b" ")?;
    push_slot(alloc, out, pattern.p())?;
    push_bytes(out, b" ")?;
    push_slot(alloc, out, pattern.o())?;
    push_bytes(out, b" .\n")?;
    Ok(())
}
