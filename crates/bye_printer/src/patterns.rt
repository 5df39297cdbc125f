//! Terms, places and triple patterns (SPARQL 1.1 Query, sections 4.1 and 4.2).

ghost use Rattle.std.specs.Prelude.{◌≡◌, ◌++◌, OnOk, codes, false, true};
ghost use Rattle.std.specs.List.{AllByRecursion, flat_map};
ghost use Rattle.bye_terms.specs.Names.{is_name};
ghost use Rattle.bye_terms.specs.Spellings.{term_text};
ghost use Rattle.bye_terms.specs.Terms.{is_blank};
ghost use Rattle.bye_terms.specs.Valid.{IsTerm};
ghost use Rattle.bye_pattern.specs.Printed.{names_text, pattern_text, slot_text, triple_line};
ghost use Rattle.bye_grammar.specs.Valid.{IsPattern, IsSlot};

use bye_lex::{Style, written_as_ordered};
use bye_pattern::{Constant, Slot, TriplePattern};
use bye_terms::{Memory, Term, Text, Var};
use std::alloc::Global;

/// Puts the spelling of a term at the end.
fn push_term(alloc: Global, out: &mut Text, term: &Term) -> Result<(), Memory>
    ensures text { OnOk result (out.new ≡ out.old ++ term_text term.now) }
    ensures valid { OnOk result (IsTerm term.now) }
{
    written_as_ordered();
    let mut spelled = Vec::new(alloc);
    bye_lex::push_term(alloc, &mut spelled, term.as_rdf(), Style::Query)?;
    match str::from_utf8(spelled.as_slice()) {
        Ok(text) => out.push_str(text),
        Err(_) => unreachable!(),
    }
}

/// Puts a constant at the end.
pub fn push_constant(alloc: Global, out: &mut Text, constant: &Constant) -> Result<(), Memory>
    ensures text { OnOk result (out.new ≡ out.old ++ term_text constant.now) }
    ensures valid { OnOk result (IsTerm constant.now × (is_blank constant.now ≡ false)) }
{
    push_term(alloc, out, constant.term())
}

/// Puts a variable with its mark at the end.
pub fn push_var(out: &mut Text, var: &Var) -> Result<(), Memory>
    ensures text { OnOk result (out.new ≡ out.old ++ (codes "?" ++ var.now)) }
    ensures valid { OnOk result (is_name var.now ≡ true) }
{
    out.push_ascii("?")?;
    out.push_text(var.name())
}

/// Puts what stands in a place at the end.
pub fn push_slot(alloc: Global, out: &mut Text, slot: &Slot) -> Result<(), Memory>
    ensures text { OnOk result (out.new ≡ out.old ++ slot_text slot.now) }
    ensures valid { OnOk result (IsSlot slot.now) }
{
    match slot {
        Slot::Var(var) => push_var(out, var),
        Slot::Const(constant) => push_constant(alloc, out, constant),
    }
}

/// Puts a triple pattern at the end.
fn push_pattern(alloc: Global, out: &mut Text, pattern: &TriplePattern) -> Result<(), Memory>
    ensures text { OnOk result (out.new ≡ out.old ++ pattern_text pattern.now) }
    ensures valid { OnOk result (IsPattern pattern.now) }
{
    push_slot(alloc, out, pattern.s())?;
    out.push_ascii(" ")?;
    push_slot(alloc, out, pattern.p())?;
    out.push_ascii(" ")?;
    push_slot(alloc, out, pattern.o())?;
    out.push_ascii(" .")
}

/// Puts the line of a triple pattern at the end.
fn push_triple(
    alloc: Global,
    out: &mut Text,
    margin: &Text,
    pattern: &TriplePattern,
) -> Result<(), Memory>
    ensures text { OnOk result (out.new ≡ out.old ++ triple_line margin.now pattern.now) }
    ensures valid { OnOk result (IsPattern pattern.now) }
{
    out.push_text(margin)?;
    push_pattern(alloc, out, pattern)?;
    out.push_ascii("\n")
}

/// Puts the lines of triple patterns at the end.
pub fn push_triples(
    alloc: Global,
    out: &mut Text,
    margin: &Text,
    triples: &[TriplePattern],
) -> Result<(), Memory>
    ensures text { OnOk result (out.new ≡ out.old ++ flat_map (triple_line margin.now) triples.now) }
    ensures valid { OnOk result (AllByRecursion IsPattern triples.now) }
{
    for pattern in triples {
        push_triple(alloc, out, margin, pattern)?;
    }
    Ok(())
}

/// Puts the selected variables at the end, each after a space.
pub fn push_names(out: &mut Text, vars: &[Var]) -> Result<(), Memory>
    ensures text { OnOk result (out.new ≡ out.old ++ names_text vars.now) }
    ensures valid { OnOk result (AllByRecursion (λ v. is_name v ≡ true) vars.now) }
{
    for var in vars {
        out.push_ascii(" ")?;
        push_var(out, var)?;
    }
    Ok(())
}
