//! The triple patterns that become a triple of the graph under one row.

ghost use Rattle.std.specs.Prelude.{◌≡◌, ◌++◌, ◌∷◌, [], ◌||◌, IfOk, OnOk, true, false, if◌then◌else◌};
ghost use Rattle.bye_pattern.specs.Conditions.{same_term};
ghost use Rattle.bye_pattern.specs.Candidates as spec;

use crate::constant::Constant;
use crate::pattern::TriplePattern;
use crate::slot::Slot;
use bye_terms::{Memory, Term, Triple, Var, push_item};
use std::alloc::Global;

/// Whether the two are the same term.
fn same(one: &Term, other: &Term) -> bool
    ensures { result ≡ same_term one.now other.now }
{
    one.same(other)
}

fn push_constant(alloc: Global, out: &mut Vec<Slot>, term: &Term) -> Result<(), Memory>
    ensures { OnOk result (out.new.items ≡ out.old.items ++ spec.const_slot term.now) }
{
    match Constant::of_term(term.copy(alloc)?) {
        Some(c) => push_item(out, Slot::Const(c)),
        None => Ok(()),
    }
}

fn push_var(
    alloc: Global,
    out: &mut Vec<Slot>,
    name: &Var,
    value: &Term,
    term: &Term,
) -> Result<(), Memory>
    ensures { OnOk result (out.new.items ≡ out.old.items ++ spec.var_slot term.now (name.now, value.now)) }
{
    if same(value, term) {
        push_item(out, Slot::Var(name.copy(alloc)?))
    } else {
        Ok(())
    }
}

/// What may stand in a pattern where the triple has this term.
fn slots(alloc: Global, row: &[(Var, Term)], term: &Term) -> Result<Vec<Slot>, Memory>
    ensures { IfOk result (λ v. v.items ≡ spec.slots row.now term.now) }
{
    let mut out = Vec::new(alloc);
    push_constant(alloc, &mut out, term)?;
    for e in row {
        push_var(alloc, &mut out, &e.0, &e.1, term)?;
    }
    Ok(out)
}

fn has_var(s: &Slot, p: &Slot, o: &Slot) -> bool
    ensures { result ≡ (spec.is_var s.now || spec.is_var p.now || spec.is_var o.now) }
{
    s.is_var() || p.is_var() || o.is_var()
}

/// Puts the pattern of these three at the end, where it is one and has a variable.
fn push_pattern(
    alloc: Global,
    out: &mut Vec<TriplePattern>,
    s: &Slot,
    p: &Slot,
    o: &Slot,
) -> Result<(), Memory>
    ensures { OnOk result (out.new.items ≡ out.old.items ++ spec.offered s.now p.now o.now) }
{
    if !has_var(s, p, o) {
        return Ok(());
    }
    match TriplePattern::of_slots(s.copy(alloc)?, p.copy(alloc)?, o.copy(alloc)?) {
        Some(pattern) => push_item(out, pattern),
        None => Ok(()),
    }
}

fn push_objects(
    alloc: Global,
    out: &mut Vec<TriplePattern>,
    os: &[Slot],
    s: &Slot,
    p: &Slot,
) -> Result<(), Memory>
    ensures { OnOk result (out.new.items ≡ out.old.items ++ spec.with_objects os.now s.now p.now) }
{
    for o in os {
        push_pattern(alloc, out, s, p, o)?;
    }
    Ok(())
}

fn push_predicates(
    alloc: Global,
    out: &mut Vec<TriplePattern>,
    ps: &[Slot],
    os: &[Slot],
    s: &Slot,
) -> Result<(), Memory>
    ensures { OnOk result (out.new.items ≡ out.old.items ++ spec.with_predicates ps.now os.now s.now) }
{
    for p in ps {
        push_objects(alloc, out, os, s, p)?;
    }
    Ok(())
}

fn push_subjects(
    alloc: Global,
    out: &mut Vec<TriplePattern>,
    ss: &[Slot],
    ps: &[Slot],
    os: &[Slot],
) -> Result<(), Memory>
    ensures { OnOk result (out.new.items ≡ out.old.items ++ spec.with_subjects ss.now ps.now os.now) }
{
    for s in ss {
        push_predicates(alloc, out, ps, os, s)?;
    }
    Ok(())
}

#[tactic(auto, unfolding(crate::specs::Candidates::of_terms))]
fn push_terms(
    alloc: Global,
    out: &mut Vec<TriplePattern>,
    row: &[(Var, Term)],
    s: &Term,
    p: &Term,
    o: &Term,
) -> Result<(), Memory>
    ensures { OnOk result (out.new.items ≡ out.old.items ++ spec.of_terms row.now s.now p.now o.now) }
{
    let ss = slots(alloc, row, s)?;
    let ps = slots(alloc, row, p)?;
    let os = slots(alloc, row, o)?;
    push_subjects(alloc, out, ss.as_slice(), ps.as_slice(), os.as_slice())
}

/// Whether a term of the triple is one of the row's.
fn touches(row: &[(Var, Term)], triple: &Triple) -> bool
    ensures { result ≡ spec.touches row.now triple.now }
{
    let (s, p, o) = (triple.s(), triple.p(), triple.o());
    row.iter()
        .any(|e| same(&e.1, s) || same(&e.1, p) || same(&e.1, o))
}

fn push_triple(
    alloc: Global,
    out: &mut Vec<TriplePattern>,
    row: &[(Var, Term)],
    triple: &Triple,
) -> Result<(), Memory>
    ensures { OnOk result (out.new.items ≡ out.old.items ++ spec.of_statement row.now triple.now) }
{
    if touches(row, triple) {
        push_terms(alloc, out, row, triple.s(), triple.p(), triple.o())
    } else {
        Ok(())
    }
}

/// Each pattern with a variable that becomes a triple of the graph under the row.
pub fn candidates(
    alloc: Global,
    row: &[(Var, Term)],
    graph: &[Triple],
) -> Result<Vec<TriplePattern>, Memory>
    ensures { IfOk result (λ v. v.items ≡ spec.candidates row.now graph.now) }
{
    let mut out = Vec::new(alloc);
    for t in graph {
        push_triple(alloc, &mut out, row, t)?;
    }
    Ok(out)
}
