//! Triple patterns in the order in which they are tried, each once.

ghost use Rattle.std.specs.Prelude.{◌≡◌, ◌++◌, ◌↔◌, IfOk, OnOk};
ghost use Rattle.std.specs.List.{AllByRecursion};
ghost use Rattle.std.specs.List.Sorted.{IsPermutation};
ghost use Rattle.bye_terms.specs.Members.{In};
ghost use Rattle.bye_pattern.specs.Patterns.{Pattern};
ghost use Rattle.bye_pattern.specs.Ranking as counting;
ghost use Rattle.bye_pattern.specs.TrialOrder.{IsInStrictOrder, IsInTrialOrder, trial_cmp};
ghost use Rattle.bye_laws.specs.Ordering.{IsValidPattern, IsValidSlot};
ghost use Rattle.bye_strongest.specs.Ranking as spec;

use crate::line::push_line;
use bye_pattern::{Slot, TriplePattern};
use bye_terms::{Memory, push_item};
use std::alloc::Global;
use std::cmp::Ordering;
use std::marker::Model;

/// A pattern with what its place in the order goes by: its number of distinct variables, and the bytes of its line.
#[derive(Drop)]
pub struct Ranked {
    variables: usize,
    line: Vec<u8>,
    pattern: TriplePattern,
}

impl Model for Ranked {
    ghost use Rattle.std.specs.Prelude.{◌≡◌};
    ghost use Rattle.bye_pattern.specs.Patterns.{Pattern, vars};
    ghost use Rattle.bye_pattern.specs.TrialOrder.{distinct_count, line_bytes};

    ghost Value = { Pattern };

    ghost view = { λ r. r.pattern };

    ghost invariant = { λ r. (r.variables ≡ distinct_count (vars r.pattern)) × (r.line.items ≡ line_bytes r.pattern) };
}

fn is_same_var(one: &Slot, other: &Slot) -> bool
    ensures { result ≡ counting.is_same_var one.now other.now }
{
    match (one, other) {
        (Slot::Var(one), Slot::Var(other)) => one.same(other),
        _ => false,
    }
}

fn one_if(test: bool) -> usize
    ensures { result ≡ counting.one_if test }
{
    usize::from(test)
}

/// How many distinct variables the places have.
#[tactic(auto, unfolding(bye_pattern::specs::Ranking::variable_count))]
fn count_variables(s: &Slot, p: &Slot, o: &Slot) -> usize
    ensures { result ≡ counting.variable_count s.now p.now o.now }
{
    one_if(s.is_var() && !is_same_var(p, s) && !is_same_var(o, s))
        + one_if(p.is_var() && !is_same_var(o, p))
        + one_if(o.is_var())
}

/// Makes known that the place has a name or a term of RDF.
fn know_slot(slot: &Slot)
    ensures { IsValidSlot slot.now }
{
    match slot {
        Slot::Var(var) => {
            let _name = var.name();
        }
        Slot::Const(constant) => {
            let _term = constant.term().as_rdf();
        }
    }
}

/// Makes known that the pattern is valid.
fn know_pattern(pattern: &TriplePattern)
    ensures { IsValidPattern pattern.now }
{
    know_slot(pattern.s());
    know_slot(pattern.p());
    know_slot(pattern.o());
}

/// Makes known that the patterns are valid.
fn know_patterns(patterns: &[TriplePattern])
    ensures { AllByRecursion IsValidPattern patterns.now }
{
    for pattern in patterns {
        know_pattern(pattern);
    }
}

impl Ranked {
    fn of_pattern(alloc: Global, pattern: TriplePattern) -> Result<Ranked, Memory>
        ensures { IfOk result (λ r. r ≡ pattern) }
    {
        let variables = count_variables(pattern.s(), pattern.p(), pattern.o());
        let mut line = Vec::new(alloc);
        push_line(alloc, &mut line, &pattern)?;
        Ok(Ranked {
            variables,
            line,
            pattern,
        })
    }

    fn pattern(&self) -> &TriplePattern
        ensures { result.now ≡ self.now }
    {
        &self.pattern
    }
}

/// The order in which two patterns are tried.
fn compare(one: &Ranked, other: &Ranked) -> Ordering
    ensures { result ≡ trial_cmp one.now other.now }
{
    match one.variables.cmp(&other.variables) {
        Ordering::Equal => one.line.as_slice().cmp(other.line.as_slice()),
        order => order,
    }
}

fn rank(alloc: Global, patterns: Vec<TriplePattern>) -> Result<Vec<Ranked>, Memory>
    ensures { IfOk result (λ v. v.items ≡ patterns.items) }
{
    let mut out = Vec::with_capacity(alloc, patterns.len())?;
    for pattern in patterns {
        push_item(&mut out, Ranked::of_pattern(alloc, pattern)?)?;
    }
    Ok(out)
}

fn sort(ranked: &mut Vec<Ranked>)
    ensures same { IsPermutation ranked.old.items ranked.new.items }
    ensures sorted { IsInTrialOrder ranked.new.items }
{
    ranked.sort_unstable_by(compare);
}

/// Whether the first of those that come after it is the same.
fn is_repeated(one: &Ranked, after: &[Ranked]) -> bool
    ensures { result ≡ spec.is_repeated one.now after.now }
{
    match after.first() {
        Some(next) => compare(one, next).is_eq(),
        None => false,
    }
}

fn push_last(
    alloc: Global,
    out: &mut Vec<TriplePattern>,
    one: &Ranked,
    after: &[Ranked],
) -> Result<(), Memory>
    ensures { OnOk result (out.new.items ≡ out.old.items ++ spec.last one.now after.now) }
{
    if is_repeated(one, after) {
        Ok(())
    } else {
        push_item(out, one.pattern().copy(alloc)?)
    }
}

/// The patterns without repeats, of those that are sorted.
fn each_once(alloc: Global, ranked: &[Ranked]) -> Result<Vec<TriplePattern>, Memory>
    ensures { IfOk result (λ v. v.items ≡ spec.each_once ranked.now) }
{
    let mut out = Vec::new(alloc);
    let mut rest = ranked;
    while let Some((one, after)) = rest.split_first() {
        push_last(alloc, &mut out, one, after)?;
        rest = after;
    }
    Ok(out)
}

/// The patterns in the order in which they are tried, each once.
pub fn in_trial_order(
    alloc: Global,
    patterns: Vec<TriplePattern>,
) -> Result<Vec<TriplePattern>, Memory>
    ensures same { IfOk result (λ v. (p : Pattern) → In v.items p ↔ In patterns.items p) }
    ensures strict { IfOk result (λ v. IsInStrictOrder v.items) }
{
    know_patterns(patterns.as_slice());
    let mut ranked = rank(alloc, patterns)?;
    sort(&mut ranked);
    let out = each_once(alloc, ranked.as_slice())?;
    Ok(out)
}
