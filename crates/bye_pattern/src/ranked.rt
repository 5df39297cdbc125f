//! Triple patterns in the order in which they are tried.

ghost use Rattle.std.specs.Prelude.{◌≡◌, ◌++◌, ◌∷◌, [], ◌↔◌, IfOk, IsTrue, Contains};
ghost use Rattle.std.specs.List.Sorted.{IsPermutation};
ghost use Rattle.bye_terms.specs.Members.{In, EachOnce};
ghost use Rattle.bye_pattern.specs.Patterns.{Pattern, vars};
ghost use Rattle.bye_pattern.specs.Printed.{root_line};
ghost use Rattle.bye_pattern.specs.TrialOrder.{distinct_count, trial_cmp, IsInTrialOrder};
ghost use Rattle.bye_pattern.specs.Ranking as spec;

use crate::pattern::TriplePattern;
use crate::printer::push_line;
use crate::slot::Slot;
use bye_terms::{Memory, Text, push_item};
use std::alloc::Global;
use std::cmp::Ordering;
use std::marker::Model;

/// A pattern with what its place in the order goes by: its number of distinct variables, and its line.
#[derive(Drop)]
pub struct Ranked {
    variables: usize,
    line: Text,
    pattern: TriplePattern,
}

impl Model for Ranked {
    ghost use Rattle.std.specs.Prelude.{◌≡◌};
    ghost use Rattle.bye_pattern.specs.Patterns.{Pattern, vars};
    ghost use Rattle.bye_pattern.specs.Printed.{root_line};
    ghost use Rattle.bye_pattern.specs.TrialOrder.{distinct_count};

    ghost Value = { Pattern };

    ghost view = { λ r. r.pattern };

    ghost invariant = { λ r. (r.variables ≡ distinct_count (vars r.pattern)) × (r.line ≡ root_line r.pattern) };
}

fn is_same_var(one: &Slot, other: &Slot) -> bool
    ensures { result ≡ spec.is_same_var one.now other.now }
{
    match (one, other) {
        (Slot::Var(a), Slot::Var(b)) => a.same(b),
        _ => false,
    }
}

fn one_if(test: bool) -> usize
    ensures { result ≡ spec.one_if test }
{
    usize::from(test)
}

/// How many distinct variables the places have.
#[tactic(auto, unfolding(crate::specs::Ranking::variable_count))]
fn count_variables(s: &Slot, p: &Slot, o: &Slot) -> usize
    ensures { result ≡ spec.variable_count s.now p.now o.now }
{
    one_if(s.is_var() && !is_same_var(p, s) && !is_same_var(o, s))
        + one_if(p.is_var() && !is_same_var(o, p))
        + one_if(o.is_var())
}

impl Ranked {
    fn of_pattern(alloc: Global, pattern: TriplePattern) -> Result<Ranked, Memory>
        ensures { IfOk result (λ r. r ≡ pattern) }
    {
        let variables = count_variables(pattern.s(), pattern.p(), pattern.o());
        let mut line = Text::new(alloc);
        push_line(alloc, &mut line, &pattern)?;
        Ok(Ranked {
            variables,
            line,
            pattern,
        })
    }

    fn pattern(&self) -> &TriplePattern
        ensures { result.now ≡ self.now }
    {
        &self.pattern
    }
}

/// The order in which two patterns are tried.
fn compare(one: &Ranked, other: &Ranked) -> Ordering
    ensures { result ≡ trial_cmp one.now other.now }
{
    match one.variables.cmp(&other.variables) {
        Ordering::Equal => one.line.as_str().cmp(other.line.as_str()),
        order => order,
    }
}

fn rank(alloc: Global, patterns: Vec<TriplePattern>) -> Result<Vec<Ranked>, Memory>
    ensures { IfOk result (λ v. v.items ≡ patterns.items) }
{
    let mut out = Vec::new(alloc);
    for pattern in patterns {
        push_item(&mut out, Ranked::of_pattern(alloc, pattern)?)?;
    }
    Ok(out)
}

fn sort(ranked: &mut Vec<Ranked>)
    ensures same { IsPermutation ranked.old.items ranked.new.items }
    ensures sorted { IsInTrialOrder ranked.new.items }
{
    ranked.sort_unstable_by(compare);
}

/// Whether the pattern is one of these.
fn contains(patterns: &[TriplePattern], one: &TriplePattern) -> bool
    ensures { IsTrue result ↔ Contains patterns.now one.now }
{
    patterns.iter().any(|p| p.same(one))
}

/// The patterns without repeats.
fn each_once(alloc: Global, ranked: &[Ranked]) -> Result<Vec<TriplePattern>, Memory>
    ensures same { IfOk result (λ v. (p : Pattern) → In v.items p ↔ In ranked.now p) }
    ensures once { IfOk result (λ v. EachOnce v.items) }
    ensures sorted { IsInTrialOrder ranked.now → IfOk result (λ v. IsInTrialOrder v.items) }
{
    let mut out = Vec::new(alloc);
    for r in ranked {
        if !contains(out.as_slice(), r.pattern()) {
            push_item(&mut out, r.pattern().copy(alloc)?)?;
        }
    }
    Ok(out)
}

/// The patterns in the order in which they are tried, each once.
pub fn in_trial_order(
    alloc: Global,
    patterns: Vec<TriplePattern>,
) -> Result<Vec<TriplePattern>, Memory>
    ensures same { IfOk result (λ v. (p : Pattern) → In v.items p ↔ In patterns.items p) }
    ensures once { IfOk result (λ v. EachOnce v.items) }
    ensures sorted { IfOk result (λ v. IsInTrialOrder v.items) }
{
    let mut ranked = rank(alloc, patterns)?;
    sort(&mut ranked);
    each_once(alloc, ranked.as_slice())
}
