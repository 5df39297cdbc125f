//! The strongest query of one conjunction without conditions that the wanted rows have in common.

ghost use Rattle.std.specs.Prelude.{◌≡◌, ◌∷◌, ◌<◌, List, not, length, map, IfOk, find};
ghost use Rattle.std.specs.List.{AllByRecursion, filter};
ghost use Rattle.std.specs.Option.{option_map};
ghost use Rattle.bye_terms.specs.Terms.{IsTriple};
ghost use Rattle.bye_terms.specs.Members.{In};
ghost use Rattle.bye_table.specs.Mappings.{Name, NoRepeat, Exactly, row_mapping};
ghost use Rattle.bye_table.specs.Tables.{IsTable};
ghost use Rattle.bye_pattern.specs.Candidates as candidate;
ghost use Rattle.bye_pattern.specs.Meeting as meeting;
ghost use Rattle.bye_pattern.specs.Covering as covering;
ghost use Rattle.bye_pattern.specs.Learning.{IsStrongest, IsLearned};

use crate::apart::{bound_vars, first_apart};
use crate::candidates::candidates;
use crate::claim::Claim;
use crate::learned::{Conjunction, Learned};
use crate::meeting::meets_all;
use crate::pattern::TriplePattern;
use crate::ranked::in_trial_order;
use crate::slot::Slot;
use bye_table::{Row, Table};
use bye_terms::{Memory, Triple, Var, push_item};
use std::alloc::Global;

/// The candidates of the first row that hold in all rows.
fn common_candidates(
    alloc: Global,
    graph: &[Triple],
    first: &Row,
    rows: &[Row],
) -> Result<Vec<TriplePattern>, Memory>
    ensures common { IfOk result (λ v. v.items ≡ filter (meeting.meets_all graph.now rows.now) (candidate.candidates first.now graph.now)) }
    ensures no_repeat { NoRepeat first.now }
{
    let mut out = Vec::new(alloc);
    for pattern in candidates(alloc, first.listed(), graph)? {
        if meets_all(graph, rows, &pattern) {
            push_item(&mut out, pattern)?;
        }
    }
    Ok(out)
}

fn is_named(slot: &Slot, name: &Var) -> bool
    ensures { result ≡ covering.is_named slot.now name.now }
{
    match slot {
        Slot::Var(v) => v.same(name),
        Slot::Const(_) => false,
    }
}

/// Whether the pattern contains the variable.
fn contains(pattern: &TriplePattern, name: &Var) -> bool
    ensures { result ≡ covering.contains name.now pattern.now }
{
    is_named(pattern.s(), name) || is_named(pattern.p(), name) || is_named(pattern.o(), name)
}

/// Whether some of the patterns contains the variable.
fn covers(patterns: &[TriplePattern], name: &Var) -> bool
    ensures { result ≡ covering.covers patterns.now name.now }
{
    patterns.iter().any(|p| contains(p, name))
}

/// The first variable that none of the patterns contains.
fn first_uncovered<'a>(vars: &'a [Var], patterns: &[TriplePattern]) -> Option<&'a Var>
    ensures { option_map (λ v. v.now) result ≡ find (λ v. not (covering.covers patterns.now v)) vars.now }
{
    for v in vars {
        if !covers(patterns, v) {
            return Some(v);
        }
    }
    None
}

/// The triple patterns that all rows have in common, which bind the same variables as the first of them, in the order in which
/// they are tried.
fn strongest(
    alloc: Global,
    graph: &[Triple],
    first: &Row,
    rows: &[Row],
) -> Result<Vec<TriplePattern>, Memory>
    ensures { IfOk result (λ v. (vars : List Name) → AllByRecursion IsTriple graph.now → AllByRecursion (Exactly vars) (map row_mapping rows.now)
        → In rows.now first.now → IsStrongest graph.now vars (map row_mapping rows.now) v.items) }
{
    let kept = common_candidates(alloc, graph, first, rows)?;
    in_trial_order(alloc, kept)
}

/// What is learned of these rows of a table of these variables: the first of them and those that come later.
fn learn_rows(
    alloc: Global,
    graph: &[Triple],
    vars: &[Var],
    rows: &[Row],
    first: &Row,
    later: &[Row],
) -> Result<Learned, Memory>
    ensures { IfOk result (λ learned. AllByRecursion IsTriple graph.now → rows.now ≡ first.now ∷ later.now → IsTable (record { vars = vars.now; rows = rows.now })
        → IsLearned graph.now (record { vars = vars.now; rows = rows.now }) learned) }
{
    if let Some((number, variable)) = first_apart(vars, first, later) {
        let claim = Claim::Domains(1, number, variable.copy(alloc)?);
        return Ok(Learned::Refused(claim));
    }
    let bound = bound_vars(alloc, vars, first)?;
    if bound.as_slice().is_empty() {
        return Ok(Learned::Refused(Claim::NoRoot));
    }
    let triples = strongest(alloc, graph, first, rows)?;
    match first_uncovered(bound.as_slice(), triples.as_slice()) {
        None => Ok(Learned::Query(Conjunction {
            vars: bound,
            triples,
        })),
        Some(variable) => {
            let variable = variable.copy(alloc)?;
            Ok(Learned::Refused(Claim::Uncovered(variable)))
        }
    }
}

/// The query of all triple patterns that the wanted rows have in common, over the variables that they bind; or the first claim that
/// no query of one conjunction fits. There is one row at least.
pub fn learn(alloc: Global, graph: &[Triple], wanted: &Table) -> Result<Learned, Memory>
    requires { 0 < length wanted.now.rows }
    ensures { IfOk result (λ learned. AllByRecursion IsTriple graph.now → IsLearned graph.now wanted.now learned) }
{
    let rows = wanted.rows();
    match rows.split_first() {
        Some((first, later)) => learn_rows(alloc, graph, wanted.vars(), rows, first, later),
        None => unreachable!(),
    }
}
