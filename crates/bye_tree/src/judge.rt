//! The four rules of well-designed trees at one group.

ghost use Rattle.std.specs.Prelude.{◌≡◌, ◌||◌, ◌++◌, [], None, OnOk, IfErr, map};
ghost use Rattle.std.specs.List.{list_all};
ghost use Rattle.bye_table.specs.Mappings.{is_in};
ghost use Rattle.bye_tree.specs.Judging as spec;
ghost use Rattle.bye_tree.specs.Names.{with_names};

use crate::names::Names;
use crate::shape::{Shape, ShapeErr};
use bye_pattern::{Cond, Rule};
use bye_terms::{Memory, Var};
use std::alloc::Global;

/// Whether the variable is the group's own or its parent's.
pub fn is_near<'a>(parent: &Names<'a>, own: &Names<'a>, var: &'a Var) -> bool
    ensures { result ≡ (is_in own.now var.now || is_in parent.now var.now) }
{
    own.contains(var) || parent.contains(var)
}

/// Whether each variable of the condition is the group's own or its parent's.
fn is_safe<'a>(parent: &Names<'a>, own: &Names<'a>, cond: &'a Cond) -> bool
    ensures { result ≡ spec.is_safe parent.now own.now cond.now }
{
    match cond {
        Cond::Bound(var) => is_near(parent, own, var),
        Cond::SameVar(var, other) => is_near(parent, own, var) && is_near(parent, own, other),
        Cond::SameConst(var, _) => is_near(parent, own, var),
        Cond::KindOf(_, var) => is_near(parent, own, var),
    }
}

/// Whether all the conditions are safe.
pub fn are_safe<'a>(parent: &Names<'a>, own: &Names<'a>, conds: &'a [Cond]) -> bool
    ensures { result ≡ list_all (spec.is_safe parent.now own.now) conds.now }
{
    conds.iter().all(|cond| is_safe(parent, own, cond))
}

/// Whether some of the own names is not among the others.
pub fn has_new<'a>(others: &Names<'a>, own: &Names<'a>) -> bool
    ensures { result ≡ spec.has_new others.now own.now }
{
    own.as_slice()
        .iter()
        .any(|name| !others.contains(name.var()))
}

fn shares<'a>(parent: &Names<'a>, seen: &Names<'a>, own: &Names<'a>) -> bool
    ensures { result ≡ spec.shares parent.now seen.now own.now }
{
    own.as_slice().iter().all(|name| !seen.contains(name.var()) || parent.contains(name.var()))
}

fn may_stay<'a>(parent: &Names<'a>, above: &Names<'a>, seen: &Names<'a>, var: &'a Var) -> bool
    ensures { result ≡ spec.may_stay parent.now above.now seen.now var.now }
{
    if above.contains(var) {
        parent.contains(var)
    } else {
        !seen.contains(var)
    }
}

fn stays<'a>(parent: &Names<'a>, above: &Names<'a>, seen: &Names<'a>, own: &Names<'a>) -> bool
    ensures { result ≡ spec.stays parent.now above.now seen.now own.now }
{
    own.as_slice()
        .iter()
        .all(|name| may_stay(parent, above, seen, name.var()))
}

/// The four rules one by one.
fn first_broken<'a>(
    empty: bool,
    safe: bool,
    own: &Names<'a>,
    parent: &Names<'a>,
    above: &Names<'a>,
    seen: &Names<'a>,
) -> Option<Rule>
    ensures { result ≡ spec.first_broken empty safe own.now parent.now above.now seen.now }
{
    if empty {
        Some(Rule::NoTriples)
    } else if !has_new(above, own) {
        Some(Rule::NoNewVariable)
    } else if !stays(parent, above, seen, own) {
        Some(Rule::NotWellDesigned)
    } else if !safe {
        Some(Rule::UnsafeCondition)
    } else {
        None
    }
}

/// Judges a group: whether it is without triples, whether its conditions are safe, and its own variables, beside those of its
/// parent, of all its ancestors, and of all earlier groups, ancestors included. The path of a refusal is empty.
pub fn judge<'a>(
    alloc: Global,
    empty: bool,
    safe: bool,
    own: &Names<'a>,
    parent: &Names<'a>,
    above: &[&'a Var],
    seen: &Names<'a>,
) -> Result<(), ShapeErr>
    ensures ok { OnOk result (spec.judged empty safe own.now parent.now (with_names [] (map (λ v. v.now) above.now)) seen.now ≡ None) }
    ensures err { IfErr result (spec.IsRefused (spec.judged empty safe own.now parent.now (with_names [] (map (λ v. v.now) above.now)) seen.now)) }
{
    if safe && has_new(seen, own) && shares(parent, seen, own) {
        return Ok(());
    }
    let above = Names::of_vars(alloc, above)?;
    match first_broken(empty, safe, own, parent, &above, seen) {
        None => Ok(()),
        Some(rule) => {
            let path = Vec::new(alloc);
            Err(ShapeErr::Broken(Shape { rule, path }))
        }
    }
}

/// Goes down into a group: its own variables are an ancestor's and an earlier group's from now on.
pub fn enter<'a>(
    own: &Names<'a>,
    above: &mut Vec<&'a Var>,
    seen: &mut Names<'a>,
) -> Result<(), Memory>
    ensures above { OnOk result (map (λ v. v.now) above.new.items ≡ map (λ v. v.now) above.old.items ++ own.now) }
    ensures seen { OnOk result (seen.new ≡ with_names seen.old own.now) }
{
    for name in own.as_slice() {
        above.push(name.var())?;
        seen.insert(name.var())?;
    }
    Ok(())
}
