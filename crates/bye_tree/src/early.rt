//! The rules of well-designed trees for groups as they are written: each OPTIONAL sees, of its parent, the triples before it.

ghost use Rattle.std.specs.Prelude.{◌≡◌, ◌||◌, [], IfOk, OnOk, IfErr, map};
ghost use Rattle.bye_pattern.specs.Patterns.{all_vars};
ghost use Rattle.bye_pattern.specs.Trees.{tree_vars};
ghost use Rattle.bye_pattern.specs.Written.{triples};
ghost use Rattle.bye_pattern.specs.Gathered.{firsts, optional_tree};
ghost use Rattle.bye_tree.specs.Checking as refusal;
ghost use Rattle.bye_tree.specs.Exprs.{expr_of};
ghost use Rattle.bye_tree.specs.Names.{with_names};
ghost use Rattle.bye_tree.specs.Written as spec;

use crate::expr::Expr;
use crate::judge::{enter, is_near, judge};
use crate::names::Names;
use crate::shape::ShapeErr;
use crate::written::Element;
use bye_pattern::Slot;
use bye_terms::{Memory, Var};
use std::alloc::Global;

/// Puts the variables of the triples in, where the element is a block.
fn insert_block<'a>(names: &mut Names<'a>, element: &'a Element) -> Result<(), Memory>
    ensures { OnOk result (names.new ≡ with_names names.old (all_vars (spec.block_triples (spec.element_of element.now)))) }
{
    match element {
        Element::Block(patterns) => names.insert_triples(patterns.as_slice()),
        Element::Optional(_) => Ok(()),
        Element::Filter(_) => Ok(()),
    }
}

/// The variables of the triples of all blocks.
fn block_names<'a>(alloc: Global, elements: &'a [Element]) -> Result<Names<'a>, Memory>
    ensures { IfOk result (λ names. names ≡ with_names [] (all_vars (triples (spec.elements_of elements.now)))) }
{
    let mut names = Names::new(alloc);
    for element in elements {
        insert_block(&mut names, element)?;
    }
    Ok(names)
}

/// Whether no block has a triple pattern.
fn has_no_triples(elements: &[Element]) -> bool
    ensures { result ≡ spec.no_triples (spec.elements_of elements.now) }
{
    for element in elements {
        if let Element::Block(patterns) = element {
            if !patterns.is_empty() {
                return false;
            }
        }
    }
    true
}

fn is_slot_near<'a>(parent: &Names<'a>, own: &Names<'a>, slot: &'a Slot) -> bool
    ensures { result ≡ spec.slot_near parent.now own.now slot.now }
{
    match slot {
        Slot::Var(var) => is_near(parent, own, var),
        Slot::Const(_) => true,
    }
}

/// Whether the plain conjuncts of a FILTER's expression are safe.
#[tactic(auto, using(crate::proofs::Truths::safe_joined))]
fn is_test_safe<'a>(parent: &Names<'a>, own: &Names<'a>, test: &'a Expr) -> bool
    ensures { result ≡ spec.test_safe parent.now own.now (expr_of test.now) }
{
    match test {
        Expr::Bound(var) => is_near(parent, own, var),
        Expr::Same(slot, other) => {
            is_slot_near(parent, own, slot) && is_slot_near(parent, own, other)
        }
        Expr::KindOf(_, slot) => is_slot_near(parent, own, slot),
        Expr::And(first, later) => {
            if !is_test_safe(parent, own, first) {
                return false;
            }
            for test in later.as_slice() {
                if !is_test_safe(parent, own, test) {
                    return false;
                }
            }
            true
        }
        Expr::Or(first, later) => {
            let later = later.as_slice();
            if later.is_empty() {
                return is_test_safe(parent, own, first);
            }
            true
        }
        Expr::Not(_) => true,
    }
}

/// Whether the plain conjuncts of all FILTERs are safe.
fn are_tests_safe<'a>(parent: &Names<'a>, own: &Names<'a>, elements: &'a [Element]) -> bool
    ensures { result ≡ spec.tests_safe parent.now own.now (spec.elements_of elements.now) }
{
    for element in elements {
        if let Element::Filter(test) = element {
            if !is_test_safe(parent, own, test) {
                return false;
            }
        }
    }
    true
}

/// Whether the conditions of the group's node are safe. Those of the root are: they are over its own variables alone.
fn may_be_safe<'a>(root: bool, parent: &Names<'a>, own: &Names<'a>, elements: &'a [Element]) -> bool
    ensures { result ≡ (root || spec.tests_safe parent.now own.now (spec.elements_of elements.now)) }
{
    root || are_tests_safe(parent, own, elements)
}

/// Checks a group and all below it, the outermost one as the root. The ancestors stand in `above` again afterwards. The path of a
/// refusal goes from the group up.
pub fn check_group<'a>(
    alloc: Global,
    elements: &'a [Element],
    root: bool,
    parent: &Names<'a>,
    above: &mut Vec<&'a Var>,
    seen: &mut Names<'a>,
) -> Result<(), ShapeErr>
    ensures above { OnOk result (map (λ v. v.now) above.new.items ≡ map (λ v. v.now) above.old.items) }
    ensures seen { OnOk result (seen.new ≡ with_names seen.old (tree_vars (optional_tree (spec.elements_of elements.now)))) }
    ensures designed { OnOk result (spec.IsGroupDesigned root parent.now (map (λ v. v.now) above.old.items) seen.old (spec.elements_of elements.now)) }
    ensures broken { IfErr result (refusal.NamesUp (spec.GroupBreaks root parent.now (map (λ v. v.now) above.old.items) seen.old (spec.elements_of elements.now))) }
{
    let names = block_names(alloc, elements)?;
    let own = &names;
    let safe = may_be_safe(root, parent, own, elements);
    let empty = has_no_triples(elements);
    let shown = above.as_slice();
    let height = shown.len();
    if let Err(error) = judge(alloc, empty, safe, own, parent, shown, seen) {
        return Err(error);
    }
    enter(own, above, seen)?;
    let mut early = Names::new(alloc);
    let mut number = 0usize;
    for element in elements {
        match element {
            Element::Block(patterns) => {
                early.insert_triples(patterns.as_slice())?;
                continue;
            }
            Element::Filter(_) => continue,
            Element::Optional(group) => {
                let group = group.as_slice();
                if let Err(error) = check_group(alloc, group, false, &early, above, seen) {
                    return Err(error.under(number));
                }
                number += 1;
                continue;
            }
        }
    }
    above.truncate(height);
    Ok(())
}

/// Checks a written query: the variables of all its triples, in order of first occurrence, node by node in preorder.
pub fn check_written<'a>(alloc: Global, elements: &'a [Element]) -> Result<Names<'a>, ShapeErr>
    ensures names { IfOk result (λ names. names ≡ firsts (tree_vars (optional_tree (spec.elements_of elements.now)))) }
    ensures designed { OnOk result (spec.IsEarly (spec.elements_of elements.now)) }
    ensures broken { IfErr result (refusal.Names (spec.BreaksAsWritten (spec.elements_of elements.now))) }
{
    let mut above = Vec::new(alloc);
    let mut seen = Names::new(alloc);
    let none = Names::new(alloc);
    match check_group(alloc, elements, true, &none, &mut above, &mut seen) {
        Ok(()) => Ok(seen),
        Err(error) => Err(error.turned()),
    }
}
