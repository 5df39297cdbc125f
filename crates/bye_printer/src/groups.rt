//! The lines of groups, with their FILTERs and OPTIONAL groups (SPARQL 1.1 Query, sections 5.2 and 6).

ghost use Rattle.std.specs.Prelude.{◌≡◌, ◌++◌, OnOk, map};
ghost use Rattle.std.specs.List.{AllByRecursion, flat_map};
ghost use Rattle.bye_pattern.specs.Conditions.{cond_expr};
ghost use Rattle.bye_pattern.specs.Nodes.{tree_of};
ghost use Rattle.bye_pattern.specs.Printed.{filter_line, tree_lines};
ghost use Rattle.bye_tree.specs.Exprs.{expr_of};
ghost use Rattle.bye_grammar.specs.Valid.{IsExpr};
ghost use Rattle.bye_grammar.specs.ValidSelects.{IsValidTree};

use crate::exprs::{is_written_as_call, push_cond, push_inner};
use crate::patterns::push_triples;
use bye_pattern::{Cond, Node};
use bye_terms::{Memory, Text};
use bye_tree::Expr;
use std::alloc::Global;

/// Puts the FILTERs of conditions at the end.
fn push_conds(alloc: Global, out: &mut Text, margin: &Text, conds: &[Cond]) -> Result<(), Memory>
    ensures text { OnOk result (out.new ≡ out.old ++ flat_map (λ c. filter_line margin.now (cond_expr c)) conds.now) }
    ensures valid { OnOk result (AllByRecursion (λ c. IsExpr (cond_expr c)) conds.now) }
{
    for cond in conds {
        out.push_text(margin)?;
        out.push_ascii("FILTER (")?;
        push_cond(alloc, out, cond)?;
        out.push_ascii(")\n")?;
    }
    Ok(())
}

/// Puts the FILTER of an expression at the end. One that is no call has the FILTER's brackets.
#[tactic(auto, using(crate::proofs::Chains::call_line, crate::proofs::Chains::other_line))]
fn push_test(alloc: Global, out: &mut Text, margin: &Text, test: &Expr) -> Result<(), Memory>
    ensures text { OnOk result (out.new ≡ out.old ++ filter_line margin.now (expr_of test.now)) }
    ensures valid { OnOk result (IsExpr (expr_of test.now)) }
{
    out.push_text(margin)?;
    if is_written_as_call(test) {
        out.push_ascii("FILTER (")?;
        push_inner(alloc, out, test)?;
        return out.push_ascii(")\n");
    }
    out.push_ascii("FILTER ")?;
    push_inner(alloc, out, test)?;
    out.push_ascii("\n")
}

/// Puts the FILTERs of expressions at the end.
fn push_tests(alloc: Global, out: &mut Text, margin: &Text, tests: &[Expr]) -> Result<(), Memory>
    ensures text { OnOk result (out.new ≡ out.old ++ flat_map (filter_line margin.now) (map expr_of tests.now)) }
    ensures valid { OnOk result (AllByRecursion IsExpr (map expr_of tests.now)) }
{
    for test in tests {
        push_test(alloc, out, margin, test)?;
    }
    Ok(())
}

/// Puts the lines within a group at the end, each after the margin. A child stands two spaces further in.
pub fn push_group(
    alloc: Global,
    out: &mut Text,
    margin: &Text,
    outer: &[Expr],
    node: &Node,
) -> Result<(), Memory>
    ensures text { OnOk result (out.new ≡ out.old ++ tree_lines margin.now (map expr_of outer.now) (tree_of node.now)) }
    ensures outer { OnOk result (AllByRecursion IsExpr (map expr_of outer.now)) }
    ensures valid { OnOk result (IsValidTree (tree_of node.now)) }
{
    push_triples(alloc, out, margin, node.triples.as_slice())?;
    push_conds(alloc, out, margin, node.conds.as_slice())?;
    push_tests(alloc, out, margin, outer)?;
    let mut deeper = margin.copy(alloc)?;
    deeper.push_ascii("  ")?;
    for child in node.children.as_slice() {
        out.push_text(margin)?;
        out.push_ascii("OPTIONAL {\n")?;
        push_group(alloc, out, &deeper, &[], child)?;
        out.push_text(margin)?;
        out.push_ascii("}\n")?;
    }
    Ok(())
}
