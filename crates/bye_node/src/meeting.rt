ghost use Rattle.std.specs.Prelude.{◌≡◌, ◌+◌, ◌*◌, ◌≤◌, ◌↔◌, ℕ, IsTrue, MatchOption, length, option_map};
ghost use Rattle.std.specs.List.{AllByRecursion};
ghost use Rattle.bye_table.specs.Mappings.{row_mapping};
ghost use Rattle.bye_pattern.specs.Nodes.{tree_of};
ghost use Rattle.bye_pattern.specs.Patterns.{Meets, slot_under};
ghost use Rattle.bye_pattern.specs.Trees.{own_triples};
ghost use Rattle.bye_pattern.specs.declared.node.Node.{out-Node};
ghost use Rattle.bye_laws.specs.Reaching.{MeetsNode};
ghost use Rattle.bye_graph.specs.Graphs as graphs;
ghost use Rattle.bye_node.specs.Conds as spec;
ghost use Rattle.bye_node.specs.Steps.{HasNumber, LacksNumber};

use crate::conds::{is_kind, same_terms};
use bye_graph::{Graph, Steps};
use bye_pattern::{Cond, Node, Slot, TriplePattern};
use bye_table::Row;
use bye_terms::Term;
use std::sync::ledger::Ledger;

/// The term of a place under the row.
fn slot_term<'a>(row: &'a Row, slot: &'a Slot) -> Option<&'a Term>
    ensures { option_map (λ t. t.now) result ≡ slot_under (row_mapping row.now) slot.now }
{
    match slot {
        Slot::Var(var) => row.get(var),
        Slot::Const(constant) => Some(constant.term()),
    }
}

/// The number of a term, where there is a term and it has one.
fn number_of(graph: &Graph, term: Option<&Term>) -> Option<u32>
    ensures { MatchOption result (LacksNumber graph.now (option_map (λ t. t.now) term.entry)) (λ number. HasNumber graph.now (option_map (λ t. t.now) term.entry) number) }
{
    match term {
        Some(term) => graph.id_of(term),
        None => None,
    }
}

/// Whether the pattern under the row is a triple of the graph.
fn meets<L: Ledger>(graph: &Graph, row: &Row, pattern: &TriplePattern, steps: &mut Steps<L>) -> bool
    ensures meets { IsTrue result ↔ Meets (graphs.statements graph.now) (row_mapping row.now) pattern.now }
    ensures cost { (d : ℕ) → graphs.IsDepth (length graph.now.keys) d → steps.new ≤ steps.old + d }
{
    // Each term of a graph has one number.
    let _count = graph.terms();
    let Some(s) = number_of(graph, slot_term(row, pattern.s())) else {
        return false;
    };
    let Some(p) = number_of(graph, slot_term(row, pattern.p())) else {
        return false;
    };
    let Some(o) = number_of(graph, slot_term(row, pattern.o())) else {
        return false;
    };
    graph.has(s, p, o, steps)
}

/// Whether all the patterns are.
fn meets_all<L: Ledger>(
    graph: &Graph,
    row: &Row,
    patterns: &[TriplePattern],
    steps: &mut Steps<L>,
) -> bool
    ensures meets { IsTrue result ↔ AllByRecursion (Meets (graphs.statements graph.now) (row_mapping row.now)) patterns.now }
    ensures cost { (d : ℕ) → graphs.IsDepth (length graph.now.keys) d → steps.new ≤ steps.old + d * length patterns.now }
{
    for pattern in patterns {
        if !meets(graph, row, pattern, steps) {
            return false;
        }
    }
    true
}

/// Whether the condition is true of the row.
fn holds(row: &Row, cond: &Cond) -> bool
    ensures { result ≡ spec.holds (row_mapping row.now) cond.now }
{
    match cond {
        Cond::Bound(var) => row.get(var).is_some(),
        Cond::SameVar(var, other) => same_terms(row.get(var), row.get(other)),
        Cond::SameConst(var, constant) => same_terms(row.get(var), Some(constant.term())),
        Cond::KindOf(kind, var) => is_kind(kind, row.get(var)),
    }
}

/// Whether all the conditions are.
fn all_hold(row: &Row, conds: &[Cond]) -> bool
    ensures { result ≡ spec.all_hold (row_mapping row.now) conds.now }
{
    conds.iter().all(|cond| holds(row, cond))
}

/// Whether the row meets each triple pattern and each condition of the node. Its children are not looked at.
pub fn node_holds<L: Ledger>(graph: &Graph, node: &Node, row: &Row, steps: &mut Steps<L>) -> bool
    ensures meets { IsTrue result ↔ MeetsNode (graphs.statements graph.now) (row_mapping row.now) (tree_of node.now) }
    ensures cost { (d : ℕ) → graphs.IsDepth (length graph.now.keys) d → steps.new ≤ steps.old + d * length (own_triples (tree_of node.now)) }
{
    let patterns = node.triples.as_slice();
    let conds = node.conds.as_slice();
    meets_all(graph, row, patterns, steps) && all_hold(row, conds)
}
