ghost use Rattle.std.specs.Prelude.{◌≡◌, ◌↔◌, IsTrue, [], length, map};
ghost use Rattle.bye_terms.specs.Members.{EachOnce};
ghost use Rattle.bye_pattern.specs.Conditions.{AllHoldExpr};
ghost use Rattle.bye_tree.specs.Exprs.{expr_of};
ghost use Rattle.bye_graph.specs.Graphs.{IsNumbered};
ghost use Rattle.bye_node.specs.Conds as tests;
ghost use Rattle.bye_node.specs.Steps.{decode};
ghost use Rattle.bye_member.specs.Searches as spec;

use crate::outer::outer_hold;
use bye_graph::Graph;
use bye_node::{Env, Pin, View, all_hold};
use bye_pattern::Cond;
use bye_tree::{Expr, Names};
use std::marker::Model;

/// What is asked of a graph: the variables by their numbers, the further expressions of the root's FILTERs, what is wanted of each
/// variable, and the selected variables.
#[derive(Drop)]
pub struct Task<'a, 'n> {
    graph: &'a Graph,
    names: &'a Names<'n>,
    outer: &'n [Expr],
    pins: &'a [Pin],
    selected: &'a [usize],
}

impl<'a, 'n> Model for Task<'a, 'n> {
    ghost use Rattle.std.specs.Coded.{codes};
    ghost use Rattle.bye_terms.specs.Members.{EachOnce};
    ghost use Rattle.bye_graph.specs.Graphs.{IsNumbered};
    ghost use Rattle.bye_tree.specs.contracts.expr.Expr as expr;
    ghost use Rattle.bye_member.specs.Searches as spec;

    ghost Value = { spec.Task };

    ghost coded = { Prim.hlevel (codes, expr.the_row.coded) };

    ghost view = { λ t. record { graph = t.graph.now; vars = t.names.now; outer = t.outer.now; pins = t.pins.now; selected = t.selected.now } };

    ghost invariant = { λ t. EachOnce t.names.now × IsNumbered t.graph.now };
}

impl<'a, 'n> Task<'a, 'n> {
    /// The task of these parts.
    pub fn new(
        graph: &'a Graph,
        names: &'a Names<'n>,
        outer: &'n [Expr],
        pins: &'a [Pin],
        selected: &'a [usize],
    ) -> Task<'a, 'n>
        requires { EachOnce names.now }
        ensures { result ≡ record { graph = graph.now; vars = names.now; outer = outer.now; pins = pins.now; selected = selected.now } }
    {
        let _terms = graph.terms();
        Task {
            graph,
            names,
            outer,
            pins,
            selected,
        }
    }

    /// The graph.
    pub fn graph(&self) -> &'a Graph
        ensures graph { result.now ≡ self.now.graph }
        ensures numbered { IsNumbered self.now.graph }
    {
        self.graph
    }

    /// How many variables there are.
    pub fn count(&self) -> usize
        ensures { result ≡ length self.now.vars }
    {
        self.names.as_slice().len()
    }

    /// What is wanted of each variable.
    pub fn pins(&self) -> &'a [Pin]
        ensures { result.now ≡ self.now.pins }
    {
        self.pins
    }

    /// The selected variables.
    pub fn selected(&self) -> &'a [usize]
        ensures { result.now ≡ self.now.selected }
    {
        self.selected
    }

    /// The graph with its variables, and no row beside them.
    pub fn view(&self) -> View<'a, 'n>
        ensures graph { result.graph.now ≡ self.now.graph }
        ensures names { result.names.now ≡ self.now.vars }
        ensures row { result.row.now ≡ [] }
        ensures once { EachOnce self.now.vars }
    {
        View {
            graph: self.graph,
            names: self.names,
            row: &[],
        }
    }

    /// Whether the conditions hold on the mapping.
    pub fn all_hold(&self, env: &Env, conds: &'n [Cond]) -> bool
        ensures { result ≡ tests.all_hold (decode self.now.vars self.now.graph.terms env.now) conds.now }
    {
        all_hold(self.view(), env, conds)
    }

    /// Whether the further expressions hold on the mapping.
    pub fn outer_hold(&self, env: &Env) -> bool
        ensures { IsTrue result ↔ AllHoldExpr (map expr_of self.now.outer) (decode self.now.vars self.now.graph.terms env.now) }
    {
        outer_hold(self.view(), env, self.outer)
    }
}
