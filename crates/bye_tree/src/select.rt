ghost use Rattle.std.specs.Prelude.{◌≡◌, [], map};
ghost use Rattle.bye_terms.specs.Members.{EachOnce};
ghost use Rattle.bye_pattern.specs.Nodes.{tree_of};
ghost use Rattle.bye_pattern.specs.Trees.{plain_select};
ghost use Rattle.bye_pattern.specs.Selects.{IsSelect};
ghost use Rattle.bye_tree.specs.Exprs.{expr_of};
ghost use Rattle.bye_tree.specs.Selects.{select_of};

use crate::expr::Expr;
use crate::tree::Tree;
use bye_terms::Var;
use std::alloc::Global;
use std::marker::Model;

/// A SELECT of variables, with DISTINCT or without, over a well-designed tree, with the further expressions of its root's FILTERs
/// (SPARQL 1.1 Query, sections 16.1 and 18.2.4).
#[derive(Debug, Drop)]
pub struct Select {
    distinct: bool,
    vars: Vec<Var>,
    tree: Tree,
    outer: Vec<Expr>,
}

impl Model for Select {
    ghost use Rattle.std.specs.Coded.{codes};
    ghost use Rattle.bye_pattern.specs.contracts.node.Node as node;
    ghost use Rattle.bye_tree.specs.contracts.expr.Expr as expr;
    ghost use Rattle.bye_tree.specs.Selects.{Parts, select_of};
    ghost use Rattle.bye_pattern.specs.Selects.{IsSelect};

    ghost Value = { Parts };

    ghost coded = { Prim.hlevel (codes, node.the_row.coded, expr.the_row.coded) };

    ghost view = { λ s. record { distinct = s.distinct; vars = s.vars.items; tree = s.tree; outer = s.outer.items } };

    ghost invariant = { λ s. IsSelect (select_of (record { distinct = s.distinct; vars = s.vars.items; tree = s.tree; outer = s.outer.items })) };
}

impl Select {
    /// SELECT DISTINCT of these variables, without further expressions.
    pub fn plain(alloc: Global, tree: Tree, vars: Vec<Var>) -> Select
        requires some { vars.items ≡ [] → ⊥ }
        requires once { EachOnce vars.items }
        ensures { select_of result ≡ plain_select vars.items (tree_of tree) }
    {
        let outer = Vec::new(alloc);
        let _root = tree.root();
        Select {
            distinct: true,
            vars,
            tree,
            outer,
        }
    }

    /// The SELECT of these parts.
    pub(crate) fn of_parts(distinct: bool, vars: Vec<Var>, tree: Tree, outer: Vec<Expr>) -> Select
        requires { IsSelect (select_of (record { distinct = distinct; vars = vars.items; tree = tree; outer = outer.items })) }
        ensures { select_of result ≡ select_of (record { distinct = distinct; vars = vars.items; tree = tree; outer = outer.items }) }
    {
        Select {
            distinct,
            vars,
            tree,
            outer,
        }
    }

    /// Whether it is DISTINCT.
    pub fn is_distinct(&self) -> bool
        ensures value { result ≡ (select_of self.now).distinct }
        ensures kept { IsSelect (select_of self.now) }
    {
        self.distinct
    }

    /// The selected variables.
    pub fn vars(&self) -> &[Var]
        ensures { result.now ≡ (select_of self.now).vars }
    {
        self.vars.as_slice()
    }

    /// The tree.
    pub fn tree(&self) -> &Tree
        ensures { tree_of result.now ≡ (select_of self.now).tree }
    {
        &self.tree
    }

    /// The further expressions.
    pub fn outer(&self) -> &[Expr]
        ensures { map expr_of result.now ≡ (select_of self.now).outer }
    {
        self.outer.as_slice()
    }
}
