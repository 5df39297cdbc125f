ghost use Rattle.std.specs.Prelude.{◌≡◌, ◌++◌, [], ◌↔◌, IfOk, OnOk, IfErr, IsTrue, map};
ghost use Rattle.bye_pattern.specs.Nodes.{tree_of};
ghost use Rattle.bye_pattern.specs.Patterns.{all_vars};
ghost use Rattle.bye_pattern.specs.Trees.{tree_vars};
ghost use Rattle.bye_pattern.specs.Designed.{IsBroken, IsWellDesigned};
ghost use Rattle.bye_tree.specs.Checking as spec;
ghost use Rattle.bye_tree.specs.Names.{with_names};
ghost use Rattle.bye_tree.specs.Trees.{IsNarrow};

use crate::judge::{are_safe, enter, judge};
use crate::names::Names;
use crate::shape::ShapeErr;
use bye_pattern::{Node, TriplePattern};
use bye_terms::{Memory, Var};
use std::alloc::Global;
use std::marker::Model;

/// A well-designed tree of groups, each with less than 2^32 OPTIONAL groups as its children (SPARQL 1.1 Query, section 6).
#[derive(Debug, Drop)]
pub struct Tree {
    root: Node,
}

impl Model for Tree {
    ghost use Rattle.std.specs.Coded.{codes};
    ghost use Rattle.bye_pattern.specs.declared.node.Node.{Node};
    ghost use Rattle.bye_pattern.specs.contracts.node.Node as node;

    ghost Value = { Node };

    ghost coded = { Prim.hlevel (codes, node.the_row.coded) };

    ghost use Rattle.bye_pattern.specs.Nodes.{tree_of};
    ghost use Rattle.bye_pattern.specs.Designed.{IsWellDesigned};
    ghost use Rattle.bye_tree.specs.Trees.{IsNarrow};

    ghost view = { λ t. t.root };

    ghost invariant = { λ t. IsWellDesigned (tree_of t.root) × IsNarrow (tree_of t.root) };
}

impl Tree {
    /// The tree of a root that is known to be well-designed.
    pub fn new(root: Node) -> Tree
        requires designed { IsWellDesigned (tree_of root) }
        requires narrow { IsNarrow (tree_of root) }
        ensures { result ≡ root }
    {
        Tree { root }
    }

    /// The tree of a root: Broken exactly where it is not well-designed, with the first node in preorder that breaks a rule and the
    /// first rule that it breaks. A node of 2^32 children or more is refused as Memory. A refused root is dropped.
    pub fn try_new(alloc: Global, root: Node) -> Result<Tree, ShapeErr>
        ensures ok { IfOk result (λ tree. tree ≡ root) }
        ensures designed { OnOk result (IsWellDesigned (tree_of root)) }
        ensures broken { IfErr result (spec.Names (IsBroken (tree_of root))) }
    {
        if !is_narrow(&root) {
            return Err(ShapeErr::Memory);
        }
        match check_root(alloc, &root) {
            Ok(()) => Ok(Tree { root }),
            Err(error) => Err(error),
        }
    }

    /// The root.
    pub fn root(&self) -> &Node
        ensures root { result.now ≡ self.now }
        ensures designed { IsWellDesigned (tree_of self.now) }
        ensures narrow { IsNarrow (tree_of self.now) }
    {
        &self.root
    }
}

/// Whether each node has less than 2^32 children.
#[tactic(auto, using(crate::proofs::Opened::tree_out))]
pub fn is_narrow(node: &Node) -> bool
    ensures { IsTrue result ↔ IsNarrow (tree_of node.now) }
{
    let children = node.children.as_slice();
    if children.len() > u32::MAX as usize {
        return false;
    }
    for child in children {
        if !is_narrow(child) {
            return false;
        }
    }
    true
}

/// The variables of triple patterns.
fn triple_names<'a>(alloc: Global, triples: &'a [TriplePattern]) -> Result<Names<'a>, Memory>
    ensures { IfOk result (λ names. names ≡ with_names [] (all_vars triples.now)) }
{
    let mut names = Names::new(alloc);
    names.insert_triples(triples)?;
    Ok(names)
}

/// Checks a tree from its root.
fn check_root(alloc: Global, root: &Node) -> Result<(), ShapeErr>
    ensures designed { OnOk result (IsWellDesigned (tree_of root.now)) }
    ensures broken { IfErr result (spec.Names (IsBroken (tree_of root.now))) }
{
    let mut above = Vec::new(alloc);
    let mut seen = Names::new(alloc);
    let none = Names::new(alloc);
    match check_node(alloc, root, &none, &mut above, &mut seen) {
        Ok(()) => Ok(()),
        Err(error) => Err(error.turned()),
    }
}

/// Checks a node and all below it. The ancestors stand in `above` again afterwards. The path of a refusal goes from the node up.
#[tactic(auto, using(crate::proofs::Opened::tree_out))]
fn check_node<'a>(
    alloc: Global,
    node: &'a Node,
    parent: &Names<'a>,
    above: &mut Vec<&'a Var>,
    seen: &mut Names<'a>,
) -> Result<(), ShapeErr>
    ensures above { OnOk result (map (λ v. v.now) above.new.items ≡ map (λ v. v.now) above.old.items) }
    ensures seen { OnOk result (seen.new ≡ with_names seen.old (tree_vars (tree_of node.now))) }
    ensures designed { OnOk result (spec.IsDesignedHere parent.now (map (λ v. v.now) above.old.items) seen.old (tree_of node.now)) }
    ensures broken { IfErr result (spec.NamesUp (spec.BreaksHere parent.now (map (λ v. v.now) above.old.items) seen.old (tree_of node.now))) }
{
    let names = triple_names(alloc, node.triples.as_slice())?;
    let own = &names;
    let safe = are_safe(parent, own, node.conds.as_slice());
    let empty = node.triples.is_empty();
    let shown = above.as_slice();
    let height = shown.len();
    if let Err(error) = judge(alloc, empty, safe, own, parent, shown, seen) {
        return Err(error);
    }
    enter(own, above, seen)?;
    let children = node.children.as_slice();
    for (index, child) in children.iter().enumerate() {
        if let Err(error) = check_node(alloc, child, own, above, seen) {
            return Err(error.under(index));
        }
    }
    above.truncate(height);
    Ok(())
}
