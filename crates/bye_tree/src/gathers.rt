//! How a written query is read as a select (SPARQL 1.1 Query, section 18.2.2): each group becomes a node.

ghost use Rattle.std.specs.Prelude.{◌≡◌, ◌∷◌, ◌++◌, ◌&&◌, ◌||◌, [], not, OnOk, IfOk, IfErr, map};
ghost use Rattle.std.specs.List.{flat_map};
ghost use Rattle.std.specs.Option.{option_map};
ghost use Rattle.bye_table.specs.Mappings.{is_in};
ghost use Rattle.bye_pattern.specs.declared.slot.Slot.TheVariants as slots;
ghost use Rattle.bye_pattern.specs.Conditions as expr;
ghost use Rattle.bye_pattern.specs.Nodes.{forest_of, tree_of};
ghost use Rattle.bye_pattern.specs.Trees.{node};
ghost use Rattle.bye_pattern.specs.Written.{Group};
ghost use Rattle.bye_pattern.specs.Selects.{SelectsAll};
ghost use Rattle.bye_pattern.specs.Gathered as spec;
ghost use Rattle.bye_pattern.specs.Gathered.{HasPlainOptionals, IsDesignedEarly, conjuncts, optional_tree};
ghost use Rattle.bye_tree.specs.Exprs.{expr_of};
ghost use Rattle.bye_tree.specs.Gathering.{AreNamed, IsCause, IsRoot, IsSelected, written};
ghost use Rattle.bye_tree.specs.Judging.{has_new};
ghost use Rattle.bye_tree.specs.Names.{with_names};
ghost use Rattle.bye_tree.specs.Parted.{IsParts};
ghost use Rattle.bye_tree.specs.Selects.{select_of};
ghost use Rattle.bye_tree.specs.Taken.{IsTaken};
ghost use Rattle.bye_tree.specs.Written.{elements_of, written_of};

use crate::early::check_written;
use crate::expr::Expr;
use crate::gather_err::GatherErr;
use crate::judge;
use crate::names::Names;
use crate::select::Select;
use crate::tree::{Tree, is_narrow};
use crate::written::{Element, WrittenQuery};
use bye_pattern::{Cond, Constant, Kind, Node, Slot, TriplePattern};
use bye_terms::{Memory, Var, push_item};
use sqlite_items::Items;
use std::alloc::Global;

/// Whether the conjunct of a variable is a condition: of an OPTIONAL group each is, of the root those over its own variables.
fn is_own(root: bool, own: &Names<'_>, var: &Var) -> bool
    ensures { result ≡ (not root || is_in own.now var.now) }
{
    !root || own.contains(var)
}

/// The expression as a conjunct that is no condition.
fn leave(outer: &mut Vec<Expr>, test: Expr) -> Result<(), Memory>
    ensures { OnOk result (map expr_of outer.new.items ≡ map expr_of outer.old.items ++ expr_of test ∷ []) }
{
    push_item(outer, test)
}

/// Puts the conjuncts of an expression at the end of the conditions, or of the further expressions.
fn push_test(
    root: bool,
    own: &Names<'_>,
    conds: &mut Vec<Cond>,
    outer: &mut Vec<Expr>,
    test: Expr,
) -> Result<(), Memory>
    ensures { OnOk result (IsTaken root own.now (conjuncts (expr_of test)) conds.old.items conds.new.items (map expr_of outer.old.items) (map expr_of outer.new.items)) }
{
    match test {
        Expr::And(first, later) => {
            push_test(root, own, conds, outer, Box::into_inner(first))?;
            for test in later {
                push_test(root, own, conds, outer, test)?;
            }
            Ok(())
        }
        Expr::Or(first, later) => {
            if later.as_slice().is_empty() {
                return push_test(root, own, conds, outer, Box::into_inner(first));
            }
            leave(outer, Expr::Or(first, later))
        }
        Expr::Not(test) => leave(outer, Expr::Not(test)),
        Expr::Bound(var) => {
            if is_own(root, own, &var) {
                return push_item(conds, Cond::Bound(var));
            }
            leave(outer, Expr::Bound(var))
        }
        Expr::KindOf(kind, slot) => push_kind(root, own, conds, outer, kind, slot),
        Expr::Same(slot, other) => push_same(root, own, conds, outer, slot, other),
    }
}

fn push_kind(
    root: bool,
    own: &Names<'_>,
    conds: &mut Vec<Cond>,
    outer: &mut Vec<Expr>,
    kind: Kind,
    slot: Slot,
) -> Result<(), Memory>
    ensures { OnOk result (IsTaken root own.now (expr.KindOf kind slot ∷ []) conds.old.items conds.new.items (map expr_of outer.old.items) (map expr_of outer.new.items)) }
{
    match slot {
        Slot::Const(c) => leave(outer, Expr::KindOf(kind, Slot::Const(c))),
        Slot::Var(var) => {
            if is_own(root, own, &var) {
                return push_item(conds, Cond::KindOf(kind, var));
            }
            leave(outer, Expr::KindOf(kind, Slot::Var(var)))
        }
    }
}

fn push_same(
    root: bool,
    own: &Names<'_>,
    conds: &mut Vec<Cond>,
    outer: &mut Vec<Expr>,
    slot: Slot,
    other: Slot,
) -> Result<(), Memory>
    ensures { OnOk result (IsTaken root own.now (expr.Same slot other ∷ []) conds.old.items conds.new.items (map expr_of outer.old.items) (map expr_of outer.new.items)) }
{
    match (slot, other) {
        (Slot::Var(var), Slot::Var(other)) => push_pair(root, own, conds, outer, var, other),
        (Slot::Var(var), Slot::Const(c)) => push_const(root, own, conds, outer, var, c),
        (Slot::Const(c), Slot::Var(var)) => push_turned(root, own, conds, outer, c, var),
        (Slot::Const(c), Slot::Const(d)) => {
            leave(outer, Expr::Same(Slot::Const(c), Slot::Const(d)))
        }
    }
}

/// Whether the conjunct of two variables is a condition.
fn are_own(root: bool, own: &Names<'_>, var: &Var, other: &Var) -> bool
    ensures { result ≡ (not root || (is_in own.now var.now && is_in own.now other.now)) }
{
    !root || (own.contains(var) && own.contains(other))
}

fn push_pair(
    root: bool,
    own: &Names<'_>,
    conds: &mut Vec<Cond>,
    outer: &mut Vec<Expr>,
    var: Var,
    other: Var,
) -> Result<(), Memory>
    ensures { OnOk result (IsTaken root own.now (expr.Same (slots.Var var) (slots.Var other) ∷ []) conds.old.items conds.new.items (map expr_of outer.old.items) (map expr_of outer.new.items)) }
{
    if are_own(root, own, &var, &other) {
        return push_item(conds, Cond::SameVar(var, other));
    }
    leave(outer, Expr::Same(Slot::Var(var), Slot::Var(other)))
}

fn push_const(
    root: bool,
    own: &Names<'_>,
    conds: &mut Vec<Cond>,
    outer: &mut Vec<Expr>,
    var: Var,
    constant: Constant,
) -> Result<(), Memory>
    ensures { OnOk result (IsTaken root own.now (expr.Same (slots.Var var) (slots.Const constant) ∷ []) conds.old.items conds.new.items (map expr_of outer.old.items) (map expr_of outer.new.items)) }
{
    if is_own(root, own, &var) {
        return push_item(conds, Cond::SameConst(var, constant));
    }
    leave(outer, Expr::Same(Slot::Var(var), Slot::Const(constant)))
}

fn push_turned(
    root: bool,
    own: &Names<'_>,
    conds: &mut Vec<Cond>,
    outer: &mut Vec<Expr>,
    constant: Constant,
    var: Var,
) -> Result<(), Memory>
    ensures { OnOk result (IsTaken root own.now (expr.Same (slots.Const constant) (slots.Var var) ∷ []) conds.old.items conds.new.items (map expr_of outer.old.items) (map expr_of outer.new.items)) }
{
    if is_own(root, own, &var) {
        return push_item(conds, Cond::SameConst(var, constant));
    }
    leave(outer, Expr::Same(Slot::Const(constant), Slot::Var(var)))
}

/// The parts of a group: the triples of its blocks, the expressions of its FILTERs, and the nodes of its OPTIONALs.
#[derive(Drop)]
struct Parts {
    triples: Vec<TriplePattern>,
    tests: Vec<Expr>,
    children: Vec<Node>,
}

/// What the FILTERs of a group are: conditions, and further expressions.
#[derive(Drop)]
struct Tests {
    conds: Vec<Cond>,
    outer: Vec<Expr>,
}

/// Splits the conjuncts of FILTERs.
fn split_tests(
    alloc: Global,
    root: bool,
    own: &Names<'_>,
    tests: Vec<Expr>,
) -> Result<Tests, Memory>
    ensures { IfOk result (λ t. IsTaken root own.now (flat_map conjuncts (map expr_of tests.items)) [] t.conds.items [] (map expr_of t.outer.items)) }
{
    let mut conds = Vec::new(alloc);
    let mut outer = Vec::new(alloc);
    for test in tests {
        push_test(root, own, &mut conds, &mut outer, test)?;
    }
    Ok(Tests { conds, outer })
}

/// The node of an OPTIONAL group. Its conjuncts are plain conditions, so that no further expressions are left.
fn optional_node(alloc: Global, parts: Parts) -> Result<Node, Memory>
    ensures { IfOk result (λ n. (g : Group) → IsParts g parts.triples.items (map expr_of parts.tests.items) (map tree_of parts.children.items) → tree_of n ≡ optional_tree g) }
{
    let Parts {
        triples,
        tests,
        children,
    } = parts;
    let none = Names::new(alloc);
    let tests = split_tests(alloc, false, &none, tests)?;
    Ok(node_of(triples, tests.conds, children))
}

fn node_of(triples: Vec<TriplePattern>, conds: Vec<Cond>, children: Vec<Node>) -> Node
    ensures { tree_of result ≡ node triples.items conds.items (forest_of (map tree_of children.items)) }
{
    Node {
        triples: Items::from_vec(triples),
        conds: Items::from_vec(conds),
        children: Items::from_vec(children),
    }
}

/// Takes a group apart.
fn parts_of(alloc: Global, elements: Vec<Element>) -> Result<Parts, Memory>
    ensures { IfOk result (λ p. IsParts (elements_of elements.items) p.triples.items (map expr_of p.tests.items) (map tree_of p.children.items)) }
{
    let mut triples = Vec::new(alloc);
    let mut tests = Vec::new(alloc);
    let mut children = Vec::new(alloc);
    for element in elements {
        match element {
            Element::Block(mut patterns) => {
                triples.append(&mut patterns)?;
                continue;
            }
            Element::Filter(test) => {
                push_item(&mut tests, test)?;
                continue;
            }
            Element::Optional(group) => {
                let parts = parts_of(alloc, group)?;
                let child = optional_node(alloc, parts)?;
                push_item(&mut children, child)?;
                continue;
            }
        }
    }
    Ok(Parts {
        triples,
        tests,
        children,
    })
}

/// The node of the outermost group, and its further expressions.
fn root_node(alloc: Global, parts: Parts) -> Result<(Node, Vec<Expr>), Memory>
    ensures { IfOk result (λ r. (g : Group) → IsParts g parts.triples.items (map expr_of parts.tests.items) (map tree_of parts.children.items) → IsRoot g (tree_of r.0) (map expr_of r.1.items)) }
{
    let Parts {
        triples,
        tests,
        children,
    } = parts;
    let mut own = Names::new(alloc);
    own.insert_triples(triples.as_slice())?;
    let tests = split_tests(alloc, true, &own, tests)?;
    drop(own);
    Ok((node_of(triples, tests.conds, children), tests.outer))
}

/// Whether some of the names is not selected.
fn lacks_some(alloc: Global, vars: &[Var], names: &Names<'_>) -> Result<bool, Memory>
    ensures { IfOk result (λ lacks. lacks ≡ has_new (with_names [] vars.now) names.now) }
{
    let mut chosen = Names::new(alloc);
    for var in vars {
        chosen.insert(var)?;
    }
    Ok(judge::has_new(&chosen, names))
}

/// The selected variables of a written query that keeps the rules: those that are named, or all.
fn selected(
    alloc: Global,
    distinct: bool,
    vars: Option<Vec<Var>>,
    elements: &[Element],
) -> Result<Vec<Var>, GatherErr>
    ensures ok { IfOk result (λ chosen. IsSelected (written distinct (option_map (λ vs. vs.items) vars) (elements_of elements.now)) chosen.items) }
    ensures cause { IfErr result (IsCause (written distinct (option_map (λ vs. vs.items) vars) (elements_of elements.now))) }
{
    let names = match check_written(alloc, elements) {
        Ok(names) => names,
        Err(error) => return Err(GatherErr::of_shape(error)),
    };
    let Some(vars) = vars else {
        return Ok(names.to_vars(alloc)?);
    };
    if distinct {
        return Ok(vars);
    }
    if lacks_some(alloc, vars.as_slice(), &names)? {
        return Err(GatherErr::Projected);
    }
    Ok(vars)
}

/// The select that a written query is read as (SPARQL 1.1 Query, sections 16.1 and 18.2.2). Broken and Projected have their causes
/// exactly so. A group of 2^32 OPTIONALs or more is refused as Memory.
pub fn gather(alloc: Global, query: WrittenQuery) -> Result<Select, GatherErr>
    requires plain { HasPlainOptionals (written_of query).group }
    requires named { AreNamed (written_of query).vars }
    ensures ok { IfOk result (λ s. select_of s ≡ spec.gather (written_of query)) }
    ensures designed { OnOk result (IsDesignedEarly (written_of query)) }
    ensures whole { OnOk result (SelectsAll (spec.gather (written_of query))) }
    ensures cause { IfErr result (IsCause (written_of query)) }
{
    let WrittenQuery {
        distinct,
        vars,
        elements,
    } = query;
    let vars = match selected(alloc, distinct, vars, elements.as_slice()) {
        Ok(vars) => vars,
        Err(error) => return Err(error),
    };
    let parts = parts_of(alloc, elements)?;
    let (root, outer) = root_node(alloc, parts)?;
    if !is_narrow(&root) {
        return Err(GatherErr::Memory);
    }
    Ok(Select::of_parts(distinct, vars, Tree::new(root), outer))
}
