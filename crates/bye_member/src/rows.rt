ghost use Rattle.std.specs.Prelude.{◌≡◌, ◌+◌, ◌<◌, ◌≤◌, ◌∷◌, Err, IfOk, OnOk, length};
ghost use Rattle.bye_table.specs.Mappings.{nothing};
ghost use Rattle.bye_pattern.specs.Nodes.{tree_of};
ghost use Rattle.bye_pattern.specs.Trees.{Tree, leaf, more, tree_vars};
ghost use Rattle.bye_laws.specs.Reaching.{children};
ghost use Rattle.bye_node.specs.Steps.{AreListed, IsStepBy};
ghost use Rattle.bye_member.specs.Plans as plans;
ghost use Rattle.bye_member.specs.Searches as spec;
ghost use Rattle.bye_member.specs.declared.lines.Stop.TheVariants as stops;

use crate::lines::{Lines, Stop};
use crate::plan::{Entry, plan};
use crate::search::fill;
use crate::task::Task;
use bye_graph::Steps;
use bye_node::{Env, Shape};
use bye_pattern::Node;
use bye_terms::Memory;
use std::alloc::Global;
use std::sync::ledger::Ledger;

/// Room for the shapes of each group: all of them, one after another.
fn room(alloc: Global, groups: &[Entry<'_>]) -> Result<Vec<Shape>, Memory>
    ensures { IfOk result (λ room. length room.items ≡ plans.room groups.now) }
{
    let mut room = Vec::new(alloc);
    for group in groups {
        if let Some(shapes) = group.shapes() {
            room.extend_from_slice(shapes)?;
        }
    }
    Ok(room)
}

/// Goes into the root of a plan, and then through the groups below it. Without values for the root there are no rows.
fn enter_root<'n, L: Ledger>(
    alloc: Global,
    task: &Task<'_, 'n>,
    env: &mut Env,
    root: &Entry<'n>,
    groups: &[Entry<'n>],
    room: &mut [Shape],
    steps: &mut Steps<L>,
    out: &mut Lines,
) -> Result<(), Stop>
    requires room { plans.room (root.now ∷ groups.now) ≤ length room.old }
    requires plan { (t : Tree) × plans.IsPlan task.now.vars task.now.graph (more t leaf) (root.now ∷ groups.now) }
    requires few { length out.old.rows ≤ out.old.limit }
    ensures adds { (t : Tree) → plans.IsPlan task.now.vars task.now.graph (more t leaf) (root.now ∷ groups.now) → spec.Adds out.old.rows out.new.rows (spec.Reached task.now (children t) (IsStepBy nothing task.now.vars task.now.graph env.old t)) }
    ensures all { OnOk result ((t : Tree) → plans.IsPlan task.now.vars task.now.graph (more t leaf) (root.now ∷ groups.now) → spec.HasAll out.new.rows (spec.Reached task.now (children t) (IsStepBy nothing task.now.vars task.now.graph env.old t))) }
    ensures few { OnOk result (length out.new.rows ≤ out.new.limit) }
    ensures most { length out.new.rows ≤ out.new.limit + 1 }
    ensures full { result ≡ Err stops.Full → out.old.limit < length out.new.rows }
    ensures limit { out.new.limit ≡ out.old.limit }
{
    // The terms of a graph stand in its triples.
    let _graph = task.graph();
    let Some(shapes) = root.shapes() else {
        return Ok(());
    };
    let conds = root.conds();
    let (here, free) = room.split_at_mut(shapes.len());
    here.copy_from_slice(shapes);
    fill(alloc, task, env, here, conds, groups, free, steps, out)?;
    Ok(())
}

/// Puts in the row of each wanted mapping to which the way down through the tree leads. Full where there are more rows then than
/// are wanted.
pub fn rows_of<'n, L: Ledger>(
    alloc: Global,
    task: &Task<'_, 'n>,
    root: &'n Node,
    steps: &mut Steps<L>,
    out: &mut Lines,
) -> Result<(), Stop>
    requires listed { AreListed nothing task.now.vars (tree_vars (tree_of root.now)) }
    requires few { length out.old.rows ≤ out.old.limit }
    ensures adds { spec.Adds out.old.rows out.new.rows (spec.IsRowOf task.now (tree_of root.now)) }
    ensures all { OnOk result (spec.HasAll out.new.rows (spec.IsRowOf task.now (tree_of root.now))) }
    ensures few { OnOk result (length out.new.rows ≤ out.new.limit) }
    ensures most { length out.new.rows ≤ out.new.limit + 1 }
    ensures full { result ≡ Err stops.Full → out.old.limit < length out.new.rows }
    ensures limit { out.new.limit ≡ out.old.limit }
{
    let entries = plan(alloc, task, root)?;
    let mut room = room(alloc, entries.as_slice())?;
    let mut env = Env::blank(alloc, task.count())?;
    let Some((first, groups)) = entries.as_slice().split_first() else {
        return Ok(());
    };
    enter_root(
        alloc,
        task,
        &mut env,
        first,
        groups,
        room.as_mut_slice(),
        steps,
        out,
    )?;
    Ok(())
}
