ghost use Rattle.std.specs.Prelude.{◌≡◌, ◌+◌, ◌<◌, ◌≤◌, ◌∷◌, Err, IfOk, OnOk, length};
ghost use Rattle.bye_table.specs.Mappings.{nothing};
ghost use Rattle.bye_pattern.specs.Trees.{Forest, Tree, leaf, more};
ghost use Rattle.bye_node.specs.Conds.{Fits};
ghost use Rattle.bye_node.specs.Envs.{AreReordered};
ghost use Rattle.bye_member.specs.Plans as plans;
ghost use Rattle.bye_member.specs.Searches as spec;
ghost use Rattle.bye_member.specs.declared.lines.Stop.TheVariants as stops;

use crate::lines::{Lines, Stop};
use crate::plan::Entry;
use crate::task::Task;
use crate::wanted::is_wanted;
use bye_graph::Steps;
use bye_node::{Env, Shape, fewest, first, is_shut, seek};
use bye_pattern::Cond;
use bye_terms::Memory;
use std::alloc::Global;
use std::sync::ledger::Ledger;

/// Whether the group has values beside the mapping, whatever is wanted of them.
fn has_values<'n, L: Ledger>(
    alloc: Global,
    task: &Task<'_, 'n>,
    env: &Env,
    shapes: &mut [Shape],
    conds: &'n [Cond],
    steps: &mut Steps<L>,
) -> Result<bool, Memory>
    ensures { IfOk result (λ b. spec.Has (Fits nothing task.now.vars task.now.graph conds.now shapes.old env.now) b) }
{
    let mut copy = env.copy(alloc)?;
    Ok(first(task.view(), shapes, conds, &mut copy, steps))
}

/// Puts in the row of the mapping, where it is what is wanted.
fn put_row(alloc: Global, task: &Task<'_, '_>, env: &Env, out: &mut Lines) -> Result<(), Stop>
    requires few { length out.old.rows ≤ out.old.limit }
    ensures adds { spec.Adds out.old.rows out.new.rows (spec.LeadsTo task.now leaf env.now) }
    ensures all { OnOk result (spec.HasAll out.new.rows (spec.LeadsTo task.now leaf env.now)) }
    ensures few { OnOk result (length out.new.rows ≤ out.new.limit) }
    ensures most { length out.new.rows ≤ out.new.limit + 1 }
    ensures full { result ≡ Err stops.Full → out.old.limit < length out.new.rows }
    ensures limit { out.new.limit ≡ out.old.limit }
{
    if is_wanted(task, env) {
        out.add(alloc, env, task.selected())?;
    }
    Ok(())
}

/// Goes through the groups from the mapping, the first of them first, and puts in the row of each wanted mapping that this leads to.
/// The slice of shapes is room for those of each group. After an error the numbers that were put into the mapping last stay there.
#[cycle(search)]
fn descend<'n, L: Ledger>(
    alloc: Global,
    task: &Task<'_, 'n>,
    env: &mut Env,
    groups: &[Entry<'n>],
    room: &mut [Shape],
    steps: &mut Steps<L>,
    out: &mut Lines,
) -> Result<(), Stop>
    requires room { plans.room groups.now ≤ length room.old }
    requires plan { (f : Forest) × plans.IsPlan task.now.vars task.now.graph f groups.now }
    requires few { length out.old.rows ≤ out.old.limit }
    ensures adds { (f : Forest) → plans.IsPlan task.now.vars task.now.graph f groups.now → spec.Adds out.old.rows out.new.rows (spec.LeadsTo task.now f env.old) }
    ensures all { OnOk result ((f : Forest) → plans.IsPlan task.now.vars task.now.graph f groups.now → spec.HasAll out.new.rows (spec.LeadsTo task.now f env.old)) }
    ensures env { OnOk result (env.new ≡ env.old) }
    ensures few { OnOk result (length out.new.rows ≤ out.new.limit) }
    ensures most { length out.new.rows ≤ out.new.limit + 1 }
    ensures full { result ≡ Err stops.Full → out.old.limit < length out.new.rows }
    ensures limit { out.new.limit ≡ out.old.limit }
{
    let Some((group, after)) = groups.split_first() else {
        put_row(alloc, task, env, out)?;
        return Ok(());
    };
    if enter(alloc, task, env, group, after, room, steps, out)? {
        return Ok(());
    }
    let (_, past) = after.split_at(group.below());
    descend(alloc, task, env, past, room, steps, out)?;
    Ok(())
}

/// Goes into a group and then through those after it, and puts in the rows as `descend` does. False where the group has no values, so
/// that the way goes past what is below it.
#[cycle(search)]
fn enter<'n, L: Ledger>(
    alloc: Global,
    task: &Task<'_, 'n>,
    env: &mut Env,
    group: &Entry<'n>,
    after: &[Entry<'n>],
    room: &mut [Shape],
    steps: &mut Steps<L>,
    out: &mut Lines,
) -> Result<bool, Stop>
    requires room { plans.room (group.now ∷ after.now) ≤ length room.old }
    requires plan { (t : Tree) × (f : Forest) × plans.IsPlan task.now.vars task.now.graph (more t f) (group.now ∷ after.now) }
    requires few { length out.old.rows ≤ out.old.limit }
    ensures adds { (t : Tree) (f : Forest) → plans.IsPlan task.now.vars task.now.graph (more t f) (group.now ∷ after.now) → spec.Adds out.old.rows out.new.rows (spec.LeadsTo task.now (more t f) env.old) }
    ensures enters { IfOk result (λ entered. (t : Tree) (f : Forest) → plans.IsPlan task.now.vars task.now.graph (more t f) (group.now ∷ after.now) → spec.Enters task.now t f env.old out.new.rows entered) }
    ensures env { OnOk result (env.new ≡ env.old) }
    ensures few { OnOk result (length out.new.rows ≤ out.new.limit) }
    ensures most { length out.new.rows ≤ out.new.limit + 1 }
    ensures full { result ≡ Err stops.Full → out.old.limit < length out.new.rows }
    ensures limit { out.new.limit ≡ out.old.limit }
{
    // The terms of a graph stand in its triples.
    let _graph = task.graph();
    let Some(shapes) = group.shapes() else {
        return Ok(false);
    };
    let conds = group.conds();
    let (here, free) = room.split_at_mut(shapes.len());
    here.copy_from_slice(shapes);
    if fill(alloc, task, env, here, conds, after, free, steps, out)? {
        return Ok(true);
    }
    if task.pins().is_empty() {
        return Ok(false);
    }
    let blocked = has_values(alloc, task, env, here, conds, steps)?;
    Ok(blocked)
}

/// Puts numbers into the shapes of a group, in every way that fits them and its conditions, and goes through the groups after it from
/// each. Tells whether there was one.
#[cycle(search)]
pub fn fill<'n, L: Ledger>(
    alloc: Global,
    task: &Task<'_, 'n>,
    env: &mut Env,
    shapes: &mut [Shape],
    conds: &'n [Cond],
    groups: &[Entry<'n>],
    room: &mut [Shape],
    steps: &mut Steps<L>,
    out: &mut Lines,
) -> Result<bool, Stop>
    requires room { plans.room groups.now ≤ length room.old }
    requires plan { (f : Forest) × plans.IsPlan task.now.vars task.now.graph f groups.now }
    requires few { length out.old.rows ≤ out.old.limit }
    ensures adds { (f : Forest) → plans.IsPlan task.now.vars task.now.graph f groups.now → spec.Adds out.old.rows out.new.rows (spec.Reached task.now f (Fits nothing task.now.vars task.now.graph conds.now shapes.old env.old)) }
    ensures all { OnOk result ((f : Forest) → plans.IsPlan task.now.vars task.now.graph f groups.now → spec.HasAll out.new.rows (spec.Reached task.now f (Fits nothing task.now.vars task.now.graph conds.now shapes.old env.old))) }
    ensures tells { IfOk result (λ found. spec.Tells task.now.pins (Fits nothing task.now.vars task.now.graph conds.now shapes.old env.old) found) }
    ensures env { OnOk result (env.new ≡ env.old) }
    ensures shapes { AreReordered shapes.old shapes.new }
    ensures few { OnOk result (length out.new.rows ≤ out.new.limit) }
    ensures most { length out.new.rows ≤ out.new.limit + 1 }
    ensures full { result ≡ Err stops.Full → out.old.limit < length out.new.rows }
    ensures limit { out.new.limit ≡ out.old.limit }
{
    if shapes.is_empty() {
        if !task.all_hold(env, conds) {
            return Ok(false);
        }
        descend(alloc, task, env, groups, room, steps, out)?;
        return Ok(true);
    }
    let place = fewest(task.graph(), env, task.pins(), shapes, steps);
    shapes.swap(0, place);
    let shape = shapes[0];
    if is_shut(task.pins(), env, shape) {
        return Ok(false);
    }
    let (_, others) = shapes.split_at_mut(1);
    let mut found = seek(task.graph(), env, task.pins(), shape, steps);
    let mut any = false;
    while let Some(key) = found.next_counted(steps) {
        if let Some(bound) = env.bind_key(shape, key) {
            if fill(alloc, task, env, others, conds, groups, room, steps, out)? {
                any = true;
            }
            env.unbind(bound);
        }
    }
    Ok(any)
}
