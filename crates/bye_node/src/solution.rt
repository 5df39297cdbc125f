ghost use Rattle.bye_table.specs.Mappings.{row_mapping};
ghost use Rattle.bye_terms.specs.Members.{EachOnce};
ghost use Rattle.bye_node.specs.Conds.{Fits};
ghost use Rattle.bye_node.specs.Envs as spec;

use crate::conds::all_hold;
use crate::env::{Env, Shape};
use crate::search::{fewest, seek};
use crate::view::View;
use bye_graph::Steps;
use bye_pattern::Cond;
use std::sync::ledger::Ledger;

/// Puts the first numbers in that fit the shapes and the conditions. False, with the numbers as they were, where none do. The
/// shapes are put in the order in which they are taken.
pub fn first<'a, 'n, L: Ledger>(
    view: View<'a, 'n>,
    shapes: &mut [Shape],
    conds: &'n [Cond],
    env: &mut Env,
    steps: &mut Steps<L>,
) -> bool
    requires { EachOnce view.names.now }
    ensures first { spec.IsFirst (Fits (row_mapping view.entry.row.now) view.entry.names.now view.entry.graph.now conds.now shapes.old env.old) env.old result env.new }
    ensures shapes { spec.AreReordered shapes.old shapes.new }
{
    if shapes.is_empty() {
        return all_hold(view, env, conds);
    }
    let place = fewest(view.graph, env, &[], shapes, steps);
    shapes.swap(0, place);
    let shape = shapes[0];
    let (_, rest) = shapes.split_at_mut(1);
    let mut found = seek(view.graph, env, &[], shape, steps);
    while let Some(key) = found.next_counted(steps) {
        if let Some(bound) = env.bind_key(shape, key) {
            if first(view, rest, conds, env, steps) {
                return true;
            }
            env.unbind(bound);
        }
    }
    false
}
