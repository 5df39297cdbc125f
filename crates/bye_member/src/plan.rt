ghost use Rattle.std.specs.Prelude.{◌≡◌, IfOk, option_map};
ghost use Rattle.bye_pattern.specs.Nodes.{tree_of};
ghost use Rattle.bye_member.specs.Downs.{flat_tree};
ghost use Rattle.bye_member.specs.Plans as spec;

use crate::task::Task;
use bye_node::{Shape, shapes};
use bye_pattern::{Cond, Node};
use bye_terms::{Memory, push_item};
use std::alloc::Global;
use std::marker::Model;

/// A group of a tree, compiled: its triple patterns by numbers, where each of their terms has one, its conditions, and how many
/// groups are below it.
#[derive(Drop)]
pub struct Entry<'n> {
    shapes: Option<Vec<Shape>>,
    conds: &'n [Cond],
    below: usize,
}

impl<'n> Model for Entry<'n> {
    ghost use Rattle.std.specs.Prelude.{option_map};
    ghost use Rattle.bye_member.specs.Plans.{Planned};

    ghost Value = { Planned };

    ghost view = { λ e. record { shapes = option_map (λ v. v.items) e.shapes; conds = e.conds.now; below = e.below } };
}

impl<'n> Entry<'n> {
    /// The triple patterns. None where one of them has a term that is in no triple.
    pub fn shapes(&self) -> Option<&[Shape]>
        ensures { option_map (λ s. s.now) result ≡ self.now.shapes }
    {
        match &self.shapes {
            Some(shapes) => Some(shapes.as_slice()),
            None => None,
        }
    }

    /// The conditions.
    pub fn conds(&self) -> &'n [Cond]
        ensures { result.now ≡ self.now.conds }
    {
        self.conds
    }

    /// How many groups are below it.
    pub fn below(&self) -> usize
        ensures { result ≡ self.now.below }
    {
        self.below
    }
}

/// The groups of a tree in preorder, compiled.
pub fn plan<'n>(
    alloc: Global,
    task: &Task<'_, 'n>,
    node: &'n Node,
) -> Result<Vec<Entry<'n>>, Memory>
    ensures { IfOk result (λ entries. spec.ArePlanned task.now.vars task.now.graph.terms (flat_tree (tree_of node.now)) entries.items) }
{
    let mut rest = Vec::new(alloc);
    for child in node.children.as_slice() {
        let mut more = plan(alloc, task, child)?;
        rest.append(&mut more)?;
    }
    let below = rest.as_slice().len();
    let shapes = shapes(alloc, task.view(), node.triples.as_slice())?;
    let mut entries = Vec::new(alloc);
    push_item(
        &mut entries,
        Entry {
            shapes,
            conds: node.conds.as_slice(),
            below,
        },
    )?;
    entries.append(&mut rest)?;
    Ok(entries)
}
