ghost use Rattle.std.specs.Prelude.{◌+◌, ◌*◌, ◌<◌, ◌≤◌, ℕ, length};
ghost use Rattle.bye_graph.specs.Graphs as graphs;
ghost use Rattle.bye_node.specs.Pins.{given};

use crate::env::{Env, Shape};
use crate::pin::{self, Pin};
use bye_graph::{Found, Graph, Steps};
use std::sync::ledger::Ledger;

/// The triples that have the given numbers in the places of the shape.
pub fn seek<'a, L: Ledger>(
    graph: &'a Graph,
    env: &Env,
    pins: &[Pin],
    shape: Shape,
    steps: &mut Steps<L>,
) -> Found<'a>
    ensures matches { graphs.AreMatches graph.now.keys (given env.now pins.now shape.s) (given env.now pins.now shape.p) (given env.now pins.now shape.o) result }
    ensures cost { (d : ℕ) → graphs.IsDepth (length graph.now.keys) d → steps.new ≤ steps.old + 2 * d }
{
    let s = pin::given(env, pins, shape.s);
    let p = pin::given(env, pins, shape.p);
    let o = pin::given(env, pins, shape.o);
    graph.find(s, p, o, steps)
}

/// The place of the shape that may become the fewest triples. A single shape is not counted.
pub fn fewest<L: Ledger>(
    graph: &Graph,
    env: &Env,
    pins: &[Pin],
    shapes: &[Shape],
    steps: &mut Steps<L>,
) -> usize
    requires { 0 < length shapes.now }
    ensures { result < length shapes.now }
{
    let mut best = 0;
    if shapes.len() == 1 {
        return best;
    }
    let mut least = usize::MAX;
    for (i, shape) in shapes.iter().enumerate() {
        let count = seek(graph, env, pins, *shape, steps).len();
        if count < least {
            least = count;
            best = i;
            if count <= 1 {
                return best;
            }
        }
    }
    best
}
