ghost use Rattle.std.specs.Prelude.{IfOk, map};
ghost use Rattle.bye_graph.specs.Orders as spec;

use crate::entry::{Entry, Order};
use bye_terms::Memory;
use std::alloc::Global;

/// The entries sorted, each once, in no more memory than they take.
pub fn sorted(mut entries: Vec<Entry>) -> Vec<Entry>
    ensures { spec.IsSortedSet entries.items result.items }
{
    entries.sort_unstable();
    entries.dedup();
    entries.shrink_to_fit();
    entries
}

/// The triples that stand in subject order, in another order.
pub fn in_order(alloc: Global, spo: &[Entry], order: Order) -> Result<Vec<Entry>, Memory>
    ensures { IfOk result (λ entries. spec.IsSortedSet (map (spec.entry_of order) (spec.keys_of spo.now)) entries.items) }
{
    let mut entries = Vec::with_capacity(alloc, spo.len())?;
    for entry in spo {
        entries.push(order.entry_of(Order::Subject.key_of(*entry)))?;
    }
    Ok(sorted(entries))
}
