ghost use Rattle.std.specs.Prelude.{◌≡◌, ◌+◌, ◌-◌, ◌*◌, ◌<◌, ◌≤◌, ◌↔◌, ℕ, length, take, drop, slice_get, Some};
ghost use Rattle.std.specs.List.{AllByRecursion};
ghost use Rattle.std.specs.List.Sorted.{IsStrictlySortedBy};
ghost use Rattle.bye_terms.specs.Members.{In};
ghost use Rattle.bye_graph.specs.Graphs.{IsDepth};
ghost use Rattle.bye_graph.specs.Orders as spec;

use crate::entry::Entry;
use crate::span::Span;
use crate::steps::Steps;
use std::sync::ledger::Ledger;

/// Gives out the entry at a place, which counts one step.
pub fn give<L: Ledger>(entries: &[Entry], place: usize, steps: &mut Steps<L>) -> Entry
    requires { place < length entries.now }
    ensures entry { Some result ≡ slice_get entries.now place }
    ensures step { steps.new ≡ steps.old + 1 }
{
    steps.tick();
    entries[place]
}

/// Half of the way from one place to another.
fn middle(low: usize, high: usize) -> usize
    requires less { low < high }
    ensures above { low ≤ result }
    ensures below { result < high }
    ensures left { 2 * (result - low) ≤ high - low }
    ensures right { 2 * (high - (result + 1)) ≤ high - low }
{
    low + (high - low) / 2
}

/// The first place of an order whose entry is not below the bound, and that entry.
pub fn first_from<L: Ledger>(
    entries: &[Entry],
    bound: Entry,
    steps: &mut Steps<L>,
) -> (usize, Option<Entry>)
    requires { IsStrictlySortedBy spec.entry_cmp entries.now }
    ensures within { result.0 ≤ length entries.now }
    ensures before { AllByRecursion (spec.IsBelow bound) (take result.0 entries.now) }
    ensures after { AllByRecursion (spec.IsFrom bound) (drop result.0 entries.now) }
    ensures there { result.1 ≡ slice_get entries.now result.0 }
    ensures grows { steps.old ≤ steps.new }
    ensures cost { spec.IsAtMostDepth (length entries.now) (steps.new - steps.old) }
{
    let mut low = 0;
    let mut high = entries.len();
    let mut there = None;
    while low < high {
        let place = middle(low, high);
        let entry = give(entries, place, steps);
        if entry < bound {
            low = place + 1;
        } else {
            high = place;
            there = Some(entry);
        }
    }
    (low, there)
}

/// The part of an order that lies within the span.
pub fn part_within<'a, L: Ledger>(
    entries: &'a [Entry],
    span: Span,
    steps: &mut Steps<L>,
) -> &'a [Entry]
    requires { IsStrictlySortedBy spec.entry_cmp entries.now }
    ensures entries { (e : spec.Entry) → In result.now e ↔ (In entries.now e × spec.IsWithin span e) }
    ensures strict { IsStrictlySortedBy spec.entry_cmp result.now }
    ensures cost { (n d : ℕ) → length entries.now ≤ n → IsDepth n d → steps.new ≤ steps.old + 2 * d }
{
    let (low, _) = first_from(entries, span.low, steps);
    let (_, rest) = entries.split_at(low);
    let (high, _) = first_from(rest, span.high, steps);
    let (part, _) = rest.split_at(high);
    part
}
