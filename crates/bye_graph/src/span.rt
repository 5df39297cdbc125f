ghost use Rattle.std.specs.Prelude.{◌≡◌, ◌↔◌};
ghost use Rattle.bye_graph.specs.Keys.{Key, Agrees};
ghost use Rattle.bye_graph.specs.Orders as spec;

use crate::entry::{Entry, Order};

/// The entries from a low bound up to a high one, which is not among them.
#[derive(Clone, Copy, Drop)]
pub struct Span {
    pub low: Entry,
    pub high: Entry,
}

fn entry(first: u32, second: u32, third: u32) -> Entry
    ensures { result ≡ record { first = first; second = second; third = third } }
{
    Entry {
        first,
        second,
        third,
    }
}

/// All entries.
fn all() -> Span
    ensures { (e : spec.Entry) → spec.IsSmall e → spec.IsWithin result e }
{
    Span {
        low: entry(0, 0, 0),
        high: entry(u32::MAX, 0, 0),
    }
}

/// The entries that begin with a number.
fn begin(first: u32) -> Span
    ensures { (e : spec.Entry) → spec.IsSmall e → spec.IsWithin result e ↔ (e.first ≡ first) }
{
    Span {
        low: entry(first, 0, 0),
        high: entry(first.saturating_add(1), 0, 0),
    }
}

/// The entries that begin with two numbers.
fn begin_two(first: u32, second: u32) -> Span
    ensures { (e : spec.Entry) → spec.IsSmall e → spec.IsWithin result e ↔ ((e.first ≡ first) × (e.second ≡ second)) }
{
    Span {
        low: entry(first, second, 0),
        high: entry(first, second.saturating_add(1), 0),
    }
}

/// The entry of three numbers.
fn only(first: u32, second: u32, third: u32) -> Span
    ensures { (e : spec.Entry) → spec.IsSmall e → spec.IsWithin result e ↔ ((e.first ≡ first) × (e.second ≡ second) × (e.third ≡ third)) }
{
    Span {
        low: entry(first, second, third),
        high: entry(first, second, third.saturating_add(1)),
    }
}

/// The order in which the triples with the given numbers stand together, and where they stand there.
pub fn span_of(s: Option<u32>, p: Option<u32>, o: Option<u32>) -> (Order, Span)
    ensures { (key : Key) → spec.IsSmall (spec.entry_of result.0 key) → spec.IsWithin result.1 (spec.entry_of result.0 key) ↔ Agrees s p o key }
{
    match (s, p, o) {
        (None, None, None) => (Order::Subject, all()),
        (Some(s), None, None) => (Order::Subject, begin(s)),
        (Some(s), Some(p), None) => (Order::Subject, begin_two(s, p)),
        (Some(s), Some(p), Some(o)) => (Order::Subject, only(s, p, o)),
        (None, Some(p), None) => (Order::Predicate, begin(p)),
        (None, Some(p), Some(o)) => (Order::Predicate, begin_two(p, o)),
        (None, None, Some(o)) => (Order::Object, begin(o)),
        (Some(s), None, Some(o)) => (Order::Object, begin_two(o, s)),
    }
}
