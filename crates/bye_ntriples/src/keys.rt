//! Lines are sorted with keys. Nearly all lines of a graph begin alike, `<http://example.org/p` say, so that a comparison of two
//! reads many bytes, from places far apart in memory, before it comes to one that differs. A key is two numbers of 64 bits that
//! stand beside the line and never fall where lines do not: where the keys of two lines differ they give the order, and only
//! lines of one key are compared themselves.
//!
//! A key has the bytes of its line that follow what it shares with its neighbours:
//! - 63 lines at even steps are labels. Sorted, they are a search tree of six levels, which a line goes down to one of 64 gaps.
//! - What the labels on either side of a gap have in common at their fronts, every line between them begins with too.
//! - The first number has the gap, whether the line comes before, among or after those with that front, and the six bytes behind
//!   the front. The second number has the eight bytes after these.
//!
//! Between the labels `<http://e/p12> ..` and `<http://e/p17> ..` lines begin with `<http://e/p1`. There the line
//! `<http://e/p145> <http://e/knows> ..` has the key of that gap, "among", `45> <h` and `ttp://e/`.
//!
//! The keys are right whatever the labels and the fronts are, so nothing is proved of how they are chosen: bad ones only give more
//! lines the same key.
//!
//! To convert a million shuffled lines of `bench/people.sh` takes 1.05 seconds; with keys of the lines' first bytes, which all lines
//! share, it takes 1.3. Where the lines come in order, the keys gain nothing and cost some 0.05 seconds.

ghost use Rattle.std.specs.Prelude.{◌≡◌, ◌<◌, ◌*◌, ◌+◌, ◌^◌, IfOk, map, option_map, slice_get};
ghost use Rattle.bye_ntriples.specs.Keys as spec;
ghost use Rattle.bye_ntriples.specs.KeyLists.{chosen, keyed_of};

use bye_terms::{Memory, push_item};
use std::alloc::Global;
use std::cmp::Ordering;

/// How many lines are labels: a tree of six levels has so many.
const LABELS: usize = 63;

/// The number of the first node below the labels.
const NODES: usize = 64;

/// The number with the next byte, and what follows it.
fn push_byte(number: u64, rest: &[u8]) -> (u64, &[u8])
    requires { number < 2 ^ 56 }
    ensures number { result.0 ≡ spec.digit number rest.now }
    ensures rest { result.1.now ≡ spec.behind rest.now }
    ensures below { result.0 < number * 256 + 256 }
{
    match rest {
        [] => (number * 256, rest),
        [c, more @ ..] => (number * 256 + u64::from(*c), more),
    }
}

/// The number with the next six bytes, and what follows them.
fn six_bytes(number: u64, rest: &[u8]) -> (u64, &[u8])
    requires { number < 1024 }
    ensures number { result.0 ≡ (spec.digits 6 (record { number = number; rest = rest.now })).number }
    ensures rest { result.1.now ≡ (spec.digits 6 (record { number = number; rest = rest.now })).rest }
{
    let (number, rest) = push_byte(number, rest);
    let (number, rest) = push_byte(number, rest);
    let (number, rest) = push_byte(number, rest);
    let (number, rest) = push_byte(number, rest);
    let (number, rest) = push_byte(number, rest);
    push_byte(number, rest)
}

/// The number of the first eight bytes.
fn eight_bytes(rest: &[u8]) -> u64
    ensures { result ≡ (spec.low rest.now).number }
{
    let (number, rest) = push_byte(0, rest);
    let (number, rest) = push_byte(number, rest);
    let (number, rest) = push_byte(number, rest);
    let (number, rest) = push_byte(number, rest);
    let (number, rest) = push_byte(number, rest);
    let (number, rest) = push_byte(number, rest);
    let (number, rest) = push_byte(number, rest);
    let (number, _) = push_byte(number, rest);
    number
}

/// The node below a node that the line goes on to.
fn child(labels: &[&str], at: usize, line: &str) -> usize
    requires { at < 2 ^ 32 }
    ensures is { result ≡ spec.child (option_map (λ s. s.now) (slice_get labels.now at)) at line.now }
    ensures below { result < at * 2 + 2 }
{
    match labels.get(at) {
        None => at * 2,
        Some(label) => match line.cmp(label) {
            Ordering::Less => at * 2,
            _ => at * 2 + 1,
        },
    }
}

/// The node below the labels that the line comes to.
fn node(labels: &[&str], line: &str) -> usize
    ensures is { result ≡ spec.walk 6 (λ i. option_map (λ s. s.now) (slice_get labels.now i)) 1 line.now }
    ensures below { result < 128 }
{
    let at = child(labels, 1, line);
    let at = child(labels, at, line);
    let at = child(labels, at, line);
    let at = child(labels, at, line);
    let at = child(labels, at, line);
    child(labels, at, line)
}

/// Whether the line comes before, among or after those with the front, and what follows the front.
fn beyond<'a>(front: &[u8], line: &'a [u8]) -> (u64, &'a [u8])
    ensures number { result.0 ≡ (spec.beyond front.now line.now).number }
    ensures rest { result.1.now ≡ (spec.beyond front.now line.now).rest }
    ensures below { result.0 < 3 }
{
    let mut rest = line;
    for p in front {
        match rest {
            [] => return (0, b""),
            [c, more @ ..] => {
                if *c < *p {
                    return (0, b"");
                }
                if *p < *c {
                    return (2, b"");
                }
                rest = more;
            }
        }
    }
    (1, rest)
}

/// The same at the front of a node.
fn beyond_front<'a>(fronts: &[&[u8]], at: usize, line: &'a [u8]) -> (u64, &'a [u8])
    ensures number { result.0 ≡ (spec.beyond_front (option_map (λ s. s.now) (slice_get fronts.now at)) line.now).number }
    ensures rest { result.1.now ≡ (spec.beyond_front (option_map (λ s. s.now) (slice_get fronts.now at)) line.now).rest }
    ensures below { result.0 < 3 }
{
    match fronts.get(at) {
        None => (1, line),
        Some(front) => beyond(front, line),
    }
}

/// The key of a line.
fn key(labels: &[&str], fronts: &[&[u8]], line: &str) -> (u64, u64)
    ensures { spec.IsKeyed (chosen labels.now fronts.now) (record { first = result.0; second = result.1; line = line.now }) }
{
    let at = node(labels, line);
    let (place, rest) = beyond_front(fronts, at, line.as_bytes());
    let (first, rest) = six_bytes(at as u64 * 3 + place, rest);
    (first, eight_bytes(rest))
}

/// The lines with their keys.
fn with_keys<'a>(
    alloc: Global,
    labels: &[&str],
    fronts: &[&[u8]],
    lines: &[&'a str],
) -> Result<Vec<(u64, u64, &'a str)>, Memory>
    ensures keyed { IfOk result (λ v. spec.AreKeyed (keyed_of v.items)) }
    ensures lines { IfOk result (λ v. map (λ k. k.2.now) v.items ≡ map (λ s. s.now) lines.now) }
{
    let mut out = Vec::with_capacity(alloc, lines.len())?;
    for line in lines {
        let (first, second) = key(labels, fronts, line);
        push_item(&mut out, (first, second, *line))?;
    }
    Ok(out)
}

/// Lines at even steps, sorted.
fn sample<'a>(alloc: Global, lines: &[&'a str]) -> Result<Vec<&'a str>, Memory> {
    let mut out = Vec::with_capacity(alloc, LABELS)?;
    let step = lines.len() / LABELS;
    let mut at = step / 2;
    for _ in 0..LABELS {
        if let Some(line) = lines.get(at) {
            push_item(&mut out, *line)?;
        }
        at = at.wrapping_add(step);
    }
    out.sort_unstable();
    Ok(out)
}

/// Puts the lines of one level of the tree at the end: the one at `first`, and those at steps of twice that.
fn push_level<'a>(out: &mut Vec<&'a str>, sorted: &[&'a str], first: usize) -> Result<(), Memory> {
    let mut at = first;
    for _ in 0..LABELS {
        if at <= LABELS {
            let label = sorted.get(at.wrapping_sub(1)).copied().unwrap_or("");
            push_item(out, label)?;
        }
        at = at.saturating_add(first).saturating_add(first);
    }
    Ok(())
}

/// The labels of a tree, in which the nodes 2n and 2n + 1 stand below the node n, and the root is 1.
fn tree<'a>(alloc: Global, sorted: &[&'a str]) -> Result<Vec<&'a str>, Memory> {
    let mut out = Vec::with_capacity(alloc, NODES)?;
    push_item(&mut out, "")?;
    for first in [32, 16, 8, 4, 2, 1] {
        push_level(&mut out, sorted, first)?;
    }
    Ok(out)
}

/// How many bytes the two have in common at their fronts.
fn count_shared(one: &[u8], other: &[u8]) -> usize {
    one.iter()
        .zip(other.iter())
        .take_while(|(a, b)| *a == *b)
        .count()
}

/// What the two have in common at their fronts.
fn shared<'a>(one: &[u8], other: &'a [u8]) -> &'a [u8] {
    match other.split_at_checked(count_shared(one, other)) {
        None => other,
        Some((front, _)) => front,
    }
}

/// What the labels on either side of each node below them have in common.
fn fronts<'a>(alloc: Global, sorted: &[&'a str]) -> Result<Vec<&'a [u8]>, Memory> {
    let mut out = Vec::with_capacity(alloc, 2 * NODES)?;
    for _ in 0..NODES {
        push_item(&mut out, b"".as_slice())?;
    }
    let mut last = "";
    for label in sorted {
        push_item(&mut out, shared(last.as_bytes(), label.as_bytes()))?;
        last = label;
    }
    Ok(out)
}

/// The lines with keys.
pub fn keyed<'a>(alloc: Global, lines: &[&'a str]) -> Result<Vec<(u64, u64, &'a str)>, Memory>
    ensures keyed { IfOk result (λ v. spec.AreKeyed (keyed_of v.items)) }
    ensures lines { IfOk result (λ v. map (λ k. k.2.now) v.items ≡ map (λ s. s.now) lines.now) }
{
    let sorted = sample(alloc, lines)?;
    let labels = tree(alloc, sorted.as_slice())?;
    let fronts = fronts(alloc, sorted.as_slice())?;
    with_keys(alloc, labels.as_slice(), fronts.as_slice(), lines)
}
