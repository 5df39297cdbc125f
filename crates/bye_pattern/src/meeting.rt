//! Whether rows meet a pattern.

ghost use Rattle.std.specs.Prelude.{◌≡◌, ℕ};
ghost use Rattle.std.specs.Option.{option_map};
ghost use Rattle.std.specs.Str.{bytes_eq};
ghost use Rattle.bye_table.specs.Mappings.{row_mapping};
ghost use Rattle.bye_pattern.specs.Patterns.{slot_under};
ghost use Rattle.bye_pattern.specs.Meeting as spec;

use crate::pattern::TriplePattern;
use crate::slot::Slot;
use bye_table::Row;
use bye_terms::{Term, Triple, Var};

fn same_name(one: &Var, other: &Var) -> bool
    ensures { result ≡ bytes_eq one.now other.now }
{
    one.same(other)
}

/// The term that the row gives the variable.
fn value_of<'a>(row: &'a [(Var, Term)], name: &Var) -> Option<&'a Term>
    ensures { option_map (λ t. t.now) result ≡ row_mapping row.now name.now }
{
    for e in row {
        if same_name(&e.0, name) {
            return Some(&e.1);
        }
    }
    None
}

/// Whether the place stands for the term under the row.
fn is_under(row: &[(Var, Term)], slot: &Slot, term: &Term) -> bool
    ensures { result ≡ spec.gives (slot_under (row_mapping row.now) slot.now) term.now }
{
    match slot {
        Slot::Const(c) => c.term().same(term),
        Slot::Var(v) => match value_of(row, v) {
            Some(value) => value.same(term),
            None => false,
        },
    }
}

/// Whether the pattern under the row is the triple.
fn becomes(row: &[(Var, Term)], pattern: &TriplePattern, triple: &Triple) -> bool
    ensures { result ≡ spec.becomes (row_mapping row.now) pattern.now triple.now }
{
    is_under(row, pattern.s(), triple.s())
        && is_under(row, pattern.p(), triple.p())
        && is_under(row, pattern.o(), triple.o())
}

/// Whether the pattern under the row is a triple of the graph.
fn meets(graph: &[Triple], pattern: &TriplePattern, row: &Row) -> bool
    ensures { result ≡ spec.meets graph.now pattern.now row.now }
{
    let pairs = row.listed();
    graph.iter().any(|t| becomes(pairs, pattern, t))
}

/// Whether the pattern under each row is a triple of the graph.
pub fn meets_all(graph: &[Triple], rows: &[Row], pattern: &TriplePattern) -> bool
    ensures { result ≡ spec.meets_all graph.now rows.now pattern.now }
{
    rows.iter().all(|row| meets(graph, pattern, row))
}
