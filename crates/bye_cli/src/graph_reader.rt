//! Graph documents.

ghost use Rattle.std.specs.Prelude.{◌≡◌, Err};
ghost use Rattle.bye_words.specs.declared.role.Role.TheVariants.{Graph};
ghost use Rattle.bye_cli.specs.Documents.{OfGraph, Triples, graph_verdict};
ghost use Rattle.bye_cli.specs.Refusals.{verdict_refusal};

use crate::reader::Reader;
use bye_ntriples::{NtErr, read_triples};
use bye_terms::Triple;
use bye_words::{Count, Fault, Refusal, Role};
use std::alloc::Global;

/// The refusal of a graph that is not of its form, or has too many triples.
fn no_graph(err: NtErr) -> Refusal
    ensures { result ≡ verdict_refusal Graph (graph_verdict (Err err)) }
{
    match err {
        NtErr::Syntax(place) => Refusal::Document(Role::Graph, Fault::Syntax(place)),
        NtErr::NotUtf8(place) => Refusal::Document(Role::Graph, Fault::NotUtf8(place)),
        NtErr::TooMany => Refusal::Limit(Role::Graph, Count::Triples),
        NtErr::Memory => Refusal::Memory,
    }
}

/// Reads the triples of a graph document.
pub struct GraphReader;

impl Reader for GraphReader {
    type Read = Vec<Triple>;

    ghost kind = { λ _. OfGraph };

    ghost value = { λ triples. Triples triples.items };

    fn role(&self) -> Role {
        Role::Graph
    }

    fn limit(&self) -> u64 {
        268_435_456
    }

    fn read(&self, alloc: Global, bytes: &[u8]) -> Result<Vec<Triple>, Refusal> {
        match read_triples(alloc, bytes) {
            Ok(triples) => Ok(triples),
            Err(err) => Err(no_graph(err)),
        }
    }
}
