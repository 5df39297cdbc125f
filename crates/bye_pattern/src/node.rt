ghost use Rattle.std.specs.Prelude.{◌≡◌, []};
ghost use Rattle.bye_pattern.specs.Nodes.{tree_of};
ghost use Rattle.bye_pattern.specs.Trees.{node, leaf};

use crate::cond::Cond;
use crate::pattern::TriplePattern;
use sqlite_items::Items;
use std::alloc::Global;

/// A group of a query (SPARQL 1.1 Query, section 5.2): its triple patterns, its plain conditions, and its
/// OPTIONAL groups as children.
#[derive(Debug, Drop)]
pub struct Node {
    pub triples: Items<TriplePattern>,
    pub conds: Items<Cond>,
    pub children: Items<Node>,
}

impl Node {
    /// A group of triple patterns alone.
    pub fn of_triples(alloc: Global, triples: Vec<TriplePattern>) -> Node
        ensures { tree_of result ≡ node triples.items [] leaf }
    {
        Node {
            triples: Items::from_vec(triples),
            conds: Items::new(alloc),
            children: Items::new(alloc),
        }
    }
}
