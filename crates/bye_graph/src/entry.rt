ghost use Rattle.std.specs.Prelude.{◌≡◌};
ghost use Rattle.bye_graph.specs.Orders as spec;

/// The numbers of a triple in the order in which it is sorted.
#[derive(Clone, Copy, Drop, PartialEq, Eq, PartialOrd, Ord)]
pub struct Entry {
    pub first: u32,
    pub second: u32,
    pub third: u32,
}

/// An order of triples, by the part that stands first. The other parts follow it around.
#[derive(Clone, Copy, Drop)]
pub enum Order {
    Subject,
    Predicate,
    Object,
}

impl Order {
    /// The entry of a triple.
    pub fn entry_of(self, key: (u32, u32, u32)) -> Entry
        ensures { result ≡ spec.entry_of self key }
    {
        let (s, p, o) = key;
        let (first, second, third) = match self {
            Order::Subject => (s, p, o),
            Order::Predicate => (p, o, s),
            Order::Object => (o, s, p),
        };
        Entry {
            first,
            second,
            third,
        }
    }

    /// The triple of an entry.
    pub fn key_of(self, entry: Entry) -> (u32, u32, u32)
        ensures { result ≡ spec.key_of self entry }
    {
        let Entry {
            first,
            second,
            third,
        } = entry;
        match self {
            Order::Subject => (first, second, third),
            Order::Predicate => (third, first, second),
            Order::Object => (second, third, first),
        }
    }
}
