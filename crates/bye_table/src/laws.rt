//! Laws of the definitions, each the contract of a function that does nothing.

ghost use Rattle.bye_table.specs.Sorted.{OneSortedSet};

/// A table has one sorted set, up to the order in which a row keeps its pairs.
pub fn one_sorted_set()
    ensures { OneSortedSet }
{}
