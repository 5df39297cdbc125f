//! The order of trial.

ghost use Rattle.bye_laws.specs.Ordering.{OnePattern, SortedListsAreOneAndThere};

/// Valid patterns are told by their written lines, and of two different ones exactly one is tried before the other.
pub fn one_pattern()
    ensures { OnePattern }
{}

/// Valid patterns have one list in strict order, and conditions over a header one list in the order of trial.
pub fn sorted_lists_are_one_and_there()
    ensures { SortedListsAreOneAndThere }
{}
