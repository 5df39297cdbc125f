//! Laws of the combinators, at a small grammar that has most of them, as contracts of functions that do nothing.

ghost use Rattle.bye_parts.specs.Laws.{
  NestsAreRead,
  NestsCome,
  NestsHaveOneValue,
  NestFrontsAreClosed,
};

/// The reader of lists in brackets answers by their grammar, tokens derive as one value at most, and what begins
/// a front is a front.
pub fn nests_are_read<T, V>()
    ensures answers { NestsAreRead T V }
    ensures comes { NestsCome T V }
    ensures one_value { NestsHaveOneValue T V }
    ensures fronts { NestFrontsAreClosed T V }
{}
