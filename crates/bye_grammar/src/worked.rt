//! Documents worked out token by token, each the contract of a function that does nothing.

ghost use Rattle.bye_grammar.specs.Worked.{
  AWholeDocument,
  ADeepBracket,
  ARepeatedName,
  AnUnknownPrefix,
  ANarrowFilter,
  AnEarlyEnd,
};

/// A document with a prefix, an OPTIONAL and filters stands for its query; others go wrong at these tokens.
pub fn worked_documents()
    ensures whole { AWholeDocument }
    ensures deep { ADeepBracket }
    ensures repeated { ARepeatedName }
    ensures unknown { AnUnknownPrefix }
    ensures narrow { ANarrowFilter }
    ensures early { AnEarlyEnd }
{}
