//! Laws of the definitions, each the contract of a function that does nothing.

ghost use Rattle.bye_tsv.specs.OneAnswer.{TsvAnswersOnce};

/// But for want of memory, a table document has one answer.
pub fn one_answer()
    ensures { TsvAnswersOnce }
{}
