//! Laws of the definitions, each the contract of a function that does nothing.

ghost use Rattle.bye_lex.specs.Laws.{ReadersAnswerOnce};
ghost use Rattle.bye_lex.specs.ReadingBack.{ReadsBack, OneTerm};

/// But for want of memory, the reader of a token has one answer.
pub fn one_answer()
    ensures { ReadersAnswerOnce }
{}

/// What is written of a term is its tokens, whatever follows that does not make the last of them longer.
pub fn reads_back()
    ensures { ReadsBack }
{}

/// No text is the tokens of two terms.
pub fn one_term()
    ensures { OneTerm }
{}
