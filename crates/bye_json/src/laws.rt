//! Laws of the definitions, each the contract of a function that does nothing.

ghost use Rattle.bye_json.specs.Laws.{OneAnswer, OneTable, SortsNames};
ghost use Rattle.bye_json.specs.ReadingBack.{ReadsBack};

/// But for want of memory, bytes have one answer.
pub fn one_answer()
    ensures { OneAnswer }
{}

/// Bytes are a document of one table at most.
pub fn one_table()
    ensures { OneTable }
{}

/// The written document of a table is a document of it.
pub fn reads_back()
    ensures { ReadsBack }
{}

/// Variables in the byte order of their names are the same ones, and ascend.
pub fn sorts_names()
    ensures { SortsNames }
{}
