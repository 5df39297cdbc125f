//! Written queries, and the selects that they are read as.

ghost use Rattle.bye_laws.specs.Written.{BrokenOrDesignedEarly, EarlyIsDesigned, GatheredSelects, ReadAsSelects, ReadBack, WrittenAnswers};

/// A written query that keeps the four rules, by what stands before each OPTIONAL, is read as a well-designed tree.
pub fn early_is_designed()
    ensures { EarlyIsDesigned }
{}

/// The answers of a written query, in the order of its text, are those of the select that it is read as
/// (SPARQL 1.1 Query, sections 18.2.2 and 18.5).
pub fn written_answers()
    ensures { WrittenAnswers }
{}

/// A written query keeps the rules by what stands before each OPTIONAL, or one node is the first that breaks one.
pub fn broken_or_designed_early()
    ensures { BrokenOrDesignedEarly }
{}

/// What a written query selects, and what is left of its FILTERs beside the conditions of the root.
pub fn gathered_selects()
    ensures { GatheredSelects }
{}

/// The query as which a select is written is read as this select, and keeps the rules.
pub fn read_back()
    ensures { ReadBack }
{}

/// What is learned, and what a written query that keeps the rules is read as, is a SELECT of the program.
pub fn read_as_selects()
    ensures { ReadAsSelects }
{}
