//! Laws of the definitions, each the contract of a function that does nothing.

ghost use Rattle.bye_pattern.specs.Laws.{
  AnswersOfOneGroup,
  CommonPatternsFit,
  NoneFitsWhereUncovered,
  FittingIsMeeting,
  DroppingKeepsAnswers,
  AnswersBindTheTree,
  BoundIsTrue,
  BrokenOrDesigned,
  DesignedAtOnce,
  DomainsByNumbers,
  ClassesAtOneNode,
};

/// The answers of a query of one group are the mappings of exactly its variables that meet each of its triple
/// patterns and conditions (SPARQL 1.1 Query, section 18.5).
pub fn answers_of_one_group()
    ensures { AnswersOfOneGroup }
{}

/// Where any query of one group without conditions fits the wanted rows, the one of all triple patterns that
/// they have in common fits.
pub fn common_patterns_fit()
    ensures { CommonPatternsFit }
{}

/// No query of one group without conditions fits exactly where some variable is in no triple pattern that the
/// wanted rows have in common.
pub fn none_fits_where_uncovered()
    ensures { NoneFitsWhereUncovered }
{}

/// A query of one group fits exactly where every wanted row meets it and no unwanted row does.
pub fn fitting_is_meeting()
    ensures { FittingIsMeeting }
{}

/// Without one of its conjuncts a query of one group has every answer that it had.
pub fn dropping_keeps_answers()
    ensures { DroppingKeepsAnswers }
{}

/// An answer binds no variable that is not selected or that is not in the triple patterns of the tree.
pub fn answers_bind_the_tree()
    ensures { AnswersBindTheTree }
{}

/// `bound` of a variable of a basic graph pattern is true of each of its rows.
pub fn bound_is_true()
    ensures { BoundIsTrue }
{}

/// A tree is well-designed, or one node is the first that breaks a rule.
pub fn broken_or_designed()
    ensures { BrokenOrDesigned }
{}

/// The rules of well-designed trees, node by node and at once.
pub fn designed_at_once()
    ensures { DesignedAtOnce }
{}

/// That the domain of a variable is within that of another, by the numbers of rows.
pub fn domains_by_numbers()
    ensures { DomainsByNumbers }
{}

/// In a query of the class with OPTIONAL groups each domain class is new at one node alone.
pub fn classes_at_one_node()
    ensures { ClassesAtOneNode }
{}
