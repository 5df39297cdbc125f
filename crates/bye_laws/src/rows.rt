//! The rows and answers of a query.

ghost use Rattle.bye_laws.specs.Descending.{RowsByDescending};
ghost use Rattle.bye_laws.specs.Nodes.{AnswersByNode};
ghost use Rattle.bye_laws.specs.Reaching.{RowsByReaching};
ghost use Rattle.bye_laws.specs.Restricting.{AnswersAreRestrictedRows};
ghost use Rattle.bye_laws.specs.Values.{NoValuesByRows, StepsByValues};

/// The rows of a well-designed tree are what going down its nodes from a mapping gives.
pub fn rows_by_descending()
    ensures { RowsByDescending }
{}

/// A row of a query over a well-designed tree is told by the nodes that it reaches and by the further expressions of the root
/// (SPARQL 1.1 Query, section 18.5).
pub fn rows_by_reaching()
    ensures { RowsByReaching }
{}

/// A mapping has no values for a node exactly where no mapping of the variables that it leaves open there makes it meet the node.
pub fn no_values_by_rows()
    ensures { NoValuesByRows }
{}

/// The steps at a node from a mapping are its merges with mappings of the variables that it leaves open there.
pub fn steps_by_values()
    ensures { StepsByValues }
{}

/// An answer is what a row says of the selected variables; where all of the tree are selected, it is a row.
pub fn answers_are_restricted_rows()
    ensures { AnswersAreRestrictedRows }
{}

/// A wanted row is an answer of a query of the class with OPTIONAL groups exactly where it says of each node what it should.
pub fn answers_by_node()
    ensures { AnswersByNode }
{}
