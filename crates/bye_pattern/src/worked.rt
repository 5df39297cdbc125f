//! Worked examples of the definitions, each the contract of a function that does nothing.

ghost use Rattle.bye_pattern.specs.Worked.{
  OptionalAnswers,
  ErrorsDropRows,
  WrittenTexts,
  OptionalClasses,
  DesignedTrees,
  ConditionsAreTriedFirst,
  ClaimsOfDomains,
  ClaimsOfNoRoot,
  ClaimsOfFork,
  ClaimsOfUncovered,
  ClaimsOfAdmitted,
  ClaimsOfExtension,
};
ghost use Rattle.bye_pattern.specs.WorkedWritten.{BlocksAfterOptionals, PlaceMatters, RulesByPlace, SplitFilters};

/// The answers of a query with an OPTIONAL group over people with and without mail.
pub fn optional_answers()
    ensures { OptionalAnswers }
{}

/// A row on which a filter is an error is dropped.
pub fn errors_drop_rows()
    ensures { ErrorsDropRows }
{}

/// What is written of queries with an OPTIONAL group and with a filter.
pub fn written_texts()
    ensures { WrittenTexts }
{}

/// A query of the class with OPTIONAL groups that fits, and rows over which it is not of the class.
pub fn optional_classes()
    ensures { OptionalClasses }
{}

/// A well-designed tree, and three that break a rule.
pub fn designed_trees()
    ensures { DesignedTrees }
{}

/// A query that is kept because conditions are tried before triples.
pub fn conditions_are_tried_first()
    ensures { ConditionsAreTriedFirst }
{}

/// Two rows that do not bind the same variables.
pub fn claims_of_domains()
    ensures { ClaimsOfDomains }
{}

/// Rows that have no variable in common.
pub fn claims_of_no_root()
    ensures { ClaimsOfNoRoot }
{}

/// A domain within two others that are not nested.
pub fn claims_of_fork()
    ensures { ClaimsOfFork }
{}

/// A variable that no triple pattern can contain.
pub fn claims_of_uncovered()
    ensures { ClaimsOfUncovered }
{}

/// An unwanted row that nothing keeps away.
pub fn claims_of_admitted()
    ensures { ClaimsOfAdmitted }
{}

/// A wanted row that can be extended.
pub fn claims_of_extension()
    ensures { ClaimsOfExtension }
{}

/// A query with triples after its OPTIONAL, and a row of it.
pub fn blocks_after_optionals()
    ensures { BlocksAfterOptionals }
{}

/// Two queries that break a rule because triples come after their OPTIONAL.
pub fn rules_by_place()
    ensures { RulesByPlace }
{}

/// These two, as they are written, have other answers than their trees.
pub fn place_matters()
    ensures { PlaceMatters }
{}

/// A FILTER that is split into conditions of the root and an outer expression.
pub fn split_filters()
    ensures { SplitFilters }
{}
