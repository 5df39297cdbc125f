//! What is begun with.

ghost use Rattle.bye_laws.specs.Beginning.{StartsAreThereAndOne};
ghost use Rattle.bye_laws.specs.Completeness.{NoneFitsAsTheStart, StartsAreRight, StartsByCovering, StartsFitIfAny};
ghost use Rattle.bye_laws.specs.Later.{NearIsEnough, StartAnswersAreShared};
ghost use Rattle.bye_laws.specs.Strongest.{StrongestNodes};

/// The strongest node over some variables and rows is there and one, and over those of a domain it is the start's.
pub fn strongest_nodes()
    ensures { StrongestNodes }
{}

/// Each class has one start, exactly where no claim shows about which rows bind which variables.
pub fn starts_are_there_and_one()
    ensures { StartsAreThereAndOne }
{}

/// A start is of its class exactly where no variable is uncovered.
pub fn starts_by_covering()
    ensures { StartsByCovering }
{}

/// A start that is of its class is right exactly where no unwanted row is admitted, or no wanted row can be extended.
pub fn starts_are_right()
    ensures { StartsAreRight }
{}

/// Where any query of the class fits, the start does.
pub fn starts_fit_if_any()
    ensures { StartsFitIfAny }
{}

/// No query of the class fits exactly where the start does not.
pub fn none_fits_as_the_start()
    ensures { NoneFitsAsTheStart }
{}

/// Each answer of the start of one conjunction is an answer of each query of the class that fits.
pub fn start_answers_are_shared()
    ensures { StartAnswersAreShared }
{}

/// The triples with terms of the rows in them say all of one conjunction that the graph says.
pub fn near_is_enough()
    ensures { NearIsEnough }
{}
