//! What passes leave and what is kept.

ghost use Rattle.bye_laws.specs.LocalPass.{LocalPassKeeps};
ghost use Rattle.bye_laws.specs.Passing.{KeptIsMinimal, KeptIsOne, PassesKeepRight, SomethingIsKept};
ghost use Rattle.bye_laws.specs.Serving.{LocalQuestions};
ghost use Rattle.bye_laws.specs.Settling.{PassesAreLocal, Settling};

/// Whatever is kept is one query.
pub fn kept_is_one()
    ensures { KeptIsOne }
{}

/// A start has a query that is kept of it.
pub fn something_is_kept()
    ensures { SomethingIsKept }
{}

/// What is kept of a start that is right is right and minimal.
pub fn kept_is_minimal()
    ensures { KeptIsMinimal }
{}

/// What a pass leaves of any query that is right is right and minimal, and a part of it in its order.
pub fn passes_keep_right()
    ensures { PassesKeepRight }
{}

/// The way from a query that is right to its nodes, and back.
pub fn settling()
    ensures { Settling }
{}

/// For any query that is right, the pass that asks at each node alone is the pass over the whole query.
pub fn passes_are_local()
    ensures { PassesAreLocal }
{}

/// The pass that asks at each node alone keeps what is kept.
pub fn local_pass_keeps()
    ensures { LocalPassKeeps }
{}

/// What is asked at a node before a conjunct goes.
pub fn local_questions()
    ensures { LocalQuestions }
{}
