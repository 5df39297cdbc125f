//! Worked examples of queries that are kept, each the contract of a function that does nothing.

ghost use Rattle.bye_laws.specs.Worked.{MailsAreKept, OuterPatternsAreKept, KindTestsAreKept};

/// A query with an OPTIONAL group that is kept, over wanted rows with mail and without.
pub fn mails_are_kept()
    ensures { MailsAreKept }
{}

/// A pattern of the outer variable alone that is kept in an OPTIONAL group, since without it a wanted row is extended.
pub fn outer_patterns_are_kept()
    ensures { OuterPatternsAreKept }
{}

/// A kind test that is kept at the second level, over rows that no query of the first level tells apart.
pub fn kind_tests_are_kept()
    ensures { KindTestsAreKept }
{}
