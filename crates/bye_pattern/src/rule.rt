/// What each group of a well-designed tree keeps, in the order in which the rules are judged.
#[derive(Debug, Drop)]
pub enum Rule {
    NoTriples,
    NoNewVariable,
    NotWellDesigned,
    UnsafeCondition,
}
