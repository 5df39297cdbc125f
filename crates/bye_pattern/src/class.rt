/// A class of queries: one group, or groups with OPTIONAL.
#[derive(Debug, Drop)]
pub enum Class {
    And,
    Optional,
}
