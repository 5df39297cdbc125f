/// The name of a form of the words.
#[derive(Debug, Clone, Copy, PartialEq, Eq)]
pub enum FormName {
    /// `learn` from a graph and a table.
    Learn,
    /// `convert` of a graph.
    Convert,
    /// `convert` of a table.
    ConvertTable,
    /// `run` of a query over a graph.
    Run,
}
