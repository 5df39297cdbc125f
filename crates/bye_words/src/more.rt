use bye_terms::Text;

/// What follows a text in a line.
#[derive(Clone, Copy)]
pub enum More<'a> {
    Nothing,
    Number(u64),
    /// Two numbers, and what stands between them.
    Numbers(u64, &'static str, u64),
    /// A number, and a word.
    Word(u64, &'a Text),
    /// The numbers on the way to a node.
    Node(&'a [u32]),
}
