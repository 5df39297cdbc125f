/// A machine after one more character: moved on, or as it stood before, where no continuation is a token.
#[derive(Debug, Drop)]
pub enum Stepped<S> {
    On(S),
    Off(S),
}
