/// How a command ends that was answered.
#[derive(Debug, Clone, Copy)]
pub enum Ending {
    /// Its work was done.
    Done,
    /// No query of the class fits.
    Refused,
}
