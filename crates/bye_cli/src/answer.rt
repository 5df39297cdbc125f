//! What a command writes.

use crate::ending::Ending;

/// The bytes that are to be written, and how the command ends that has written them.
#[derive(Debug, Drop)]
pub struct Answer {
    pub bytes: Vec<u8>,
    pub ending: Ending,
}
