use thiserror::Error;

/// A call on an object of the outside failed.
#[derive(Debug, Drop, Error)]
#[error("the object failed")]
pub struct Failed;

/// Why `read_all` gave no bytes.
#[derive(Debug, Drop, Error)]
pub enum ReadErr {
    #[error("more bytes than the limit were left")]
    TooLong,
    #[error("a read failed")]
    Failed,
    #[error("memory was refused")]
    Memory,
}
