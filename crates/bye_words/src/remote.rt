use crate::count::Count;
use crate::fault::Fault;
use crate::reply_fault::ReplyFault;

/// Why the reply of a peer is no answer.
#[derive(Debug, Drop)]
pub enum Remote {
    /// Its status is this number.
    Status(u16),
    /// It is of another media type.
    Media,
    /// Its table is not of its form.
    Results(Fault),
    /// Its table passes a limit.
    Limit(Count),
    /// It is no message.
    Reply(ReplyFault),
}
