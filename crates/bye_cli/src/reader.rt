//! How a document is read.

ghost use Rattle.std.specs.Prelude.{◌≡◌, ◌≤◌, length, IfOk, IfErr};
ghost use Rattle.bye_cli.specs.Documents.{Kind, Value, limit_of, role_of, IsVerdict, Good};
ghost use Rattle.bye_cli.specs.Causes.{IsUnfit};

use bye_words::{Refusal, Role};
use std::alloc::Global;

/// What reads a document.
pub trait Reader {
    /// What is read.
    type Read: Drop;

    /// What the document is read as.
    ghost kind: { Self → Kind };

    /// What the document says.
    ghost value: { Self.Read → Value };

    /// The role of the document.
    fn role(&self) -> Role
        ensures { result ≡ role_of (kind self.now) };

    /// The greatest number of its bytes.
    fn limit(&self) -> u64
        ensures { result ≡ limit_of (kind self.now) };

    /// What the bytes say, which are within the limit; or why they are no such document.
    fn read(&self, alloc: Global, bytes: &[u8]) -> Result<Self::Read, Refusal>
        requires { length bytes.now ≤ limit_of (kind self.now) }
        ensures good { IfOk result (λ read. IsVerdict (kind self.now) bytes.now (Good (value read))) }
        ensures unfit { IfErr result (IsUnfit (kind self.now) bytes.now) };
}
