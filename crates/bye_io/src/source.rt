ghost use Rattle.std.specs.Prelude.{◌≡◌, ◌+◌, ◌<◌, ◌≤◌, ◌^◌, List, ℕ, Option, length, take, IfOk, OnOk, OnErr, IsOk, IsErrOf, ◌⊎◌};
ghost use Rattle.std.specs.Io.{ReadsAtMost};
ghost use Rattle.std.specs.Io.KnownBytes.{Consumes, IsAtEnd, Keeps};
ghost use Rattle.bye_io.specs.Bytes.{AreLeft, IsLonger, IsToldLonger, IsToldWithin, Loses, LosesAtMost};
ghost use Rattle.bye_io.specs.Counts.{Rose};

use crate::fault::{Failed, ReadErr};
use std::alloc::Global;

/// Bytes that are read from the front on.
pub trait Source {
    /// What the object tells beside the bytes that are left.
    ghost Aside: { Type 0 };

    /// The bytes that are left, where the object tells them.
    ghost left: { Self → Option (List ℕ) };

    /// How many of the object's calls failed. It stays at the largest `u64`.
    ghost faults: { Self → ℕ };

    /// How many of those failed to begin a conversation.
    ghost doors: { Self → ℕ };

    ghost aside: { Self → Aside };

    /// Reads some bytes into the buffer, and tells how many: 0 at the end alone.
    fn read(&mut self, buf: &mut [u8]) -> Result<usize, Failed>
        requires { 0 < length buf.old }
        ensures bound { ReadsAtMost result buf.new }
        ensures taken { IfOk result (λ n.
            Consumes (left self.old) (left self.new) (take n buf.new)) }
        ensures end { IfOk result (λ n. n ≡ 0 → IsAtEnd (left self.new)) }

        // `Failed` comes only where the count rose.
        ensures kept { OnErr result (Keeps (left self.old) (left self.new)) }
        ensures cause { OnErr result (Rose (faults self.old) (faults self.new)) }

        ensures later { faults self.old ≤ faults self.new }
        ensures doors { doors self.new ≡ doors self.old }
        ensures aside { aside self.new ≡ aside self.old };
}

// The bytes of one read.
const BUFFER: usize = 65536;

/// Reads all that is left, where that is at most `limit` bytes.
/// After an error the bytes that were read are lost.
pub fn read_all<S: Source>(alloc: Global, src: &mut S, limit: u64) -> Result<Vec<u8>, ReadErr>
    requires { limit < 2 ^ 63 }

    ensures whole { IfOk result (λ v. AreLeft (S.left src.old) v.items) }
    ensures within { IfOk result (λ v. length v.items ≤ limit) }
    ensures emptied { OnOk result (IsAtEnd (S.left src.new)) }

    // `TooLong` comes only where more is left, and there wherever the count did not rise.
    ensures too_long { IsErrOf result ReadErr.TooLong → IsLonger (S.left src.old) limit }
    ensures past { IsErrOf result ReadErr.TooLong →
        Loses (S.left src.old) (S.left src.new) (limit + 1) }
    ensures longer { IsToldLonger (S.left src.old) limit → ¬ (Rose (S.faults src.old) (S.faults src.new)) →
        IsErrOf result ReadErr.TooLong ⊎ IsErrOf result ReadErr.Memory }

    // `Failed` comes only where the count rose, so nothing but memory can stop a short enough read there.
    ensures failed { IsErrOf result ReadErr.Failed → Rose (S.faults src.old) (S.faults src.new) }
    ensures short { IsToldWithin (S.left src.old) limit → ¬ (Rose (S.faults src.old) (S.faults src.new)) →
        IsOk result ⊎ IsErrOf result ReadErr.Memory }

    ensures taken { LosesAtMost (S.left src.old) (S.left src.new) (limit + 1) }
    ensures later { S.faults src.old ≤ S.faults src.new }
    ensures doors { S.doors src.new ≡ S.doors src.old }
    ensures aside { S.aside src.new ≡ S.aside src.old }
{
    let mut all = Vec::new(alloc);
    let mut buf = [0u8; BUFFER];
    while (all.len() as u64) <= limit {
        let room = (limit + 1 - all.len() as u64).min(BUFFER as u64) as usize;
        let Ok(n) = src.read(&mut buf[..room]) else {
            return Err(ReadErr::Failed);
        };
        if n == 0 {
            return Ok(all);
        }
        all.extend_from_slice(&buf[..n])
            .map_err(|_| ReadErr::Memory)?;
    }
    Err(ReadErr::TooLong)
}
