ghost use Rattle.std.specs.Prelude.{◌≡◌, ◌<◌, ◌≤◌, List, ℕ, Option, length, take, IfOk, OnOk, OnErr};
ghost use Rattle.std.specs.Io.{WritesAtMost};
ghost use Rattle.std.specs.Io.KnownBytes.{Appends, Keeps};
ghost use Rattle.bye_io.specs.Bytes.{AppendsPart};
ghost use Rattle.bye_io.specs.Counts.{Rose};

use crate::fault::Failed;

/// Something that bytes are sent to.
pub trait Sink {
    /// What the object tells beside the bytes that were sent.
    ghost Aside: { Type 0 };

    /// The bytes that were sent, where the object tells them.
    ghost sent: { Self → Option (List ℕ) };

    /// How many of the object's calls failed. It stays at the largest `u64`.
    ghost faults: { Self → ℕ };

    /// How many of those failed to begin a conversation.
    ghost doors: { Self → ℕ };

    ghost aside: { Self → Aside };

    /// Sends some of the bytes, from the front on, and tells how many: at least one.
    fn write(&mut self, piece: &[u8]) -> Result<usize, Failed>
        requires { 0 < length piece.now }
        ensures bound { WritesAtMost result piece.now }
        ensures some { IfOk result (λ n. 0 < n) }
        ensures grown { IfOk result (λ n.
            Appends (sent self.old) (sent self.new) (take n piece.now)) }

        // `Failed` comes only where the count rose.
        ensures kept { OnErr result (Keeps (sent self.old) (sent self.new)) }
        ensures cause { OnErr result (Rose (faults self.old) (faults self.new)) }

        ensures later { faults self.old ≤ faults self.new }
        ensures doors { doors self.new ≡ doors self.old }
        ensures aside { aside self.new ≡ aside self.old };
}

/// Sends all the bytes. It takes no memory.
/// Where it fails, a front part was sent that is not all of them.
pub fn write_all<S: Sink>(sink: &mut S, bytes: &[u8]) -> Result<(), Failed>
    ensures whole { OnOk result (Appends (S.sent sink.old) (S.sent sink.new) bytes.now) }
    ensures part { OnErr result (AppendsPart (S.sent sink.old) (S.sent sink.new) bytes.now) }
    ensures cause { OnErr result (Rose (S.faults sink.old) (S.faults sink.new)) }
    ensures later { S.faults sink.old ≤ S.faults sink.new }
    ensures doors { S.doors sink.new ≡ S.doors sink.old }
    ensures aside { S.aside sink.new ≡ S.aside sink.old }
{
    let mut rest = bytes;
    while !rest.is_empty() {
        let n = sink.write(rest)?;
        (_, rest) = rest.split_at(n);
    }
    Ok(())
}
