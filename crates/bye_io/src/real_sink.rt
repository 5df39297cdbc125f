ghost use Rattle.std.specs.Prelude.{◌≡◌, ◌<◌, ◌≤◌, None, length, IfOk, OnOk, OnErr};
ghost use Rattle.std.specs.Io.{WritesAtMost};
ghost use Rattle.std.specs.Io.KnownBytes.{WriteAppends};
ghost use Rattle.bye_io.specs.Counts.{raised, Rose};

use crate::fault::Failed;
use crate::sink::Sink;
use std::io::Write;

/// A writer of the system as a sink. It tells no content.
#[derive(Drop)]
pub struct RealSink<W: Write + Drop> {
    writer: W,
    faults: u64,
}

/// Standard output.
pub type RealOut<W> = RealSink<W>;

/// Standard error.
pub type RealErr<W> = RealSink<W>;

impl<W: Write + Drop> RealSink<W> {
    ghost use Rattle.bye_io.specs.Real.{real_writer};

    /// Over a writer of which no call failed yet.
    pub fn new(writer: W) -> Self
        ensures writer { real_writer result ≡ writer }
        ensures faults { ⟦<RealSink<W> as Sink>⟧.faults result ≡ 0 }
    {
        RealSink { writer, faults: 0 }
    }
}

impl<W: Write + Drop> Sink for RealSink<W> {
    ghost use Rattle.bye_io.specs.Real.{real_writer, write_faults};

    ghost Aside = { Unit {0} };

    ghost sent = { λ s. None };

    ghost faults = { write_faults };

    ghost doors = { λ s. 0 };

    ghost aside = { λ s. tt };

    fn write(&mut self, piece: &[u8]) -> Result<usize, Failed>
        requires { 0 < length piece.now }
        ensures bound { WritesAtMost result piece.now }
        ensures some { IfOk result (λ n. 0 < n) }
        ensures cause { OnErr result (Rose (write_faults self.old) (write_faults self.new)) }
        ensures later { write_faults self.old ≤ write_faults self.new }

        // The writer gets the bytes. An error is a fault, and so is a write that takes nothing.
        ensures bytes { WriteAppends (W.contents (real_writer self.old))
            (W.contents (real_writer self.new)) result piece.now }
        ensures fault { OnErr result (write_faults self.new ≡ raised (write_faults self.old)) }
        ensures no_fault { OnOk result (write_faults self.new ≡ write_faults self.old) }
    {
        match self.writer.write(piece) {
            Ok(n) if n > 0 => Ok(n),
            _ => {
                self.faults = self.faults.saturating_add(1);
                Err(Failed)
            }
        }
    }
}
