//! A sink over a writer.

ghost use Rattle.std.specs.Prelude.{◌≡◌, ◌<◌, length, None, IfOk};
ghost use Rattle.std.specs.Result.{is_err};
ghost use Rattle.std.specs.Io.{WritesAtMost};
ghost use Rattle.plan_io.specs.Causes.{HasCause, faults_after};

use crate::counts::fault_more;
use crate::failed::Failed;
use crate::sink::Sink;
use std::io::Write;

/// A writer, with a count of its faults. It tells no bytes. Hand in one that keeps nothing back: a
/// sink is never flushed.
#[derive(Drop)]
pub struct OutSink<W: Write> {
    writer: W,
    faults: u64,
}

impl<W: Write> OutSink<W> {
    /// A sink over this writer, without a fault so far.
    pub fn new(writer: W) -> Self
        ensures { ⟦<OutSink<W> as Sink>⟧.faults result ≡ 0 }
    {
        OutSink { writer, faults: 0 }
    }

    /// How many calls have failed.
    pub fn faults(&self) -> u64
        ensures { result ≡ ⟦<OutSink<W> as Sink>⟧.faults self.now }
    {
        self.faults
    }
}

impl<W: Write> Sink for OutSink<W> {
    ghost contents = { λ _. None };

    ghost faults = { λ sink. sink.faults };

    /// An error is a fault, and so is a writer that takes nothing of a piece that is not empty.
    fn write(&mut self, piece: &[u8]) -> Result<usize, Failed>
        ensures bound { WritesAtMost result piece.now }
        ensures some { IfOk result (λ n. 0 < length piece.now → 0 < n) }
        ensures cause { HasCause self.old.faults self.new.faults result }

        // A fault is counted exactly where the call fails.
        ensures counted { self.new.faults ≡ faults_after self.old.faults (is_err result) }
    {
        match self.writer.write(piece) {
            Ok(count) if count > 0 || piece.is_empty() => Ok(count),
            _ => {
                self.faults = fault_more(self.faults);
                Err(Failed)
            }
        }
    }
}
