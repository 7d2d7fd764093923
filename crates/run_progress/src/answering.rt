//! A writer of the answer of a run whose line is shown.

ghost use Rattle.std.specs.Prelude.{◌≡◌};

use crate::progress::Progress;
use std::io;
use std::io::{Print, Write};
use std::time::Clock;

/// A writer that wipes the line of a run before it hands on what is written.
#[derive(Drop)]
pub struct Answering<'a, C: Clock, P: Print, W: Write> {
    progress: &'a Progress<C, P>,
    writer: W,
}

impl<'a, C: Clock, P: Print, W: Write> Answering<'a, C, P, W> {
    pub(crate) fn new(progress: &'a Progress<C, P>, writer: W) -> Answering<'a, C, P, W>
        ensures { ⟦<Answering<'a, C, P, W> as Write>⟧.contents result ≡ W.contents writer }
    {
        Answering { progress, writer }
    }
}

impl<C: Clock, P: Print, W: Write> Write for Answering<'_, C, P, W> {
    ghost contents = { λ answering. W.contents answering.writer };

    /// What is told as taken is what the writer below has taken.
    fn write(&mut self, buf: &[u8]) -> io::Result<usize> {
        self.progress.wipe();
        self.writer.write(buf)
    }

    fn flush(&mut self) -> io::Result<()> {
        self.writer.flush()
    }
}
