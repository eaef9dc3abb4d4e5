// A writer of std as a sink.
ghost use Rattle.std.specs.Prelude.{◌≡◌, false};

use crate::streams::{Failed, Sink};
use std::io::Write;

/// A writer of std as a sink. It tells the bytes that the writer tells, which a file, a pipe and a
/// terminal do not. Each error of the writer is counted as a fault, and so is a write of a piece
/// that is not empty of which the writer takes nothing.
#[derive(Debug, Drop)]
pub struct StdSink<W> {
    inner: W,
    faults: u64,
    finished: bool,
}

impl<W: Write> StdSink<W> {
    /// A sink over this writer. It takes no memory.
    pub fn new(inner: W) -> StdSink<W>
        ensures taken { ⟦<StdSink<W> as Sink>⟧.taken result ≡ W.contents inner }
        ensures faults { ⟦<StdSink<W> as Sink>⟧.faults result ≡ 0 }
        ensures finished { ⟦<StdSink<W> as Sink>⟧.finished result ≡ false }
    {
        StdSink {
            inner,
            faults: 0,
            finished: false,
        }
    }
}

impl<W: Write> Sink for StdSink<W> {
    ghost taken = { λ sink. W.contents sink.inner };

    ghost faults = { λ sink. sink.faults };

    ghost finished = { λ sink. sink.finished };

    /// One write of the writer, or none for an empty piece.
    fn write(&mut self, piece: &[u8]) -> Result<usize, Failed> {
        if piece.is_empty() {
            return Ok(0);
        }
        match self.inner.write(piece) {
            Ok(count) if count > 0 => {
                self.finished = false;
                Ok(count)
            }
            _ => {
                self.faults = self.faults.saturating_add(1);
                Err(Failed)
            }
        }
    }

    /// One flush of the writer.
    fn finish(&mut self) -> Result<(), Failed> {
        match self.inner.flush() {
            Ok(()) => {
                self.finished = true;
                Ok(())
            }
            Err(_) => {
                self.faults = self.faults.saturating_add(1);
                Err(Failed)
            }
        }
    }
}
