//! Standard output and standard error as sinks.
ghost use Rattle.std.specs.Prelude.{◌≡◌, ◌≢◌, ◌<◌, ◌≤◌, true, length, take, None, IfOk, OnErr};
ghost use Rattle.std.specs.Io.KnownBytes.{Appends, Keeps};
ghost use Rattle.qz_io.specs.Counts.{counted};
ghost use Rattle.qz_io.specs.StdSink.{OutputStream};

use crate::fault::IoFault;
use crate::sink::Sink;
use std::io::Write;
use std::marker::Model;

/// Writes to a stream of the system, one without a buffer: it is never flushed. As a sink it tells nothing of its
/// content. Each failure that it answers is counted once; a write that takes nothing of a piece that isn't empty is one
/// too.
#[derive(Drop)]
pub struct StdSink<W: Write + Drop> {
    stream: W,
    faults: u64,
}

impl<W: Write + Drop> Model for StdSink<W> {
    ghost use Rattle.qz_io.specs.StdSink.{OutputStream};

    ghost Value = { OutputStream };

    ghost view = { λ s. record { taken = W.contents s.stream; faults = s.faults } };
}

impl<W: Write + Drop> StdSink<W> {
    /// A sink that has not failed yet.
    pub fn new(stream: W) -> Self
        ensures { result ≡ record { taken = W.contents stream; faults = 0 } }
    {
        StdSink { stream, faults: 0 }
    }

    /// How often it has failed.
    pub fn faults(&self) -> u64
        ensures { result ≡ self.now.faults }
    {
        self.faults
    }
}

impl<W: Write + Drop> Sink for StdSink<W> {
    ghost written = { λ _. None };

    ghost faults = { λ s. s.faults };

    ghost wants = { λ _. 0 };

    ghost answers_faults = { true };

    fn write(&mut self, piece: &[u8]) -> Result<usize, IoFault>
        ensures within { IfOk result (λ k. k ≤ length piece.now) }
        ensures some { IfOk result (λ k. 0 < length piece.now → 0 < k) }
        ensures faults { self.old.faults ≤ self.new.faults }

        // The stream took exactly those bytes; or it failed, which is counted once, and took none.
        ensures took { IfOk result (λ k. Appends self.old.taken self.new.taken (take k piece.now)) }
        ensures took_none { OnErr result (Keeps self.old.taken self.new.taken) }
        ensures uncounted { IfOk result (λ _. self.new.faults ≡ self.old.faults) }
        ensures counted_once { result ≡ Err IoFault.Failed → self.new.faults ≡ counted self.old.faults }
        ensures never_memory { result ≢ Err IoFault.Memory }
    {
        match self.stream.write(piece) {
            Ok(count) if count > 0 || piece.is_empty() => Ok(count),
            _ => {
                self.faults = self.faults.saturating_add(1);
                Err(IoFault::Failed)
            }
        }
    }
}
