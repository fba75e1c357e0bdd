//! Standard input as a source.
ghost use Rattle.std.specs.Prelude.{◌≡◌, ◌≢◌, ◌≤◌, true, false, length, None, IfOk};
ghost use Rattle.std.specs.Io.KnownBytes.{ReadConsumes};
ghost use Rattle.qz_io.specs.Counts.{counted};
ghost use Rattle.qz_io.specs.StdSource.{InputStream};

use crate::fault::IoFault;
use crate::source::Source;
use std::io::Read;
use std::marker::Model;

/// Reads from a stream of the system. As a source it tells nothing of its content. Each failure that it answers is
/// counted once, also one that a second try would make good.
#[derive(Drop)]
pub struct StdSource<R: Read + Drop> {
    stream: R,
    faults: u64,
}

impl<R: Read + Drop> Model for StdSource<R> {
    ghost use Rattle.qz_io.specs.StdSource.{InputStream};

    ghost Value = { InputStream };

    ghost view = { λ s. record { left = R.remaining s.stream; faults = s.faults } };
}

impl<R: Read + Drop> StdSource<R> {
    /// A source that has not failed yet. Each read of it is one read of the stream.
    pub fn new(stream: R) -> Self
        ensures { result ≡ record { left = R.remaining stream; faults = 0 } }
    {
        StdSource { stream, faults: 0 }
    }

    /// How often it has failed.
    pub fn faults(&self) -> u64
        ensures { result ≡ self.now.faults }
    {
        self.faults
    }
}

impl<R: Read + Drop> Source for StdSource<R> {
    ghost left = { λ _. None };

    ghost faults = { λ s. s.faults };

    ghost answers_faults = { true };

    ghost has_ended = { λ _. false };

    ghost late_reads = { λ _. 0 };

    fn read(&mut self, piece: &mut [u8]) -> Result<usize, IoFault>
        ensures within { IfOk result (λ k. k ≤ length piece.old) }
        ensures faults { self.old.faults ≤ self.new.faults }

        // The stream gave exactly those bytes; or it failed, which is counted once, and gave none.
        ensures gave { ReadConsumes self.old.left self.new.left result piece.new }
        ensures uncounted { IfOk result (λ _. self.new.faults ≡ self.old.faults) }
        ensures counted_once { result ≡ Err IoFault.Failed → self.new.faults ≡ counted self.old.faults }
        ensures never_memory { result ≢ Err IoFault.Memory }
    {
        match self.stream.read(piece) {
            Ok(count) => Ok(count),
            Err(_) => {
                self.faults = self.faults.saturating_add(1);
                Err(IoFault::Failed)
            }
        }
    }
}
