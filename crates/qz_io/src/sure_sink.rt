//! A sink in memory that never fails.
ghost use Rattle.std.specs.Prelude.{◌≡◌, ◌≢◌, ◌≤◌, ◌++◌, [], length, true, Some, IfOk, OnOk, OnErr};
ghost use Rattle.qz_io.specs.Counts.{counted};

use crate::fault::IoFault;
use crate::sink::Sink;
use std::alloc::Global;
use std::marker::Model;

/// Keeps what is written. It never fails, but memory may run out.
#[derive(Debug, Drop)]
pub struct SureSink {
    written: Vec<u8>,
    wants: u64,
}

impl Model for SureSink {
    ghost use Rattle.qz_io.specs.SureSink.{Content};

    ghost Value = { Content };

    ghost view = { λ s. record { written = s.written.items; wants = s.wants } };
}

impl SureSink {
    /// Nothing is written yet.
    pub fn new(alloc: Global) -> SureSink
        ensures { result ≡ record { written = []; wants = 0 } }
    {
        SureSink {
            written: Vec::new(alloc),
            wants: 0,
        }
    }

    /// What is written.
    pub fn written(&self) -> &[u8]
        ensures { result.now ≡ self.now.written }
    {
        self.written.as_slice()
    }

    /// How often it has wanted memory in vain.
    pub fn wants(&self) -> u64
        ensures { result ≡ self.now.wants }
    {
        self.wants
    }
}

impl Sink for SureSink {
    ghost written = { λ s. Some s.written };

    ghost faults = { λ _. 0 };

    ghost wants = { λ s. s.wants };

    ghost answers_faults = { true };

    fn write(&mut self, piece: &[u8]) -> Result<usize, IoFault>
        ensures never_failed { result ≢ Err IoFault.Failed }
        ensures whole { IfOk result (λ k. k ≡ length piece.now) }
        ensures ok { OnOk result (self.new ≡ record self.old { written = self.old.written ++ piece.now }) }
        ensures wanted { OnErr result (self.new ≡ record self.old { wants = counted self.old.wants }) }
        ensures wants { self.old.wants ≤ self.new.wants }
    {
        if self.written.extend_from_slice(piece).is_err() {
            self.wants = self.wants.saturating_add(1);
            return Err(IoFault::Memory);
        }
        Ok(piece.len())
    }
}
