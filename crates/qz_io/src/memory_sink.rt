//! A sink in memory that fails at given places.
ghost use Rattle.std.specs.Prelude.{◌≡◌, ◌≤◌, ◌↔◌, ◌++◌, [], length, take, drop, true, Some, IfOk};
ghost use Rattle.qz_io.specs.Counts.{counted};
ghost use Rattle.qz_io.specs.Stops.{IsAtStop, before_stop};

use crate::fault::IoFault;
use crate::sink::Sink;
use crate::stops::Stops;
use crate::sure_sink::SureSink;
use std::alloc::Global;
use std::marker::Model;

/// Keeps what is written. A write at the first stop that is left fails and strikes that stop; a write before it
/// moves no byte past it. Stops are meant to rise. Equal stops fail one after the other; a first stop that lies
/// behind what is written is never struck, so that neither it nor any after it holds anything back.
#[derive(Debug, Drop)]
pub struct MemSink {
    sink: SureSink,
    stops: Stops,
}

impl Model for MemSink {
    ghost use Rattle.qz_io.specs.MemSink.{StoppingContent};

    ghost Value = { StoppingContent };

    ghost view = { λ s. record { written = s.sink.written; stops = s.stops.places; faults = s.stops.faults; wants = s.sink.wants } };
}

impl MemSink {
    /// Nothing is written yet.
    pub fn new(alloc: Global, stops: Vec<u64>) -> MemSink
        ensures { result ≡ record { written = []; stops = stops.items; faults = 0; wants = 0 } }
    {
        MemSink {
            sink: SureSink::new(alloc),
            stops: Stops::new(stops),
        }
    }

    /// What is written.
    pub fn written(&self) -> &[u8]
        ensures { result.now ≡ self.now.written }
    {
        self.sink.written()
    }

    /// How often it has failed.
    pub fn faults(&self) -> u64
        ensures { result ≡ self.now.faults }
    {
        self.stops.faults()
    }

    /// How often it has wanted memory in vain.
    pub fn wants(&self) -> u64
        ensures { result ≡ self.now.wants }
    {
        self.sink.wants()
    }
}

impl Sink for MemSink {
    ghost written = { λ s. Some s.written };

    ghost faults = { λ s. s.faults };

    ghost wants = { λ s. s.wants };

    ghost answers_faults = { true };

    fn write(&mut self, piece: &[u8]) -> Result<usize, IoFault>
        ensures stopped { (result ≡ Err IoFault.Failed) ↔ IsAtStop self.old.stops (length self.old.written) }
        ensures amount { IfOk result (λ k. k ≡ before_stop (length self.old.written) self.old.stops (length piece.now)) }
        ensures ok { IfOk result (λ k. self.new ≡ record self.old { written = self.old.written ++ take k piece.now }) }
        ensures struck { result ≡ Err IoFault.Failed → self.new ≡ record self.old { stops = drop 1 self.old.stops; faults = counted self.old.faults } }
        ensures wanted { result ≡ Err IoFault.Memory → self.new ≡ record self.old { wants = counted self.old.wants } }
        ensures faults { self.old.faults ≤ self.new.faults }
        ensures wants { self.old.wants ≤ self.new.wants }
    {
        let Some(room) = self
            .stops
            .pass(self.sink.written().len() as u64, piece.len())
        else {
            return Err(IoFault::Failed);
        };
        self.sink.write(piece.split_at(room).0)
    }
}
