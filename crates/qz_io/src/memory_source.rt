//! A source in memory that fails at given places.
ghost use Rattle.std.specs.Prelude.{◌≡◌, ◌≢◌, ◌≤◌, ◌↔◌, ◌+◌, ◌++◌, length, min, take, drop, true, false, Some, IfOk, OnErr};
ghost use Rattle.qz_io.specs.Counts.{counted};
ghost use Rattle.qz_io.specs.Stops.{IsAtStop, before_stop};

use crate::fault::IoFault;
use crate::source::Source;
use crate::stops::Stops;
use crate::sure_source::SureSource;
use std::marker::Model;

/// Gives the bytes that it was made of. A read at the first stop that is left fails and strikes that stop; a read before
/// it moves no byte past it. Stops are meant to rise. Equal stops fail one after the other; a first stop that lies behind
/// what was taken is never struck, so that neither it nor any after it holds anything back.
#[derive(Debug, Drop)]
pub struct MemSource {
    source: SureSource,
    stops: Stops,
}

impl Model for MemSource {
    ghost use Rattle.qz_io.specs.MemSource.{StoppingReading};

    ghost Value = { StoppingReading };

    ghost view = { λ s. record { done = s.source.done; left = s.source.left; stops = s.stops.places; faults = s.stops.faults } };
}

impl MemSource {
    /// Nothing is taken yet.
    pub fn new(bytes: Vec<u8>, stops: Vec<u64>) -> MemSource
        ensures { result ≡ record { done = 0; left = bytes.items; stops = stops.items; faults = 0 } }
    {
        MemSource {
            source: SureSource::new(bytes),
            stops: Stops::new(stops),
        }
    }

    /// What is left.
    pub fn left(&self) -> &[u8]
        ensures { result.now ≡ self.now.left }
    {
        self.source.left()
    }

    /// How often it has failed.
    pub fn faults(&self) -> u64
        ensures { result ≡ self.now.faults }
    {
        self.stops.faults()
    }
}

impl Source for MemSource {
    ghost left = { λ s. Some s.left };

    ghost faults = { λ s. s.faults };

    ghost answers_faults = { true };

    ghost has_ended = { λ _. false };

    ghost late_reads = { λ _. 0 };

    fn read(&mut self, piece: &mut [u8]) -> Result<usize, IoFault>
        ensures stopped { (result ≡ Err IoFault.Failed) ↔ IsAtStop self.old.stops self.old.done }
        ensures never_memory { result ≢ Err IoFault.Memory }
        ensures amount { IfOk result (λ k. k ≡ min (before_stop self.old.done self.old.stops (length piece.old)) (length self.old.left)) }
        ensures filled { IfOk result (λ k. piece.new ≡ take k self.old.left ++ drop k piece.old) }
        ensures taken { IfOk result (λ k. self.new ≡ record self.old { done = self.old.done + k; left = drop k self.old.left }) }
        ensures struck { OnErr result (self.new ≡ record self.old { stops = drop 1 self.old.stops; faults = counted self.old.faults }) }
        ensures untouched { OnErr result (piece.new ≡ piece.old) }
        ensures faults { self.old.faults ≤ self.new.faults }
    {
        let Some(room) = self.stops.pass(self.source.done(), piece.len()) else {
            return Err(IoFault::Failed);
        };
        Ok(self.source.take_into(piece, room))
    }
}
