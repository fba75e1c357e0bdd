//! A shelf in memory that fails at given places.
ghost use Rattle.std.specs.Prelude.{◌≡◌, ◌≢◌, ◌≤◌, ◌↔◌, ◌++◌, length, min, take, drop, true, false, is_some, IsTrue, IfOk, OnOk, OnErr, option_map, Some, None};
ghost use Rattle.qz_io.specs.Counts.{counted};
ghost use Rattle.qz_io.specs.Files.{files_of};
ghost use Rattle.qz_io.specs.Stops.{IsAtStop, before_stop};
ghost use Rattle.qz_io.specs.SureSource.{at_beginning, after};
ghost use Rattle.qz_io.specs.SureShelf.{rest_of, reading_of};

use crate::fault::IoFault;
use crate::named::Named;
use crate::shelf::Shelf;
use crate::stops::Stops;
use crate::sure_shelf::SureShelf;
use std::marker::Model;

/// Keeps files. The first of two with equal names counts. The first opening fails if told to. A read at the first stop
/// that is left fails and strikes that stop; a read before it moves no byte past it. Stops are offsets in the file that
/// is open, and are meant to rise. Equal stops fail one after the other; while the first one lies behind what was taken
/// of the file, neither it nor any after it holds anything back.
#[derive(Debug, Drop)]
pub struct MemShelf {
    shelf: SureShelf,
    stops: Stops,
    fail_open: bool,
}

impl Model for MemShelf {
    ghost use Rattle.qz_io.specs.MemShelf.{StoppingHoldings};

    ghost Value = { StoppingHoldings };

    ghost view = { λ s. record { files = s.shelf.files; opened = s.shelf.opened; stops = s.stops.places; faults = s.stops.faults; fail_open = s.fail_open } };
}

impl MemShelf {
    /// No file is open yet.
    pub fn new(files: Vec<Named>, stops: Vec<u64>, fail_open: bool) -> MemShelf
        ensures { result ≡ record { files = files.items; opened = None; stops = stops.items; faults = 0; fail_open = fail_open } }
    {
        MemShelf {
            shelf: SureShelf::new(files),
            stops: Stops::new(stops),
            fail_open,
        }
    }

    /// How often it has failed.
    pub fn faults(&self) -> u64
        ensures { result ≡ self.now.faults }
    {
        self.stops.faults()
    }
}

impl Shelf for MemShelf {
    ghost files = { λ s. Some (files_of s.files) };

    ghost rest = { λ s. rest_of s.opened };

    ghost is_open = { λ s. is_some s.opened };

    ghost faults = { λ s. s.faults };

    ghost answers_faults = { true };

    ghost has_ended = { λ _. false };

    ghost late_reads = { λ _. 0 };

    fn open(&mut self, name: &str) -> Result<bool, IoFault>
        ensures told_to_fail { (result ≡ Err IoFault.Failed) ↔ IsTrue self.old.fail_open }
        ensures never_memory { result ≢ Err IoFault.Memory }
        ensures found { IfOk result (λ found. found ≡ is_some (files_of self.old.files name.now)) }
        ensures opened { OnOk result (self.new ≡ record self.old { opened = option_map at_beginning (files_of self.old.files name.now) }) }
        ensures struck { OnErr result (self.new ≡ record self.old { faults = counted self.old.faults; fail_open = false }) }
        ensures faults { self.old.faults ≤ self.new.faults }
    {
        if self.fail_open {
            self.fail_open = false;
            self.stops.count();
            return Err(IoFault::Failed);
        }
        self.shelf.open(name)
    }

    fn read(&mut self, piece: &mut [u8]) -> Result<usize, IoFault>
        requires { IsTrue (is_some self.old.opened) }
        ensures stopped { (result ≡ Err IoFault.Failed) ↔ IsAtStop self.old.stops (reading_of self.old.opened).done }
        ensures never_memory { result ≢ Err IoFault.Memory }
        ensures amount { let reading = reading_of self.old.opened in IfOk result (λ k. k ≡ min (before_stop reading.done self.old.stops (length piece.old)) (length reading.left)) }
        ensures filled { IfOk result (λ k. piece.new ≡ take k (reading_of self.old.opened).left ++ drop k piece.old) }
        ensures taken { IfOk result (λ k. self.new ≡ record self.old { opened = Some (after k (reading_of self.old.opened)) }) }
        ensures struck { OnErr result (self.new ≡ record self.old { stops = drop 1 self.old.stops; faults = counted self.old.faults }) }
        ensures untouched { OnErr result (piece.new ≡ piece.old) }
        ensures faults { self.old.faults ≤ self.new.faults }
    {
        let Some(room) = self.stops.pass(self.shelf.done(), piece.len()) else {
            return Err(IoFault::Failed);
        };
        Ok(self.shelf.take_into(piece, room))
    }
}
