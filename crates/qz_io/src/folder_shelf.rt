//! The files of the system as a shelf.
ghost use Rattle.std.specs.Prelude.{◌≡◌, ◌≢◌, ◌≤◌, true, false, IsTrue, length, None, IfOk, OnErr};
ghost use Rattle.std.specs.Io.KnownBytes.{ReadConsumes};
ghost use Rattle.qz_io.specs.Counts.{counted};
ghost use Rattle.qz_io.specs.DirShelf.{Opened, IsKept};

use crate::fault::IoFault;
use crate::shelf::Shelf;
use std::fs::File;
use std::io;
use std::io::{ErrorKind, Read};
use std::marker::Model;
use std::rt::Files;

/// Opens the files of the system. A name is a path as it is written. As a shelf it tells nothing of what lies there. Each
/// failure that it answers is counted once; a report that there is no such file isn't one.
#[derive(Drop)]
pub struct DirShelf<D: Files + Drop> {
    directory: D,
    file: Option<D::File>,
    faults: u64,
}

impl<D: Files + Drop> Model for DirShelf<D> {
    ghost use Rattle.std.specs.Prelude.{is_some};
    ghost use Rattle.qz_io.specs.DirShelf.{Opened, rest_of_file};

    ghost Value = { Opened };

    ghost view = { λ s. record { is_open = is_some s.file; rest = rest_of_file D.File.remaining s.file; faults = s.faults } };
}

impl<D: Files + Drop> DirShelf<D> {
    /// A shelf with no open file, which has not failed yet.
    pub fn new(directory: D) -> Self
        ensures { result ≡ record { is_open = false; rest = None; faults = 0 } }
    {
        DirShelf {
            directory,
            file: None,
            faults: 0,
        }
    }

    /// How often it has failed.
    pub fn faults(&self) -> u64
        ensures { result ≡ self.now.faults }
    {
        self.faults
    }

    // Keeps what an opening gave: the file; or none, where the system reports that there is no such file. Any other
    // error is counted, and leaves open what was open.
    fn keep(&mut self, opened: io::Result<D::File>) -> Result<bool, IoFault>
        ensures kept { IsKept D.File.remaining opened self.old self.new result }
        ensures faults { self.old.faults ≤ self.new.faults }
    {
        match opened {
            Ok(file) => {
                self.file = Some(file);
                Ok(true)
            }
            Err(error) if error.kind() == ErrorKind::NotFound => {
                self.file = None;
                Ok(false)
            }
            Err(_) => {
                self.faults = self.faults.saturating_add(1);
                Err(IoFault::Failed)
            }
        }
    }
}

impl<D: Files + Drop> Shelf for DirShelf<D> {
    ghost files = { λ _. None };

    ghost rest = { λ _. None };

    ghost is_open = { λ s. s.is_open };

    ghost faults = { λ s. s.faults };

    ghost answers_faults = { true };

    ghost has_ended = { λ _. false };

    ghost late_reads = { λ _. 0 };

    fn open(&mut self, name: &str) -> Result<bool, IoFault>
        ensures faults { self.old.faults ≤ self.new.faults }

        // A file is open exactly where one was found; a failed call leaves the one before open.
        ensures opened { IfOk result (λ found. self.new.is_open ≡ found) }
        ensures kept { OnErr result (self.new ≡ record self.old { faults = counted self.old.faults }) }
        ensures uncounted { IfOk result (λ _. self.new.faults ≡ self.old.faults) }
        ensures never_memory { result ≢ Err IoFault.Memory }
    {
        let opened = File::open(&self.directory, name);
        self.keep(opened)
    }

    fn read(&mut self, piece: &mut [u8]) -> Result<usize, IoFault>
        requires { IsTrue self.old.is_open }
        ensures within { IfOk result (λ k. k ≤ length piece.old) }
        ensures still_open { IsTrue self.new.is_open }
        ensures faults { self.old.faults ≤ self.new.faults }

        // The file gave exactly those bytes; or it failed, which is counted once, and gave none.
        ensures gave { ReadConsumes self.old.rest self.new.rest result piece.new }
        ensures uncounted { IfOk result (λ _. self.new.faults ≡ self.old.faults) }
        ensures counted_once { result ≡ Err IoFault.Failed → self.new.faults ≡ counted self.old.faults }
        ensures never_memory { result ≢ Err IoFault.Memory }
    {
        if let Some(file) = &mut self.file
            && let Ok(count) = file.read(piece)
        {
            return Ok(count);
        }
        self.faults = self.faults.saturating_add(1);
        Err(IoFault::Failed)
    }
}
