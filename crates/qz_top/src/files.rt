//! The file that a command opens: how it is read, and why it is refused.
ghost use Rattle.std.specs.Prelude.{◌≡◌, ◌≢◌, ◌+◌, ◌≤◌, List, ℕ, IsTrue, Err, OnOk, MatchResult};
ghost use Rattle.std.specs.Io.KnownBytes.{IsAtEnd};
ghost use Rattle.qz_io.specs.Told.{TakesBytes};
ghost use Rattle.qz_top.specs.Answer.{Storage, shelf_shown};
ghost use Rattle.qz_top.specs.Files.{status_of_opening, status_of_unread_file, IsOpened, IsFileRead, EndsByFile, TellsFile, TakesFileFor};

use crate::status::Status;
use qz_circ::Which;
use qz_io::{IoFault, Shelf, Unread, read_file};
use std::alloc::Global;

// How many bytes a file has at most, and which limit a longer one passes.
#[derive(Clone, Copy)]
pub(crate) struct FileLimit {
    pub(crate) most: u64,
    pub(crate) which: Which,
}

// The status where a file isn't read whole.
fn status_of_unread_file(limit: FileLimit, unread: Unread) -> Status
    ensures { result ≡ status_of_unread_file limit unread }
{
    match unread {
        Unread::TooLong => Status::Limit(limit.which),
        Unread::Failed => Status::ShelfFault,
        Unread::Memory => Status::Memory,
    }
}

// The status where a file isn't opened.
fn status_of_opening(fault: IoFault) -> Status
    ensures { result ≡ status_of_opening fault }
{
    match fault {
        IoFault::Failed => Status::ShelfFault,
        IoFault::Memory => Status::Memory,
    }
}

// Reads the open file; or gives the status that the command ends with before it has it.
fn open_file<F: Shelf>(alloc: Global, limit: FileLimit, shelf: &mut F) -> Result<Vec<u8>, Status>
    requires { IsTrue (F.is_open shelf.old) }
    // Whatever name it was opened by.
    ensures made { (name : List ℕ) (opened : Storage) → IsOpened name (F.rest shelf.old) opened → opened.faults_after ≡ F.faults shelf.old → opened.answers_faults ≡ F.answers_faults →
        let after = record opened { faults_after = F.faults shelf.new; answers_faults = F.answers_faults } in
        MatchResult result (λ bytes. IsFileRead limit name bytes.items after) (λ status. EndsByFile limit name status after) }
    ensures at_end { OnOk result (IsAtEnd (F.rest shelf.new)) }
    ensures taken { TakesBytes (F.rest shelf.old) (F.rest shelf.new) (λ n. n ≤ limit.most + 1) }
    ensures within { result ≢ Err (Status.Limit limit.which) → TakesBytes (F.rest shelf.old) (F.rest shelf.new) (λ n. n ≤ limit.most) }
    ensures files { F.files shelf.new ≡ F.files shelf.old }
    ensures faults { F.faults shelf.old ≤ F.faults shelf.new }
{
    match read_file(alloc, shelf, limit.most) {
        Ok(bytes) => Ok(bytes),
        Err(unread) => Err(status_of_unread_file(limit, unread)),
    }
}

// Reads the file with this name; or gives the status that the command ends with before it has it.
pub(crate) fn file_in<F: Shelf>(
    alloc: Global,
    name: &str,
    limit: FileLimit,
    shelf: &mut F,
) -> Result<Vec<u8>, Status>
    ensures made { let storage = shelf_shown F.Shelf shelf.old shelf.new in
        MatchResult result (λ bytes. IsFileRead limit name.now bytes.items storage) (λ status. EndsByFile limit name.now status storage) }
    ensures at_end { OnOk result (IsAtEnd (F.rest shelf.new)) }
    ensures taken { (file : List ℕ) → TellsFile (F.files shelf.old) name.now file → TakesFileFor limit file (F.rest shelf.old) (F.rest shelf.new) result }
    ensures files { F.files shelf.new ≡ F.files shelf.old }
    ensures faults { F.faults shelf.old ≤ F.faults shelf.new }
{
    match shelf.open(name) {
        Ok(true) => open_file(alloc, limit, shelf),
        Ok(false) => Err(Status::NoFile),
        Err(fault) => Err(status_of_opening(fault)),
    }
}
