//! What the forms over the system read, write and count, at its own streams and files and at stand-ins for them.
ghost use Rattle.std.specs.Prelude.{IsTrue};

use qz_io::{
    DirShelf, IoFault, Shelf, Sink, Source, StdSink, StdSource, Unread, deliver, read_file,
};
use std::alloc::{AllocError, Allocator, Global};
use std::cell::Cell;
use std::fs::{Metadata, OpenFile, OpenOptions};
use std::io::ErrorKind;
use std::rt::Files;
use std::test::Fail;
use std::{env, fs, io, process};

// What the system answers to a call: how many bytes it moves, or an error.
type Answer = Result<usize, ErrorKind>;

// A stand-in for a stream or a file of the system, which answers so many calls so, and moves one byte at each later call.
#[derive(Drop)]
struct Scripted {
    answer: Answer,
    times: u64,
}

impl Scripted {
    fn next(&mut self) -> io::Result<usize> {
        if self.times == 0 {
            return Ok(1);
        }
        self.times -= 1;
        match self.answer {
            Ok(count) => Ok(count),
            Err(kind) => Err(kind.into()),
        }
    }
}

impl io::Write for Scripted {
    fn write(&mut self, bytes: &[u8]) -> io::Result<usize> {
        Ok(self.next()?.min(bytes.len()))
    }

    fn flush(&mut self) -> io::Result<()> {
        Ok(())
    }
}

impl io::Read for Scripted {
    fn read(&mut self, piece: &mut [u8]) -> io::Result<usize> {
        Ok(self.next()?.min(piece.len()))
    }
}

// What a stand-in for files answers where no test asks.
fn unsupported<T>() -> io::Result<T> {
    Err(io::ErrorKind::Unsupported.into())
}

impl io::Seek for Scripted {
    fn seek(&mut self, _to: io::SeekFrom) -> io::Result<u64> {
        unsupported()
    }
}

impl OpenFile for Scripted {
    fn metadata(&self) -> io::Result<Metadata> {
        unsupported()
    }

    fn set_len(&self, _size: u64) -> io::Result<()> {
        unsupported()
    }

    fn sync_all(&self) -> io::Result<()> {
        unsupported()
    }

    fn sync_data(&self) -> io::Result<()> {
        unsupported()
    }
}

// A stand-in for the files of the system: the first opening of `file` answers this error, if there is one, and each later
// one a file that answers its first two reads so.
#[derive(Drop)]
struct ScriptedFiles {
    refusal: Cell<Option<ErrorKind>>,
    answer: Answer,
}

impl Files for ScriptedFiles {
    type File = Scripted;

    type Dir = Scripted;

    fn open_file(&self, _how: &OpenOptions, path: &str) -> io::Result<Scripted> {
        if path != "file" {
            return unsupported();
        }
        match self.refusal.replace(None) {
            Some(kind) => Err(kind.into()),
            None => Ok(twice(self.answer)),
        }
    }

    fn open_dir(&self, _path: &str) -> io::Result<Scripted> {
        unsupported()
    }

    fn metadata(&self, _path: &str) -> io::Result<Metadata> {
        unsupported()
    }

    fn symlink_metadata(&self, _path: &str) -> io::Result<Metadata> {
        unsupported()
    }

    fn copy(&self, _from: &str, _to: &str) -> io::Result<u64> {
        unsupported()
    }

    fn rename(&self, _from: &str, _to: &str) -> io::Result<()> {
        unsupported()
    }

    fn remove_file(&self, _path: &str) -> io::Result<()> {
        unsupported()
    }

    fn create_dir(&self, _path: &str) -> io::Result<()> {
        unsupported()
    }

    fn remove_dir(&self, _path: &str) -> io::Result<()> {
        unsupported()
    }

    fn remove_dir_all<B: Allocator>(&self, _alloc: B, _path: &str) -> io::Result<()> {
        unsupported()
    }
}

fn twice(answer: Answer) -> Scripted {
    Scripted { answer, times: 2 }
}

// Each kind of error.
fn kinds() -> [ErrorKind; 42] {
    [
        ErrorKind::NotFound,
        ErrorKind::PermissionDenied,
        ErrorKind::ConnectionRefused,
        ErrorKind::ConnectionReset,
        ErrorKind::HostUnreachable,
        ErrorKind::NetworkUnreachable,
        ErrorKind::ConnectionAborted,
        ErrorKind::NotConnected,
        ErrorKind::AddrInUse,
        ErrorKind::AddrNotAvailable,
        ErrorKind::NetworkDown,
        ErrorKind::BrokenPipe,
        ErrorKind::AlreadyExists,
        ErrorKind::WouldBlock,
        ErrorKind::NotADirectory,
        ErrorKind::IsADirectory,
        ErrorKind::DirectoryNotEmpty,
        ErrorKind::ReadOnlyFilesystem,
        ErrorKind::FilesystemLoop,
        ErrorKind::StaleNetworkFileHandle,
        ErrorKind::InvalidInput,
        ErrorKind::InvalidData,
        ErrorKind::TimedOut,
        ErrorKind::WriteZero,
        ErrorKind::StorageFull,
        ErrorKind::NotSeekable,
        ErrorKind::QuotaExceeded,
        ErrorKind::FileTooLarge,
        ErrorKind::ResourceBusy,
        ErrorKind::ExecutableFileBusy,
        ErrorKind::Deadlock,
        ErrorKind::CrossesDevices,
        ErrorKind::TooManyLinks,
        ErrorKind::InvalidFilename,
        ErrorKind::ArgumentListTooLong,
        ErrorKind::Interrupted,
        ErrorKind::Unsupported,
        ErrorKind::UnexpectedEof,
        ErrorKind::OutOfMemory,
        ErrorKind::InProgress,
        ErrorKind::Other,
        ErrorKind::Uncategorized,
    ]
}

// The next functions hide the clauses of what is tested: a test that knows less is proved sooner.
fn delivers<O: Sink>(out: &mut O, text: &[u8]) -> bool {
    deliver(text, out) == Ok(())
}

fn sink_has_failed<W: io::Write + Drop>(out: &StdSink<W>, faults: u64) -> bool {
    out.faults() == faults
}

fn is_at_end<I: Source>(input: &mut I) -> bool {
    let mut piece = [0u8; 8];
    input.read(&mut piece) == Ok(0) && input.read(&mut []) == Ok(0)
}

fn source_has_failed<R: io::Read + Drop>(input: &StdSource<R>, faults: u64) -> bool {
    input.faults() == faults
}

fn shelf_has_failed<D: Files + Drop>(shelf: &DirShelf<D>, faults: u64) -> bool {
    shelf.faults() == faults
}

fn is_missing<F: Shelf>(shelf: &mut F, name: &str) -> bool {
    shelf.open(name) == Ok(false)
}

fn fails_to_open<F: Shelf>(shelf: &mut F, name: &str) -> bool {
    shelf.open(name) == Err(IoFault::Failed)
}

fn opens_and_gives<F: Shelf>(alloc: Global, shelf: &mut F, name: &str, bytes: &[u8]) -> bool {
    if shelf.open(name) != Ok(true) {
        return false;
    }
    match read_file(alloc, shelf, 100) {
        Ok(read) => read.as_slice() == bytes,
        Err(_) => false,
    }
}

// Systems differ in which of the two calls they refuse for a folder.
fn fails_to_open_or_to_read<F: Shelf>(alloc: Global, shelf: &mut F, name: &str) -> bool {
    match shelf.open(name) {
        Ok(true) => match read_file(alloc, shelf, 100) {
            Ok(_) => false,
            Err(unread) => unread == Unread::Failed,
        },
        Ok(false) => false,
        Err(fault) => fault == IoFault::Failed,
    }
}

fn path_below(alloc: Global, folder: &str, name: &str) -> Result<String, AllocError> {
    format!(in alloc; "{folder}/{name}")
}

// A folder of this test's own.
fn folder(rt: &HostRuntime) -> Result<String, Fail> {
    let temporary = env::temp_dir(rt)?;
    let number = process::id(rt.process());
    Ok(format!(in rt.alloc(); "{}/quartz-test-{number}", temporary.as_str())?)
}

// Whether the shelf gives the file again and again, and finds nothing under another name.
fn finds_the_file<F: Shelf>(alloc: Global, shelf: &mut F, file: &str, other: &str) -> bool {
    opens_and_gives(alloc, shelf, file, b"some bytes")
        && opens_and_gives(alloc, shelf, file, b"some bytes")
        && is_missing(shelf, other)
        && is_missing(shelf, "")
}

// Whether the shelf, which has not failed yet, fails at a folder, and at a path through a file.
fn fails_twice<D: Files + Drop>(
    alloc: Global,
    shelf: &mut DirShelf<D>,
    folder: &str,
    through: &str,
) -> bool {
    shelf_has_failed(shelf, 0)
        && fails_to_open_or_to_read(alloc, shelf, folder)
        && shelf_has_failed(shelf, 1)
        && fails_to_open(shelf, through)
        && shelf_has_failed(shelf, 2)
}

// Whether a shelf of the system answers so in a folder with one file.
fn answers_in(rt: &HostRuntime, folder: &str, file: &str) -> Result<bool, AllocError> {
    let alloc = rt.alloc();
    let other = path_below(alloc, folder, "other")?;
    let through = path_below(alloc, file, "below")?;
    let mut shelf = DirShelf::new(rt);
    Ok(
        finds_the_file(alloc, &mut shelf, file, &other)
            && fails_twice(alloc, &mut shelf, folder, &through),
    )
}

#[test]
fn reads_files_of_the_system(rt: HostRuntime) -> Result<(), Fail> {
    let folder = folder(&rt)?;
    fs::create_dir(&rt, &folder)?;
    let file = path_below(rt.alloc(), &folder, "file")?;
    fs::write(&rt, &file, b"some bytes")?;
    let as_wanted = answers_in(&rt, &folder, &file)?;
    fs::remove_file(&rt, &file)?;
    fs::remove_dir(&rt, &folder)?;
    assert!(rt; as_wanted);
    Ok(())
}

#[test]
fn moves_bytes_by_standard_streams(rt: HostRuntime) {
    let mut input = StdSource::new(rt.stdin());
    assert!(rt; is_at_end(&mut input));
    assert!(rt; source_has_failed(&input, 0));
    let mut out = StdSink::new(rt.stderr());
    assert!(rt; delivers(&mut out, b"on standard error\n"));
    assert!(rt; sink_has_failed(&out, 0));
}

type Moved = Result<usize, IoFault>;

// Whether two writes of a text answer so, and a third one takes a byte.
fn writes_so<O: Sink>(out: &mut O, wanted: Moved) -> bool {
    out.write(b"text") == wanted && out.write(b"text") == wanted && out.write(b"text") == Ok(1)
}

// Whether two reads answer so, and a third one gives a byte.
fn reads_so<I: Source>(input: &mut I, wanted: Moved) -> bool {
    let mut piece = [0u8; 8];
    input.read(&mut piece) == wanted
        && input.read(&mut piece) == wanted
        && input.read(&mut piece) == Ok(1)
}

// Whether two reads of the open file answer so, and a third one gives a byte.
fn reads_file_so<F: Shelf>(shelf: &mut F, wanted: Moved) -> bool
    requires { IsTrue (F.is_open shelf.old) }
{
    let mut piece = [0u8; 8];
    shelf.read(&mut piece) == wanted
        && shelf.read(&mut piece) == wanted
        && shelf.read(&mut piece) == Ok(1)
}

// Whether the opening of the file answers so.
fn opens_so<F: Shelf>(shelf: &mut F, wanted: Result<bool, IoFault>) -> bool {
    shelf.open("file") == wanted
}

// Whether the file opens, two of its reads answer so, and a third one gives a byte.
fn opens_and_reads_so<F: Shelf>(shelf: &mut F, wanted: Moved) -> bool {
    match shelf.open("file") {
        Ok(true) => reads_file_so(shelf, wanted),
        _ => false,
    }
}

fn sink_answers(answer: Answer, wanted: Moved, faults: u64) -> bool {
    let mut out = StdSink::new(twice(answer));
    writes_so(&mut out, wanted) && sink_has_failed(&out, faults)
}

fn source_answers(answer: Answer, wanted: Moved, faults: u64) -> bool {
    let mut input = StdSource::new(twice(answer));
    reads_so(&mut input, wanted) && source_has_failed(&input, faults)
}

fn file_answers(answer: Answer, wanted: Moved, faults: u64) -> bool {
    let refusal = Cell::new(None);
    let mut shelf = DirShelf::new(ScriptedFiles { refusal, answer });
    opens_and_reads_so(&mut shelf, wanted) && shelf_has_failed(&shelf, faults)
}

// Whether an opening that the system refuses for this answers so, counts so many faults, and the next one finds the file.
fn opening_answers(kind: ErrorKind, wanted: Result<bool, IoFault>, faults: u64) -> bool {
    let refusal = Cell::new(Some(kind));
    let answer = Ok(0);
    let mut shelf = DirShelf::new(ScriptedFiles { refusal, answer });
    opens_so(&mut shelf, wanted)
        && shelf_has_failed(&shelf, faults)
        && opens_so(&mut shelf, Ok(true))
}

// Each error is a fault, answered and counted once, also one that a second try would make good; but for the report that there
// is no such file.
#[test]
fn answers_each_error_of_the_system(rt: HostRuntime) {
    let failed = Err(IoFault::Failed);
    for kind in kinds() {
        assert!(rt; sink_answers(Err(kind), failed, 2), "{kind:?}");
        assert!(rt; source_answers(Err(kind), failed, 2), "{kind:?}");
        assert!(rt; file_answers(Err(kind), failed, 2), "{kind:?}");
        let refused = Err(IoFault::Failed);
        if kind == ErrorKind::NotFound {
            assert!(rt; opening_answers(kind, Ok(false), 0));
        } else {
            assert!(rt; opening_answers(kind, refused, 1), "{kind:?}");
        }
    }
}

// A read that gives nothing is the end, and no later read is made for it; a write that takes nothing of a text is a fault.
#[test]
fn stops_where_nothing_is_moved(rt: HostRuntime) {
    assert!(rt; source_answers(Ok(0), Ok(0), 0));
    assert!(rt; file_answers(Ok(0), Ok(0), 0));
    assert!(rt; sink_answers(Ok(0), Err(IoFault::Failed), 2));
    let mut out = StdSink::new(twice(Ok(0)));
    assert!(rt; delivers(&mut out, b"") && sink_has_failed(&out, 0));
}
