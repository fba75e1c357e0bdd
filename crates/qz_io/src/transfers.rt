//! The loops that write a whole text, or read a whole input.
ghost use Rattle.std.specs.Prelude.{◌≡◌, ◌≢◌, ℕ, ◌<◌, ◌≤◌, Bool, true, false, Ok, IsTrue, List, Option, None, length, vec_len, IfOk, OnOk, OnErr};
ghost use Rattle.std.specs.Io.KnownBytes.{append_known};
ghost use Rattle.qz_io.specs.Counts.{Rose};
ghost use Rattle.qz_io.specs.Files.{Files};
ghost use Rattle.qz_io.specs.Told.{HasProperPart};
ghost use Rattle.qz_io.specs.Transfers.{input_of, source_shown, file_shown, IsRead, IsReadWhole};

use crate::fault::IoFault;
use crate::shelf::Shelf;
use crate::sink::Sink;
use crate::source::Source;
use std::alloc::Global;

/// Writes the whole text. After an error a prefix of it is written, which is not the whole text.
pub fn deliver<O: Sink>(text: &[u8], out: &mut O) -> Result<(), IoFault>
    ensures whole { OnOk result (O.written out.new ≡ append_known (O.written out.old) text.now) }
    ensures part { OnErr result (HasProperPart (O.written out.old) text.now (O.written out.new)) }
    ensures failed { result ≡ Err IoFault.Failed → Rose (O.faults out.old) (O.faults out.new) }
    ensures memory { result ≡ Err IoFault.Memory → Rose (O.wants out.old) (O.wants out.new) }
    ensures faults { O.faults out.old ≤ O.faults out.new }
    ensures wants { O.wants out.old ≤ O.wants out.new }
    ensures answered { IsTrue O.answers_faults → result ≢ Err IoFault.Failed → O.faults out.new ≡ O.faults out.old }
{
    let mut done = 0;
    while done < text.len() {
        match out.write(&text[done..]) {
            Ok(k) => done += k,
            Err(fault) => return Err(fault),
        }
    }
    Ok(())
}

/// Why not all of an input was read.
#[derive(Clone, Copy, Debug, PartialEq, Eq)]
pub enum Unread {
    /// There are more bytes than the limit.
    TooLong,
    /// The system reported an error, or an object in memory was told to fail.
    Failed,
    /// Memory ran out.
    Memory,
}

// A way to read from an S, so that one loop serves for sources and for open files.
trait Feed<S> {
    // All bytes that are left, where they are told.
    ghost left: { S → Option (List ℕ) };

    // What has to hold for a read, and holds after it.
    ghost is_ready: { S → Bool };

    // What no read changes.
    ghost files: { S → Option Files };

    // How often it has failed.
    ghost faults: { S → ℕ };

    // Whether each of its faults is answered.
    ghost answers_faults: { Bool };

    // Whether the end was told.
    ghost has_ended: { S → Bool };

    // How often it was read after that.
    ghost late_reads: { S → ℕ };

    fn read(from: &mut S, piece: &mut [u8]) -> Result<usize, IoFault>
        requires { IsTrue (is_ready from.old) }
        ensures read { IsRead (length piece.old) result piece.new (input_of left faults answers_faults from.old from.new) }
        ensures still_ready { IsTrue (is_ready from.new) }
        ensures files { files from.new ≡ files from.old }
        ensures goes_on { result ≢ Ok 0 → has_ended from.new ≡ has_ended from.old }
        ensures in_time { has_ended from.old ≡ false → late_reads from.new ≡ late_reads from.old };
}

// Reads from a source.
struct FromSource;

impl<I: Source> Feed<I> for FromSource {
    ghost left = { I.left };

    ghost is_ready = { λ _. true };

    ghost files = { λ _. None };

    ghost faults = { I.faults };

    ghost answers_faults = { I.answers_faults };

    ghost has_ended = { I.has_ended };

    ghost late_reads = { I.late_reads };

    fn read(from: &mut I, piece: &mut [u8]) -> Result<usize, IoFault> {
        from.read(piece)
    }
}

// Reads from the open file of a shelf.
struct FromOpenFile;

impl<F: Shelf> Feed<F> for FromOpenFile {
    ghost left = { F.rest };

    ghost is_ready = { F.is_open };

    ghost files = { F.files };

    ghost faults = { F.faults };

    ghost answers_faults = { F.answers_faults };

    ghost has_ended = { F.has_ended };

    ghost late_reads = { F.late_reads };

    fn read(from: &mut F, piece: &mut [u8]) -> Result<usize, IoFault> {
        from.read(piece)
    }
}

// Reads at most so many bytes, into the front of the buffer.
fn read_at_most<S, W: Feed<S>>(
    from: &mut S,
    buffer: &mut [u8],
    most: usize,
) -> Result<usize, IoFault>
    requires ready { IsTrue (W.is_ready from.old) }
    requires room { most ≤ length buffer.old }
    ensures read { IsRead most result buffer.new (input_of W.left W.faults W.answers_faults from.old from.new) }
    ensures still_ready { IsTrue (W.is_ready from.new) }
    ensures files { W.files from.new ≡ W.files from.old }
    ensures goes_on { result ≢ Ok 0 → W.has_ended from.new ≡ W.has_ended from.old }
    ensures in_time { W.has_ended from.old ≡ false → W.late_reads from.new ≡ W.late_reads from.old }
{
    W::read(from, &mut buffer[..most])
}

// A buffer for the pieces of an input.
fn empty_buffer(alloc: Global) -> Result<Vec<u8>, Unread>
    ensures size { IfOk result (λ buffer. vec_len buffer ≡ 65536) }
    ensures memory { OnErr result (result ≡ Err Unread.Memory) }
{
    match vec![in alloc; 0; 65536] {
        Ok(buffer) => Ok(buffer),
        Err(_) => Err(Unread::Memory),
    }
}

// Reads all that is left, or to one byte past the limit, by pieces that fit the buffer.
fn read_pieces<S, W: Feed<S>>(
    alloc: Global,
    from: &mut S,
    buffer: &mut [u8],
    limit: u64,
) -> Result<Vec<u8>, Unread>
    requires ready { IsTrue (W.is_ready from.old) }
    requires some { 0 < length buffer.old }
    ensures read { IsReadWhole limit result (input_of W.left W.faults W.answers_faults from.old from.new) }
    ensures still_ready { IsTrue (W.is_ready from.new) }
    ensures files { W.files from.new ≡ W.files from.old }
    ensures in_time { W.has_ended from.old ≡ false → W.late_reads from.new ≡ W.late_reads from.old }
{
    let mut bytes = Vec::new(alloc);
    'pieces: loop {
        let room = limit - bytes.len() as u64;
        let most = room.min(buffer.len() as u64 - 1) as usize + 1;
        match read_at_most::<S, W>(from, buffer, most) {
            Ok(0) => return Ok(bytes),
            Ok(count) if count as u64 > room => return Err(Unread::TooLong),
            Ok(count) => {
                if bytes.extend_from_slice(&buffer[..count]).is_err() {
                    return Err(Unread::Memory);
                }
            }
            Err(IoFault::Failed) => return Err(Unread::Failed),
            Err(IoFault::Memory) => return Err(Unread::Memory),
        }
    }
}

/// Reads all that is left of a source, or to one byte past the limit. A source that told its end is not read again.
pub fn read_source<I: Source>(alloc: Global, input: &mut I, limit: u64) -> Result<Vec<u8>, Unread>
    ensures read { IsReadWhole limit result (source_shown I.Source input.old input.new) }
    ensures in_time { I.has_ended input.old ≡ false → I.late_reads input.new ≡ I.late_reads input.old }
{
    let mut buffer = empty_buffer(alloc)?;
    read_pieces::<I, FromSource>(alloc, input, &mut buffer, limit)
}

/// Reads all that is left of a shelf's open file, or to one byte past the limit. A file that told its end is not read again.
pub fn read_file<F: Shelf>(alloc: Global, shelf: &mut F, limit: u64) -> Result<Vec<u8>, Unread>
    requires { IsTrue (F.is_open shelf.old) }
    ensures read { IsReadWhole limit result (file_shown F.Shelf shelf.old shelf.new) }
    ensures still_open { IsTrue (F.is_open shelf.new) }
    ensures files { F.files shelf.new ≡ F.files shelf.old }
    ensures in_time { F.has_ended shelf.old ≡ false → F.late_reads shelf.new ≡ F.late_reads shelf.old }
{
    let mut buffer = empty_buffer(alloc)?;
    read_pieces::<F, FromOpenFile>(alloc, shelf, &mut buffer, limit)
}
