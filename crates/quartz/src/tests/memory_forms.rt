//! What sources, sinks and shelves in memory answer, call by call.
//!
//! In a transcript each call has the bytes that it moved, or a mark where it failed, and a comma.
ghost use Rattle.std.specs.Prelude.{IsTrue};

use crate::tests::{failures, row_holds, says};
use qz_io::{
    IoFault, MemShelf, MemSink, MemSource, Named, Shelf, Sink, Source, SureShelf, SureSink,
    SureSource,
};
use std::alloc::{AllocError, Global};
use std::test::Fail;

// Adds what a call answered that was handed this piece.
fn note(
    text: &mut Vec<u8>,
    answer: Result<usize, IoFault>,
    piece: &[u8],
) -> Result<(), AllocError> {
    match answer {
        Ok(count) => text.extend_from_slice(&piece[..count.min(piece.len())])?,
        Err(IoFault::Failed) => text.extend_from_slice(b"!")?,
        Err(IoFault::Memory) => text.extend_from_slice(b"?")?,
    }
    text.extend_from_slice(b",")
}

// Adds a mark where the piece was changed behind the bytes that were moved into it.
fn note_change(
    text: &mut Vec<u8>,
    answer: Result<usize, IoFault>,
    piece: &[u8],
) -> Result<(), AllocError> {
    if piece
        .iter()
        .skip(answer.unwrap_or(0))
        .any(|byte| *byte != b'.')
    {
        text.extend_from_slice(b"#")?;
    }
    Ok(())
}

// Adds what a read into a piece of so many bytes answers, of four at most.
fn note_read<I: Source>(text: &mut Vec<u8>, input: &mut I, room: usize) -> Result<(), AllocError> {
    let mut piece = [b'.'; 4];
    let answer = input.read(&mut piece[..room.min(4)]);
    note(text, answer, &piece)?;
    note_change(text, answer, &piece)
}

// The transcript of four reads into pieces of so many bytes.
fn reads<I: Source>(alloc: Global, input: &mut I, room: usize) -> Result<Vec<u8>, AllocError> {
    let mut text = Vec::new(alloc);
    for _ in 0..4 {
        note_read(&mut text, input, room)?;
    }
    Ok(text)
}

// The transcript of four writes of this piece.
fn writes<O: Sink>(alloc: Global, out: &mut O, piece: &[u8]) -> Result<Vec<u8>, AllocError> {
    let mut text = Vec::new(alloc);
    for _ in 0..4 {
        note(&mut text, out.write(piece), piece)?;
    }
    Ok(text)
}

// Adds what a read of the open file into a piece of so many bytes answers, of four at most.
fn note_file<F: Shelf>(text: &mut Vec<u8>, shelf: &mut F, room: usize) -> Result<(), AllocError>
    requires { IsTrue (F.is_open shelf.old) }
    ensures { IsTrue (F.is_open shelf.new) }
{
    let mut piece = [b'.'; 4];
    let answer = shelf.read(&mut piece[..room.min(4)]);
    note(text, answer, &piece)?;
    note_change(text, answer, &piece)
}

// Adds what the opening of a file answers, and three reads into pieces of so many bytes. The name stands first.
fn note_visit<F: Shelf>(
    text: &mut Vec<u8>,
    shelf: &mut F,
    name: &str,
    room: usize,
) -> Result<(), AllocError> {
    text.extend_from_slice(name.as_bytes())?;
    match shelf.open(name) {
        Ok(true) => {
            text.extend_from_slice(b":")?;
            note_file(text, shelf, room)?;
            note_file(text, shelf, room)?;
            note_file(text, shelf, room)
        }
        Ok(false) => text.extend_from_slice(b"-"),
        Err(_) => text.extend_from_slice(b"!"),
    }
}

// The transcript of visits to the files with these names.
fn visits<F: Shelf>(
    alloc: Global,
    shelf: &mut F,
    names: &[&str],
    room: usize,
) -> Result<Vec<u8>, AllocError> {
    let mut text = Vec::new(alloc);
    for name in names {
        note_visit(&mut text, shelf, name, room)?;
    }
    Ok(text)
}

// Whether a source of four bytes with these stops answers so, and counts its faults.
fn reads_so(alloc: Global, stops: &[u64], room: usize, want: &str) -> Result<bool, AllocError> {
    let bytes = Vec::from_slice(alloc, b"abcd")?;
    let mut input = MemSource::new(bytes, Vec::from_slice(alloc, stops)?);
    let text = reads(alloc, &mut input, room)?;
    Ok(says(&text, want) && input.faults() == failures(want))
}

#[test]
fn sources_stop(rt: HostRuntime) -> Result<(), Fail> {
    let rows: [(&[u64], usize, &str); 11] = [
        (&[], 3, "abc,d,,,"),
        (&[0], 3, "!,abc,d,,"),
        (&[2], 3, "ab,!,cd,,"),
        (&[4], 3, "abc,d,!,,"),
        (&[9], 3, "abc,d,,,"),
        (&[1, 4], 3, "a,!,bcd,!,"),
        (&[2, 2], 3, "ab,!,!,cd,"),
        (&[3, 1], 3, "abc,!,d,,"),
        (&[1, 0, 2], 3, "a,!,bcd,,"),
        (&[], 0, ",,,,"),
        (&[0], 0, "!,,,,"),
    ];
    for (stops, room, want) in rows {
        row_holds(&rt, stops, want, reads_so(rt.alloc(), stops, room, want)?);
    }
    Ok(())
}

// Whether a sink with these stops answers writes of this piece so, counts its faults, and keeps what it took.
fn writes_so(alloc: Global, stops: &[u64], piece: &str, want: &str) -> Result<bool, AllocError> {
    let mut out = MemSink::new(alloc, Vec::from_slice(alloc, stops)?);
    let text = writes(alloc, &mut out, piece.as_bytes())?;
    let counts = out.faults() == failures(want) && out.wants() == 0;
    Ok(says(&text, want) && counts && is_kept(out.written(), want))
}

// The bytes are those of the transcript, without its marks.
fn is_kept(written: &[u8], transcript: &str) -> bool {
    let moved = transcript.bytes().filter(|byte| byte.is_ascii_alphabetic());
    written.iter().copied().eq(moved)
}

#[test]
fn sinks_stop(rt: HostRuntime) -> Result<(), Fail> {
    let rows: [(&[u64], &str, &str); 9] = [
        (&[], "abc", "abc,abc,abc,abc,"),
        (&[0], "abc", "!,abc,abc,abc,"),
        (&[2], "abc", "ab,!,abc,abc,"),
        (&[9], "abc", "abc,abc,abc,!,"),
        (&[1, 4], "abc", "a,!,abc,!,"),
        (&[2, 2], "abc", "ab,!,!,abc,"),
        (&[3, 1], "abc", "abc,!,abc,abc,"),
        (&[1, 0, 2], "abc", "a,!,abc,abc,"),
        (&[0], "", "!,,,,"),
    ];
    for (stops, piece, want) in rows {
        row_holds(&rt, stops, want, writes_so(rt.alloc(), stops, piece, want)?);
    }
    Ok(())
}

// A file of the shelves.
fn file(alloc: Global, name: &str, bytes: &[u8]) -> Result<Named, AllocError> {
    Ok(Named::new(
        String::from_str(alloc, name)?,
        Vec::from_slice(alloc, bytes)?,
    ))
}

// Two files of one name, one with a short text, and one without a name.
fn files(alloc: Global) -> Result<Vec<Named>, AllocError> {
    let first = file(alloc, "a", b"abcd")?;
    let short = file(alloc, "b", b"xy")?;
    let second = file(alloc, "a", b"no")?;
    let unnamed = file(alloc, "", b"e")?;
    Ok(vec![in alloc; first, short, second, unnamed]?)
}

// Whether a shelf with these stops answers visits to files with these names so, and counts its faults.
fn visits_so(
    alloc: Global,
    stops: &[u64],
    fail_open: bool,
    names: &[&str],
    want: &str,
) -> Result<bool, AllocError> {
    let mut shelf = MemShelf::new(files(alloc)?, Vec::from_slice(alloc, stops)?, fail_open);
    let text = visits(alloc, &mut shelf, names, 3)?;
    Ok(says(&text, want) && shelf.faults() == failures(want))
}

#[test]
fn shelves_stop(rt: HostRuntime) -> Result<(), Fail> {
    let rows: [(&[u64], bool, &[&str], &str); 9] = [
        (&[], false, &["a", "b", "a"], "a:abc,d,,b:xy,,,a:abc,d,,"),
        (&[], false, &["c", ""], "c-:e,,,"),
        (&[0], false, &["a", "a"], "a:!,abc,d,a:abc,d,,"),
        (&[1], false, &["a", "b"], "a:a,!,bcd,b:xy,,,"),
        (&[4], false, &["b", "a"], "b:xy,,,a:abc,d,!,"),
        (&[1, 1], false, &["a", "b"], "a:a,!,!,b:xy,,,"),
        (&[3, 1], false, &["a", "b"], "a:abc,!,d,b:x,!,y,"),
        (&[2], true, &["a", "a", "a"], "a!a:ab,!,cd,a:abc,d,,"),
        (&[], true, &["c", "c"], "c!c-"),
    ];
    for (stops, fail_open, names, want) in rows {
        let holds = visits_so(rt.alloc(), stops, fail_open, names, want)?;
        row_holds(&rt, stops, want, holds);
    }
    Ok(())
}

// The next three say whether the forms that never fail move all that they can.
fn sure_source_gives_all(alloc: Global) -> Result<bool, AllocError> {
    let mut input = SureSource::new(Vec::from_slice(alloc, b"abcd")?);
    let nothing = reads(alloc, &mut input, 0)?;
    let all = reads(alloc, &mut input, 3)?;
    Ok(says(&nothing, ",,,,") && says(&all, "abc,d,,,"))
}

fn sure_sink_takes_all(alloc: Global) -> Result<bool, AllocError> {
    let mut out = SureSink::new(alloc);
    let text = writes(alloc, &mut out, b"ab")?;
    Ok(says(&text, "ab,ab,ab,ab,") && says(out.written(), "abababab") && out.wants() == 0)
}

fn sure_shelf_gives_all(alloc: Global) -> Result<bool, AllocError> {
    let mut shelf = SureShelf::new(files(alloc)?);
    let all = visits(alloc, &mut shelf, &["a", "c", "", "a"], 4)?;
    let nothing = visits(alloc, &mut shelf, &["b"], 0)?;
    Ok(says(&all, "a:abcd,,,c-:e,,,a:abcd,,,") && says(&nothing, "b:,,,"))
}

#[test]
fn sure_forms_move_all(rt: HostRuntime) -> Result<(), Fail> {
    assert!(rt; sure_source_gives_all(rt.alloc())?);
    assert!(rt; sure_sink_takes_all(rt.alloc())?);
    assert!(rt; sure_shelf_gives_all(rt.alloc())?);
    Ok(())
}
