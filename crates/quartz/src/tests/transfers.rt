//! What the loops read of whole inputs and write of whole texts, and where they stop.
//!
//! In a transcript each call has the bytes that it gave, or a mark where it gave none for a cause, and a comma.
ghost use Rattle.std.specs.Prelude.{IsTrue};

use crate::tests::{failures, row_holds, says};
use qz_io::{
    MemShelf, MemSink, MemSource, Named, Shelf, Sink, Source, SureShelf, SureSink, SureSource,
    Unread, deliver, read_file, read_source,
};
use std::alloc::{AllocError, Global};
use std::test::Fail;

// Adds what a reading answered.
fn note(text: &mut Vec<u8>, answer: Result<Vec<u8>, Unread>) -> Result<(), AllocError> {
    match answer {
        Ok(bytes) => text.extend_from_slice(&bytes)?,
        Err(Unread::TooLong) => text.extend_from_slice(b"+")?,
        Err(Unread::Failed) => text.extend_from_slice(b"!")?,
        Err(Unread::Memory) => text.extend_from_slice(b"?")?,
    }
    text.extend_from_slice(b",")
}

// The transcript of three readings of a source.
fn reads<I: Source>(alloc: Global, input: &mut I, limit: u64) -> Result<Vec<u8>, AllocError> {
    let mut text = Vec::new(alloc);
    for _ in 0..3 {
        note(&mut text, read_source(alloc, input, limit))?;
    }
    Ok(text)
}

// Adds what a reading of the open file answers.
fn note_file<F: Shelf>(
    alloc: Global,
    text: &mut Vec<u8>,
    shelf: &mut F,
    limit: u64,
) -> Result<(), AllocError>
    requires { IsTrue (F.is_open shelf.old) }
    ensures { IsTrue (F.is_open shelf.new) }
{
    let answer = read_file(alloc, shelf, limit);
    note(text, answer)
}

// The transcript of three readings of a file, after its opening.
fn visits<F: Shelf>(
    alloc: Global,
    shelf: &mut F,
    name: &str,
    limit: u64,
) -> Result<Vec<u8>, AllocError> {
    let mut text = Vec::new(alloc);
    match shelf.open(name) {
        Ok(true) => {
            note_file(alloc, &mut text, shelf, limit)?;
            note_file(alloc, &mut text, shelf, limit)?;
            note_file(alloc, &mut text, shelf, limit)?;
        }
        Ok(false) => text.extend_from_slice(b"-")?,
        Err(_) => text.extend_from_slice(b"!")?,
    }
    Ok(text)
}

// Which of three deliveries of a text are done, and which fail.
fn deliveries<O: Sink>(alloc: Global, out: &mut O, piece: &str) -> Result<Vec<u8>, AllocError> {
    let mut text = Vec::new(alloc);
    for _ in 0..3 {
        match deliver(piece.as_bytes(), out) {
            Ok(()) => text.extend_from_slice(b".")?,
            Err(_) => text.extend_from_slice(b"!")?,
        }
    }
    Ok(text)
}

// Whether a source of four bytes with these stops is read so, and counts its faults.
fn reads_so(alloc: Global, stops: &[u64], limit: u64, want: &str) -> Result<bool, AllocError> {
    let bytes = Vec::from_slice(alloc, b"abcd")?;
    let mut input = MemSource::new(bytes, Vec::from_slice(alloc, stops)?);
    let text = reads(alloc, &mut input, limit)?;
    Ok(says(&text, want) && input.faults() == failures(want))
}

#[test]
fn reads_sources_to_their_end_or_past_the_limit(rt: HostRuntime) -> Result<(), Fail> {
    let rows: [(&[u64], u64, &str); 11] = [
        (&[], 4, "abcd,,,"),
        (&[], 5, "abcd,,,"),
        (&[], u64::MAX, "abcd,,,"),
        (&[], 3, "+,,,"),
        (&[], 1, "+,+,,"),
        (&[], 0, "+,+,+,"),
        (&[0], 4, "!,abcd,,"),
        (&[2], 4, "!,cd,,"),
        (&[2, 2], 4, "!,!,cd,"),
        (&[4], 4, "!,,,"),
        (&[2], 1, "+,!,+,"),
    ];
    for (stops, limit, want) in rows {
        row_holds(&rt, stops, want, reads_so(rt.alloc(), stops, limit, want)?);
    }
    Ok(())
}

// A shelf with one file of four bytes.
fn one_file(alloc: Global) -> Result<Vec<Named>, AllocError> {
    let name = String::from_str(alloc, "a")?;
    let file = Named::new(name, Vec::from_slice(alloc, b"abcd")?);
    Ok(vec![in alloc; file]?)
}

// Whether a shelf with these stops is read so, and counts its faults.
fn visits_so(alloc: Global, stops: &[u64], limit: u64, want: &str) -> Result<bool, AllocError> {
    let mut shelf = MemShelf::new(one_file(alloc)?, Vec::from_slice(alloc, stops)?, false);
    let text = visits(alloc, &mut shelf, "a", limit)?;
    Ok(says(&text, want) && shelf.faults() == failures(want))
}

#[test]
fn reads_files_to_their_end_or_past_the_limit(rt: HostRuntime) -> Result<(), Fail> {
    let rows: [(&[u64], u64, &str); 4] = [
        (&[], 4, "abcd,,,"),
        (&[], 3, "+,,,"),
        (&[2], 4, "!,cd,,"),
        (&[4], 4, "!,,,"),
    ];
    for (stops, limit, want) in rows {
        row_holds(&rt, stops, want, visits_so(rt.alloc(), stops, limit, want)?);
    }
    Ok(())
}

// Whether a sink with these stops is delivered to so, keeps this, and counts its faults.
fn delivers_so(alloc: Global, stops: &[u64], want: &str, kept: &str) -> Result<bool, AllocError> {
    let mut out = MemSink::new(alloc, Vec::from_slice(alloc, stops)?);
    let text = deliveries(alloc, &mut out, "abc")?;
    Ok(says(&text, want) && says(out.written(), kept) && out.faults() == failures(want))
}

#[test]
fn delivers_up_to_a_fault(rt: HostRuntime) -> Result<(), Fail> {
    let rows: [(&[u64], &str, &str); 5] = [
        (&[], "...", "abcabcabc"),
        (&[0], "!..", "abcabc"),
        (&[2], "!..", "ababcabc"),
        (&[3, 5], ".!!", "abcab"),
        (&[9], "...", "abcabcabc"),
    ];
    for (stops, want, kept) in rows {
        row_holds(
            &rt,
            stops,
            want,
            delivers_so(rt.alloc(), stops, want, kept)?,
        );
    }
    Ok(())
}

// More bytes than fit one piece.
fn many_bytes(alloc: Global) -> Result<Vec<u8>, AllocError> {
    let mut bytes = Vec::new(alloc);
    for k in 0..200_000u32 {
        bytes.push((k % 251) as u8)?;
    }
    Ok(bytes)
}

// Whether a source of these bytes gives all of them within the limit.
fn gives_all(alloc: Global, bytes: &[u8], limit: u64) -> Result<bool, AllocError> {
    let mut input = SureSource::new(Vec::from_slice(alloc, bytes)?);
    Ok(match read_source(alloc, &mut input, limit) {
        Ok(read) => read.as_slice() == bytes,
        Err(_) => false,
    })
}

// How many bytes are left of these after one byte past the limit was read.
fn rest_past_limit(alloc: Global, bytes: &[u8], limit: u64) -> Result<usize, AllocError> {
    let mut input = SureSource::new(Vec::from_slice(alloc, bytes)?);
    Ok(match read_source(alloc, &mut input, limit) {
        Err(Unread::TooLong) => input.left().len(),
        _ => usize::MAX,
    })
}

#[test]
fn reads_more_than_one_piece(rt: HostRuntime) -> Result<(), Fail> {
    let alloc = rt.alloc();
    let bytes = many_bytes(alloc)?;
    assert!(rt; gives_all(alloc, &bytes, 200_000)?);
    assert!(rt; rest_past_limit(alloc, &bytes, 199_999)? == 0);
    assert!(rt; rest_past_limit(alloc, &bytes, 65_535)? == 134_464);
    Ok(())
}

// Whether the file of a shelf that never fails is read whole.
fn sure_shelf_is_read(alloc: Global) -> Result<bool, AllocError> {
    let mut shelf = SureShelf::new(one_file(alloc)?);
    let file = visits(alloc, &mut shelf, "a", 4)?;
    let other = visits(alloc, &mut shelf, "b", 4)?;
    Ok(says(&file, "abcd,,,") && says(&other, "-"))
}

// Whether a sink that never fails gets whole texts.
fn sure_sink_is_written(alloc: Global) -> Result<bool, AllocError> {
    let mut out = SureSink::new(alloc);
    let text = deliveries(alloc, &mut out, "abc")?;
    Ok(says(&text, "...") && says(out.written(), "abcabcabc"))
}

#[test]
fn sure_forms_are_read_and_written_whole(rt: HostRuntime) -> Result<(), Fail> {
    assert!(rt; sure_shelf_is_read(rt.alloc())?);
    assert!(rt; sure_sink_is_written(rt.alloc())?);
    Ok(())
}
