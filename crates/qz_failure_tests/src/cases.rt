//! What a run is given, where its outside fails, and how it ends.

use qz_io::{MemShelf, MemSink, MemSource, Named, Shelf, Source};
use qz_samples::{two_gates, words_of};
use qz_top::{Status, run_solo};
use std::alloc::{AllocError, Global};

// What a run is given: its words; the input; the rule file r; and where the input, the shelf, the output and the error stream
// fail.
#[derive(Clone, Copy)]
pub(super) struct Case<'a> {
    pub(super) words: &'a str,
    pub(super) input: &'a [u8],
    pub(super) rules: &'a [u8],
    pub(super) input_stops: &'a [u64],
    pub(super) shelf_stops: &'a [u64],
    pub(super) out_stops: &'a [u64],
}

// These words, with an empty input and the rules of two gates, where nothing fails.
pub(super) fn words_alone(words: &str) -> Case<'_> {
    Case {
        words,
        input: b"",
        rules: two_gates().as_bytes(),
        input_stops: &[],
        shelf_stops: &[],
        out_stops: &[],
    }
}

// A program on one qubit, of which the rules of two gates leave one gate.
pub(super) fn turned() -> &'static [u8] {
    b"OPENQASM 2.0;\nqreg q[1];\nx q[0]; rz(pi/4) q[0]; x q[0];"
}

// This program, by the rules of two gates.
pub(super) fn optimising() -> Case<'static> {
    Case {
        input: turned(),
        ..words_alone("optimise --rules r")
    }
}

// The file r with these bytes.
pub(super) fn rule_file(alloc: Global, bytes: Vec<u8>) -> Result<Vec<Named>, AllocError> {
    let mut files = Vec::new(alloc);
    files.push(Named::new(String::from_str(alloc, "r")?, bytes))?;
    Ok(files)
}

// How a run ended, how many bytes of the input are left, and what the output and the error stream got.
#[derive(Drop)]
pub(super) struct End {
    status: Status,
    left: usize,
    out: Vec<u8>,
    err: Vec<u8>,
}

impl End {
    // Whether it ended so, and left so many bytes of the input.
    pub(super) fn is(&self, status: Status, left: usize) -> bool {
        self.status == status && self.left == left
    }

    // Whether the output and the error stream got just these bytes.
    pub(super) fn wrote(&self, out: &[u8], err: &[u8]) -> bool {
        self.out.as_slice() == out && self.err.as_slice() == err
    }
}

// How the words end over this outside.
pub(super) fn answer<I: Source, F: Shelf>(
    alloc: Global,
    words: &[String],
    input: &mut I,
    shelf: &mut F,
    out: &mut MemSink,
    err: &mut MemSink,
) -> Status {
    run_solo(alloc, words, input, shelf, out, err)
}

// A sink that fails at these places.
pub(super) fn sink_with(alloc: Global, stops: &[u64]) -> Result<MemSink, AllocError> {
    Ok(MemSink::new(alloc, Vec::from_slice(alloc, stops)?))
}

// How the case ends over this shelf.
pub(super) fn end_over(
    alloc: Global,
    case: Case<'_>,
    shelf: &mut MemShelf,
) -> Result<End, AllocError> {
    let words = words_of(alloc, case.words)?;
    let bytes = Vec::from_slice(alloc, case.input)?;
    let mut input = MemSource::new(bytes, Vec::from_slice(alloc, case.input_stops)?);
    let mut out = sink_with(alloc, case.out_stops)?;
    let mut err = sink_with(alloc, &[])?;
    let status = answer(alloc, &words, &mut input, shelf, &mut out, &mut err);
    Ok(End {
        status,
        left: input.left().len(),
        out: Vec::from_slice(alloc, out.written())?,
        err: Vec::from_slice(alloc, err.written())?,
    })
}

// How the case ends.
pub(super) fn end_of(alloc: Global, case: Case<'_>) -> Result<End, AllocError> {
    let file = rule_file(alloc, Vec::from_slice(alloc, case.rules)?)?;
    let mut shelf = MemShelf::new(file, Vec::from_slice(alloc, case.shelf_stops)?, false);
    end_over(alloc, case, &mut shelf)
}
