//! Tests of the outside: its forms in memory and over the system, and how whole texts are moved.

mod memory_forms;
mod real_forms;
mod transfers;

use std::process::Abort;

// Whether this is the transcript.
fn says(text: &[u8], want: &str) -> bool {
    text == want.as_bytes()
}

// How many calls of the transcript failed.
fn failures(transcript: &str) -> u64 {
    transcript.bytes().filter(|byte| *byte == b'!').count() as u64
}

// Fails with these stops and this transcript where their row doesn't hold.
fn row_holds(rt: &impl Abort, stops: &[u64], want: &str, holds: bool) {
    assert!(rt; holds, "at {stops:?}: {want}");
}
