//! Several workers write what one writes, and two of them really meet.

use qz_hunt::{Moment, Open, Turnstile};
use qz_io::{MemShelf, MemSink, MemSource, Named, SureSink};
use qz_samples::two_gates;
use qz_top::{Status, run};
use std::alloc::{AllocError, Global};
use std::process::Abort;
use std::sync::Wait;
use std::sync::atomic::{AtomicU64, Ordering};
use std::thread;
use std::thread::Threads;

const MOST_TURNS: u64 = 2_000_000_000;

// Lets the first circuit of a search pass, which its first round takes alone. Holds each of two workers at its next circuit until
// the other one has had one.
#[derive(Drop)]
struct Meeting {
    begun: AtomicU64,
    first: AtomicU64,
    second: AtomicU64,
    let_go: AtomicU64,
}

// Whether the other one came, within the bound.
fn came(other: &AtomicU64) -> bool {
    for _ in 0..MOST_TURNS {
        if other.load(Ordering::SeqCst) > 0 {
            return true;
        }
        thread::yield_now();
    }
    false
}

impl Meeting {
    fn meet(&self, worker: u64) {
        if self.begun.fetch_add(1, Ordering::SeqCst) == 0 {
            return;
        }
        let (mine, other) = if worker == 0 {
            (&self.first, &self.second)
        } else {
            (&self.second, &self.first)
        };
        if mine.fetch_add(1, Ordering::SeqCst) == 0 && came(other) {
            self.let_go.fetch_add(1, Ordering::SeqCst);
        }
    }
}

impl Turnstile for Meeting {
    fn at(&self, worker: u64, moment: Moment) {
        if let Moment::Claimed = moment {
            self.meet(worker);
        }
    }
}

// Hides the clauses of what is tested: a test that knows less is proved sooner.
fn answer<T: Turnstile, R: Threads + Wait + Sync>(
    rt: &R,
    alloc: Global,
    words: &[String],
    input: &mut MemSource,
    shelf: &mut MemShelf,
    out: &mut MemSink,
    stile: &T,
) -> Status {
    let mut err = SureSink::new(alloc);
    run(rt, alloc, words, input, shelf, out, &mut err, stile)
}

fn text(out: &MemSink) -> &[u8] {
    out.written()
}

// The words that optimise by the file r, with these behind them, which are parted by single spaces.
fn words_with(alloc: Global, more: &str) -> Result<Vec<String>, AllocError> {
    let mut words = Vec::new(alloc);
    for word in "optimise --rules r".split(' ') {
        words.push(String::from_str(alloc, word)?)?;
    }
    for word in more.split(' ') {
        words.push(String::from_str(alloc, word)?)?;
    }
    Ok(words)
}

// A shelf with the class list for two gates on one qubit as the file r.
fn shelf(alloc: Global) -> Result<MemShelf, AllocError> {
    let name = String::from_str(alloc, "r")?;
    let file = Vec::from_slice(alloc, two_gates().as_bytes())?;
    let mut files = Vec::new(alloc);
    files.push(Named::new(name, file))?;
    Ok(MemShelf::new(files, Vec::new(alloc), false))
}

// The program with X, a rotation by a quarter of pi, and X.
fn program(alloc: Global) -> Result<MemSource, AllocError> {
    let text = b"OPENQASM 2.0;\nqreg q[1];\nx q[0]; rz(pi/4) q[0]; x q[0];".as_slice();
    Ok(MemSource::new(Vec::from_slice(alloc, text)?, Vec::new(alloc)))
}

// Whether these words behind the first ones end well and write these gates.
pub(super) fn writes<T: Turnstile, R: Threads + Wait + Sync>(
    rt: &R,
    alloc: Global,
    more: &str,
    gates: &str,
    stile: &T,
) -> Result<bool, AllocError> {
    let words = words_with(alloc, more)?;
    let mut input = program(alloc)?;
    let mut shelf = shelf(alloc)?;
    let mut out = MemSink::new(alloc, Vec::new(alloc));
    let status = answer(rt, alloc, &words, &mut input, &mut shelf, &mut out, stile);
    let head = "OPENQASM 2.0;\ninclude \"qelib1.inc\";\nqreg q[1];\n";
    let rest = text(&out).strip_prefix(head.as_bytes());
    Ok(status == Status::Ok && rest == Some(gates.as_bytes()))
}

// What is written with one worker, with more of them than circuits in each round, with as many rounds as there are, and until the
// queue is empty.
fn rows() -> [(&'static str, &'static str); 9] {
    let turned = "rz(-pi/4) q[0];\n";
    [
        ("--workers 1", turned),
        ("--workers 2", turned),
        ("--workers 16", turned),
        (
            "--rounds 0 --workers 4",
            "x q[0];\nrz(pi/4) q[0];\nx q[0];\n",
        ),
        (
            "--rounds 1 --workers 4",
            "x q[0];\nx q[0];\nrz(-pi/4) q[0];\n",
        ),
        ("--rounds 2 --workers 4", turned),
        ("--batch 1 --workers 2", turned),
        ("--batch 64 --cap 3 --slack 1 --workers 3", turned),
        (
            "--rounds 64 --batch 64 --cap 500 --slack 4 --workers 16",
            turned,
        ),
    ]
}

#[test]
fn several_workers_write_what_one_writes(rt: HostRuntime) {
    for (more, gates) in rows() {
        assert!(rt;
            writes(&rt, rt.alloc(), more, gates, &Open) == Ok(true),
            "at {more}"
        );
    }
}

// The first round takes one circuit and the second two, so that each worker has one of these where two threads work.
#[test]
fn two_workers_meet(rt: HostRuntime) {
    let meeting = Meeting {
        begun: AtomicU64::new(0),
        first: AtomicU64::new(0),
        second: AtomicU64::new(0),
        let_go: AtomicU64::new(0),
    };
    assert!(rt;
        writes(
            &rt,
            rt.alloc(),
            "--workers 2",
            "rz(-pi/4) q[0];\n",
            &meeting
        ) == Ok(true)
    );
    assert!(rt; meeting.let_go.load(Ordering::SeqCst) == 2);
}
