//! How commands end where the input and the rule file tell their end, and would fail or give more after it.
ghost use Rattle.std.specs.Prelude.{◌≡◌, ◌≢◌, ◌≤◌, true, false, None, Ok, length, IfOk};
ghost use Rattle.qz_io.specs.Counts.{Rose};

use crate::cases::{Case, answer, optimising, sink_with, turned, words_alone};
use qz_circ::QasmFault;
use qz_io::{IoFault, MemSink, Shelf, Source, SureSource};
use qz_samples::{measured_lines, two_gates, two_registers, words_of};
use qz_top::Status;
use std::alloc::{AllocError, Global};
use std::process::Abort;
use std::test::Fail;

// What comes after the end.
#[derive(Clone, Copy, Debug)]
enum After {
    End,
    Fault,
    More,
}

// Bytes, their end, which is told once, and what comes after it; as an input, and as the file of each name on a shelf.
#[derive(Drop)]
struct Late {
    bytes: SureSource,
    more: SureSource,
    after: After,
    ended: bool,
    late: u64,
    faults: u64,
}

impl Late {
    fn new(alloc: Global, bytes: &[u8], after: After) -> Result<Late, AllocError> {
        Ok(Late {
            bytes: SureSource::new(Vec::from_slice(alloc, bytes)?),
            more: SureSource::new(Vec::from_slice(alloc, b" h q[0];")?),
            after,
            ended: false,
            late: 0,
            faults: 0,
        })
    }

    // Gives what comes after the end.
    fn give_late(&mut self, piece: &mut [u8]) -> Result<usize, IoFault>
        ensures within { IfOk result (λ k. k ≤ length piece.old) }
        ensures failed { result ≡ Err IoFault.Failed → Rose self.old.faults self.new.faults }
        ensures faults { self.old.faults ≤ self.new.faults }
        ensures answered { result ≢ Err IoFault.Failed → self.new.faults ≡ self.old.faults }
        ensures ended { self.new.ended ≡ self.old.ended }
    {
        self.late = self.late.saturating_add(1);
        match self.after {
            After::End => Ok(0),
            After::Fault => {
                self.faults = self.faults.saturating_add(1);
                Err(IoFault::Failed)
            }
            After::More => self.more.read(piece),
        }
    }

    // Gives bytes, or the end, or what comes after it.
    fn give(&mut self, piece: &mut [u8]) -> Result<usize, IoFault>
        ensures within { IfOk result (λ k. k ≤ length piece.old) }
        ensures failed { result ≡ Err IoFault.Failed → Rose self.old.faults self.new.faults }
        ensures faults { self.old.faults ≤ self.new.faults }
        ensures answered { result ≢ Err IoFault.Failed → self.new.faults ≡ self.old.faults }
        ensures goes_on { result ≢ Ok 0 → self.new.ended ≡ self.old.ended }
        ensures in_time { self.old.ended ≡ false → self.new.late ≡ self.old.late }
    {
        if self.ended {
            return self.give_late(piece);
        }
        let answer = self.bytes.read(piece);
        self.ended = answer == Ok(0) && !piece.is_empty();
        answer
    }
}

impl Source for Late {
    ghost left = { λ _. None };

    ghost faults = { λ s. s.faults };

    ghost answers_faults = { true };

    ghost has_ended = { λ s. s.ended };

    ghost late_reads = { λ s. s.late };

    fn read(&mut self, piece: &mut [u8]) -> Result<usize, IoFault> {
        self.give(piece)
    }
}

impl Shelf for Late {
    ghost files = { λ _. None };

    ghost rest = { λ _. None };

    ghost is_open = { λ _. true };

    ghost faults = { λ s. s.faults };

    ghost answers_faults = { true };

    ghost has_ended = { λ s. s.ended };

    ghost late_reads = { λ s. s.late };

    fn open(&mut self, _name: &str) -> Result<bool, IoFault> {
        self.ended = false;
        Ok(true)
    }

    fn read(&mut self, piece: &mut [u8]) -> Result<usize, IoFault> {
        self.give(piece)
    }
}

// The next functions hide the clauses of what is tested: a test that knows less is proved sooner.
fn written(sink: &MemSink) -> &[u8] {
    sink.written()
}

// Whether the case ends so and writes this, whatever comes after the end of its input and of its rule file.
fn ends_late(
    alloc: Global,
    case: Case<'_>,
    after: After,
    status: Status,
    text: &[u8],
) -> Result<bool, AllocError> {
    let words = words_of(alloc, case.words)?;
    let mut input = Late::new(alloc, case.input, after)?;
    let mut shelf = Late::new(alloc, case.rules, after)?;
    let mut out = sink_with(alloc, &[])?;
    let mut err = sink_with(alloc, &[])?;
    let end = answer(alloc, &words, &mut input, &mut shelf, &mut out, &mut err);
    Ok(end == status && written(&out) == text && input.late == 0 && shelf.late == 0)
}

// Cases of each command, how they end, and what they write.
fn cases() -> [(Case<'static>, Status, &'static [u8]); 7] {
    let tidying = words_alone("tidy");
    let program = Case {
        input: two_registers(),
        ..tidying
    };
    let empty = Status::Qasm(QasmFault::Syntax { place: 0 });
    let cut = Case {
        rules: b"quartz-rules 1\n",
        ..optimising()
    };
    let no_program = Case {
        input: b"",
        ..optimising()
    };
    let turned_back =
        b"OPENQASM 2.0;\ninclude \"qelib1.inc\";\nqreg q[1];\nrz(-pi/4) q[0];\n".as_slice();
    let trial = b"trial 1 1 0\nbefore 0\nafter 0\n".as_slice();
    let rules = two_gates().as_bytes();
    [
        (words_alone("generate 2 1 0"), Status::Ok, rules),
        (words_alone("trial 1 1 0"), Status::Ok, trial),
        (program, Status::Ok, measured_lines()),
        (tidying, empty, b""),
        (optimising(), Status::Ok, turned_back),
        (cut, Status::RuleSyntax { place: 15 }, b""),
        (no_program, empty, b""),
    ]
}

// What was told to be at its end is not read again.
#[test]
fn nothing_after_the_end_changes_an_answer(rt: HostRuntime) -> Result<(), Fail> {
    for (case, status, text) in cases() {
        for after in [After::End, After::Fault, After::More] {
            let as_wanted = ends_late(rt.alloc(), case, after, status, text)?;
            assert!(rt; as_wanted, "{status:?} {after:?}");
        }
    }
    Ok(())
}
