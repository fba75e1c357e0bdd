//! The texts of statuses and of reports, each written at once, and that nothing on the error stream changes a status.
ghost use Rattle.std.specs.Prelude.{true, None};

use qz_circ::{AngleFault, LexFault, QasmFault, Which};
use qz_io::{IoFault, MemShelf, MemSink, MemSource, Named, Sink};
use qz_samples::words_of;
use qz_top::Status::{Limit, Qasm};
use qz_top::{Status, run_solo, tell};
use std::alloc::{AllocError, Global};
use std::process::Abort;
use std::test::Fail;

// A sink that fails at these places.
fn sink_with(alloc: Global, stops: &[u64]) -> Result<MemSink, AllocError> {
    Ok(MemSink::new(alloc, Vec::from_slice(alloc, stops)?))
}

// The next functions hide the clauses of what is tested: a test that knows less is proved sooner.
fn written(sink: &MemSink) -> &[u8] {
    sink.written()
}

fn faults(sink: &MemSink) -> u64 {
    sink.faults()
}

fn tell_sink(status: Status, err: &mut MemSink) {
    tell(status, err);
}

// Whether a sink that fails at these places is told just this of the text of the status.
fn is_told(alloc: Global, status: Status, stops: &[u64], text: &str) -> Result<bool, AllocError> {
    let mut err = sink_with(alloc, stops)?;
    tell_sink(status, &mut err);
    Ok(written(&err) == text.as_bytes())
}

// A sink that takes all of each piece, and counts the pieces.
#[derive(Drop)]
struct Counting {
    pieces: u64,
}

impl Sink for Counting {
    ghost written = { λ _. None };

    ghost faults = { λ _. 0 };

    ghost wants = { λ _. 0 };

    ghost answers_faults = { true };

    fn write(&mut self, piece: &[u8]) -> Result<usize, IoFault> {
        self.pieces = self.pieces.saturating_add(1);
        Ok(piece.len())
    }
}

// How often the text of a status is written to such a sink.
fn writes_of(status: Status) -> u64 {
    let mut err = Counting { pieces: 0 };
    tell(status, &mut err);
    err.pieces
}

// The text of each status is this one, and is written at once.
fn tells(rt: &impl Abort, alloc: Global, rows: &[(Status, &str)]) {
    for (status, text) in rows {
        assert!(rt;
            is_told(alloc, *status, &[], text).unwrap_or(false) && writes_of(*status) == 1,
            "{status:?}"
        );
    }
}

fn limits() -> [(Status, &'static str); 23] {
    [
        (Limit(Which::BoundsQubits), "limit: bounds-qubits\n"),
        (Limit(Which::BoundsGates), "limit: bounds-gates\n"),
        (Limit(Which::BoundsParams), "limit: bounds-params\n"),
        (Limit(Which::BoundsGrain), "limit: bounds-grain\n"),
        (Limit(Which::BoundsCircuits), "limit: bounds-circuits\n"),
        (Limit(Which::Workers), "limit: workers\n"),
        (Limit(Which::PlanBatch), "limit: plan-batch\n"),
        (Limit(Which::PlanCap), "limit: plan-cap\n"),
        (Limit(Which::PlanRounds), "limit: plan-rounds\n"),
        (Limit(Which::PlanSlack), "limit: plan-slack\n"),
        (Limit(Which::CostWeight), "limit: cost-weight\n"),
        (Limit(Which::InputBytes), "limit: input-bytes\n"),
        (Limit(Which::RuleBytes), "limit: rule-bytes\n"),
        (Limit(Which::ProgramRegisters), "limit: program-registers\n"),
        (Limit(Which::ProgramQubits), "limit: program-qubits\n"),
        (Limit(Which::ProgramBits), "limit: program-bits\n"),
        (Limit(Which::ProgramGates), "limit: program-gates\n"),
        (Limit(Which::TrialQubits), "limit: trial-qubits\n"),
        (Limit(Which::TrialGates), "limit: trial-gates\n"),
        (Limit(Which::FileBytes), "limit: file-bytes\n"),
        (Limit(Which::CheckQubits), "limit: check-qubits\n"),
        (Limit(Which::CheckHalves), "limit: check-halves\n"),
        (Limit(Which::CheckGates), "limit: check-gates\n"),
    ]
}

fn faults_of_tokens_and_angles() -> [(Status, &'static str); 9] {
    let byte = QasmFault::Lex(LexFault::BadByte { place: 0 });
    let long = QasmFault::Lex(LexFault::LongName { place: 10 });
    let big = QasmFault::Lex(LexFault::BigNumber { place: 99 });
    let form = QasmFault::Angle(AngleFault::Form { place: 1 });
    let deep = QasmFault::Angle(AngleFault::Deep { place: 2 });
    let kind = QasmFault::Angle(AngleFault::Kind { place: 3 });
    let zero = QasmFault::Angle(AngleFault::ZeroDivisor { place: 4 });
    let range = QasmFault::Angle(AngleFault::Range { place: 5 });
    let multiple = QasmFault::Angle(AngleFault::NotMultiple { place: 4_194_304 });
    [
        (Qasm(byte), "program: BadByte at 0\n"),
        (Qasm(long), "program: LongName at 10\n"),
        (Qasm(big), "program: BigNumber at 99\n"),
        (Qasm(form), "program: AngleForm at 1\n"),
        (Qasm(deep), "program: AngleDeep at 2\n"),
        (Qasm(kind), "program: AngleKind at 3\n"),
        (Qasm(zero), "program: AngleZeroDivisor at 4\n"),
        (Qasm(range), "program: AngleRange at 5\n"),
        (Qasm(multiple), "program: AngleNotMultiple at 4194304\n"),
    ]
}

fn faults_of_statements() -> [(Status, &'static str); 8] {
    let unsupported = QasmFault::Unsupported { place: 9 };
    let gate = QasmFault::UnknownGate { place: 14 };
    let name = QasmFault::UnknownName { place: 27 };
    [
        (
            Qasm(QasmFault::Syntax { place: 21 }),
            "program: Syntax at 21\n",
        ),
        (Qasm(unsupported), "program: Unsupported at 9\n"),
        (Qasm(gate), "program: UnknownGate at 14\n"),
        (Qasm(name), "program: UnknownName at 27\n"),
        (
            Qasm(QasmFault::Twice { place: 30 }),
            "program: Twice at 30\n",
        ),
        (
            Qasm(QasmFault::Index { place: 29 }),
            "program: Index at 29\n",
        ),
        (
            Qasm(QasmFault::SameQubit { place: 33 }),
            "program: SameQubit at 33\n",
        ),
        (
            Qasm(QasmFault::Sizes { place: 40 }),
            "program: Sizes at 40\n",
        ),
    ]
}

fn unsound_file(class: u64, member: u64) -> Status {
    Status::Unsound { class, member }
}

fn other_statuses() -> [(Status, &'static str); 10] {
    let other_file = Status::FileQasm(QasmFault::Angle(AngleFault::NotMultiple { place: 28 }));
    let shapes = Status::Shapes { input: 1, file: 20 };
    let syntax = Status::RuleSyntax { place: u64::MAX };
    let unsound = "rules: class 12 member 345 is not equivalent to member 1\n";
    [
        (Status::Memory, "out of memory\n"),
        (Status::Usage, "usage: quartz COMMAND [words]\n"),
        (syntax, "rules: Syntax at 18446744073709551615\n"),
        (unsound_file(12, 345), unsound),
        (Status::NoFile, "no such file\n"),
        (Status::ReadFault, "read fault\n"),
        (Status::WriteFault, "write fault\n"),
        (Status::ShelfFault, "rule file fault\n"),
        (shapes, "check: 1 and 20 qubits\n"),
        (other_file, "file: AngleNotMultiple at 28\n"),
    ]
}

// A text of the greatest length has its numbers whole.
fn longest_text() -> [(Status, &'static str); 1] {
    let text =
        "rules: class 18446744073709551615 member 18446744073709551615 is not equivalent to member 1\n";
    [(unsound_file(u64::MAX, u64::MAX), text)]
}

#[test]
fn tells_each_status_at_once(rt: HostRuntime) {
    let alloc = rt.alloc();
    tells(&rt, alloc, &limits());
    tells(&rt, alloc, &faults_of_tokens_and_angles());
    tells(&rt, alloc, &faults_of_statements());
    tells(&rt, alloc, &other_statuses());
    tells(&rt, alloc, &longest_text());
    assert!(rt; is_told(alloc, Status::Ok, &[], "").unwrap_or(false) && writes_of(Status::Ok) == 0);
}

// Nothing is written after a fault, wherever in the text it comes.
#[test]
fn tells_nothing_after_a_fault(rt: HostRuntime) {
    let rows = [
        (0, ""),
        (6, "rules:"),
        (13, "rules: class "),
        (14, "rules: class 1"),
        (20, "rules: class 12 memb"),
        (
            56,
            "rules: class 12 member 345 is not equivalent to member 1",
        ),
    ];
    for (stop, text) in rows {
        let told = is_told(rt.alloc(), unsound_file(12, 345), &[stop], text);
        assert!(rt; told.unwrap_or(false), "at {stop}");
    }
}

// What a run is given: its words, parted by single spaces; the input; the rule file r; and where the input, the shelf and the
// output fail.
#[derive(Clone, Copy)]
struct Case<'a> {
    words: &'a str,
    input: &'a str,
    rules: &'a str,
    input_stops: &'a [u64],
    shelf_stops: &'a [u64],
    out_stops: &'a [u64],
}

// These words, with an empty input and an empty rule file, and nothing that fails.
fn words_alone(words: &str) -> Case<'_> {
    Case {
        words,
        input: "",
        rules: "",
        input_stops: &[],
        shelf_stops: &[],
        out_stops: &[],
    }
}

// A shelf with the rule file r.
fn shelf_with(alloc: Global, rules: &str, stops: &[u64]) -> Result<MemShelf, AllocError> {
    let file = Vec::from_slice(alloc, rules.as_bytes())?;
    let mut files = Vec::new(alloc);
    files.push(Named::new(String::from_str(alloc, "r")?, file))?;
    Ok(MemShelf::new(files, Vec::from_slice(alloc, stops)?, false))
}

fn answer<E: Sink>(
    alloc: Global,
    words: &[String],
    input: &mut MemSource,
    shelf: &mut MemShelf,
    out: &mut MemSink,
    err: &mut E,
) -> Status {
    run_solo(alloc, words, input, shelf, out, err)
}

// How the run ends with this error stream.
fn end_of<E: Sink>(alloc: Global, case: Case<'_>, err: &mut E) -> Result<Status, AllocError> {
    let words = words_of(alloc, case.words)?;
    let bytes = Vec::from_slice(alloc, case.input.as_bytes())?;
    let mut input = MemSource::new(bytes, Vec::from_slice(alloc, case.input_stops)?);
    let mut shelf = shelf_with(alloc, case.rules, case.shelf_stops)?;
    let mut out = sink_with(alloc, case.out_stops)?;
    Ok(answer(alloc, &words, &mut input, &mut shelf, &mut out, err))
}

// Whether the run ends so with an error stream that fails at these places, which is told just this text.
fn is_end(
    alloc: Global,
    case: Case<'_>,
    stops: &[u64],
    status: Status,
    text: &str,
) -> Result<bool, AllocError> {
    let mut err = sink_with(alloc, stops)?;
    let end = end_of(alloc, case, &mut err)?;
    Ok(end == status && written(&err) == text.as_bytes())
}

// Each run ends so and tells this text; it ends just so where the error stream fails at once, or after three bytes.
fn ends(rt: &impl Abort, alloc: Global, rows: &[(Case<'_>, Status, &str)]) {
    for (case, status, text) in rows {
        let start = text.get(..3).unwrap_or("");
        let calm = is_end(alloc, *case, &[], *status, text).unwrap_or(false);
        let at_once = is_end(alloc, *case, &[0], *status, "").unwrap_or(false);
        let later = is_end(alloc, *case, &[3], *status, start).unwrap_or(false);
        assert!(rt; calm && at_once && later, "{status:?}");
    }
}

fn refusals() -> [(Case<'static>, Status, &'static str); 7] {
    let tidy = words_alone("tidy");
    let by_file = words_alone("optimise --rules r");
    let input = "OPENQASM 2.0;\nqreg q[65];";
    let many_qubits = Case { input, ..tidy };
    let rules = "quartz-rules 3\n";
    let other_rules = Case { rules, ..by_file };
    let rules = "quartz-rules 1\nbounds 1 1 0\nclasses 1\nclass 2\nh 0\nx 0\nend\n";
    let wrong_rules = Case { rules, ..by_file };
    let no_file = words_alone("optimise --rules none");
    let qubits = Limit(Which::BoundsQubits);
    let syntax = Qasm(QasmFault::Syntax { place: 0 });
    let place = 13;
    let unsound = "rules: class 1 member 2 is not equivalent to member 1\n";
    [
        (
            words_alone("quartz"),
            Status::Usage,
            "usage: quartz COMMAND [words]\n",
        ),
        (
            words_alone("generate 2 4 0"),
            qubits,
            "limit: bounds-qubits\n",
        ),
        (tidy, syntax, "program: Syntax at 0\n"),
        (
            many_qubits,
            Limit(Which::ProgramQubits),
            "limit: program-qubits\n",
        ),
        (no_file, Status::NoFile, "no such file\n"),
        (
            other_rules,
            Status::RuleSyntax { place },
            "rules: Syntax at 13\n",
        ),
        (wrong_rules, unsound_file(1, 2), unsound),
    ]
}

// No report is told where its rules could not be written.
fn faults_of_the_outside() -> [(Case<'static>, Status, &'static str); 4] {
    let input_stops = &[0];
    let shelf_stops = &[0];
    let out_stops = &[100];
    let input = Case {
        input_stops,
        ..words_alone("tidy")
    };
    let shelf = Case {
        shelf_stops,
        ..words_alone("optimise --rules r")
    };
    let out = Case {
        out_stops,
        ..words_alone("generate 2 1 0")
    };
    let reported = Case {
        out_stops,
        ..words_alone("generate 2 1 0 --report")
    };
    [
        (input, Status::ReadFault, "read fault\n"),
        (shelf, Status::ShelfFault, "rule file fault\n"),
        (out, Status::WriteFault, "write fault\n"),
        (reported, Status::WriteFault, "write fault\n"),
    ]
}

fn reports() -> [(Case<'static>, Status, &'static str); 2] {
    let plain = "extended 90\nkept 91\nclasses 17\nmembers 77\nprints 31\n";
    let with_a_parameter = "extended 132\nkept 133\nclasses 33\nmembers 111\nprints 55\n";
    let seeded = words_alone("generate 2 1 1 --seed 1 --report");
    [
        (words_alone("generate 2 1 0 --report"), Status::Ok, plain),
        (seeded, Status::Ok, with_a_parameter),
    ]
}

#[test]
fn ends_alike_whatever_the_error_stream_does(rt: HostRuntime) {
    let alloc = rt.alloc();
    ends(&rt, alloc, &refusals());
    ends(&rt, alloc, &faults_of_the_outside());
    ends(&rt, alloc, &reports());
}

// How often a report is written.
fn writes_of_a_report(alloc: Global) -> Result<u64, AllocError> {
    let mut err = Counting { pieces: 0 };
    end_of(alloc, words_alone("generate 1 1 0 --report"), &mut err)?;
    Ok(err.pieces)
}

// A run that is done without a report tells nothing, so that an error stream that would fail counts no fault. The five lines of
// a report are written at once.
#[test]
fn tells_a_report_at_once_and_else_nothing(rt: HostRuntime) -> Result<(), Fail> {
    let alloc = rt.alloc();
    let mut err = sink_with(alloc, &[0])?;
    let end = end_of(alloc, words_alone("generate 1 1 0"), &mut err)?;
    assert!(rt; end == Status::Ok && written(&err).is_empty() && faults(&err) == 0);
    assert!(rt; writes_of_a_report(alloc)? == 1);
    Ok(())
}
