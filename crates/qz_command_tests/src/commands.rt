//! What the program answers for some lists of words.

use qz_circ::{Bounds, QasmFault, Which};
use qz_io::{MemSink, SureShelf, SureSink, SureSource};
use qz_samples::{two_gates, words_of};
use qz_search::Plan;
use qz_top::{Command, Status, WordFault, read_words, run_solo};
use std::alloc::{AllocError, Global};
use std::process::Abort;
use std::str;
use std::test::Fail;

// The next functions hide the clauses of what is tested: a test that knows less is proved sooner.
fn answer(alloc: Global, words: &[String], out: &mut MemSink) -> Status {
    let mut input = SureSource::new(Vec::new(alloc));
    let mut shelf = SureShelf::new(Vec::new(alloc));
    let mut err = SureSink::new(alloc);
    run_solo(alloc, words, &mut input, &mut shelf, out, &mut err)
}

fn sink(alloc: Global) -> MemSink {
    MemSink::new(alloc, Vec::new(alloc))
}

// A sink that takes so many bytes before it fails.
fn sink_until(alloc: Global, stop: u64) -> Result<MemSink, AllocError> {
    Ok(MemSink::new(alloc, vec![in alloc; stop]?))
}

fn number_of(status: Status) -> u8 {
    status.number()
}

fn written(out: &MemSink) -> &[u8] {
    out.written()
}

fn faults(out: &MemSink) -> u64 {
    out.faults()
}

fn wants(out: &MemSink) -> u64 {
    out.wants()
}

fn read(words: &[String]) -> Result<Command, WordFault> {
    read_words(words)
}

// ---- what is written

// Whether the words give this text, and the status of success.
fn is_written(alloc: Global, words: &[String], text: &str) -> bool {
    let mut out = sink(alloc);
    let status = answer(alloc, words, &mut out);
    status == Status::Ok && written(&out) == text.as_bytes() && wants(&out) == 0
}

// The words of each first text give the second one.
pub(super) fn writes(rt: &impl Abort, alloc: Global, rows: &[(&str, &str)]) {
    for (text, rules) in rows {
        let done = words_of(alloc, text).is_ok_and(|words| is_written(alloc, &words, rules));
        assert!(rt; done, "at {text}");
    }
}

// A report changes nothing of the rules, nor do the seed and the workers.
#[test]
fn writes_rules(rt: HostRuntime) {
    let no_gates = "quartz-rules 1\nbounds 0 1 0\nclasses 0\nend\n";
    let one_gate = "quartz-rules 1\nbounds 1 2 0\nclasses 0\nend\n";
    let finer = "quartz-rules 2\nbounds 0 1 0 8\nclasses 0\nend\n";
    let rows = [
        ("generate 0 1 0", no_gates),
        ("generate 01 2 000", one_gate),
        ("generate 0 1 0 --grain 8", finer),
        ("generate 2 1 0", two_gates()),
        ("generate 2 1 0 --grain 4 --workers 2", two_gates()),
        ("generate 2 1 0 --seed 2 --workers 16", two_gates()),
        ("generate 2 1 0 --report", two_gates()),
        ("generate 2 1 0 --report --seed 1 --workers 2", two_gates()),
    ];
    writes(&rt, rt.alloc(), &rows);
}

// Whether the text is of so many lines, and has each of these parts.
fn has_parts(text: &[u8], lines: usize, parts: &[&str]) -> bool {
    match str::from_utf8(text) {
        Ok(text) => {
            text.lines().count() == lines && parts.iter().all(|part| text.contains(*part))
        }
        Err(_) => false,
    }
}

// Whether the words give rules of so many lines, with each of these parts.
fn has_rules(alloc: Global, words: &[String], lines: usize, parts: &[&str]) -> bool {
    let mut out = sink(alloc);
    answer(alloc, words, &mut out) == Status::Ok && has_parts(written(&out), lines, parts)
}

// The words of this text give rules of so many lines, with each of these parts.
fn writes_parts(rt: &impl Abort, alloc: Global, text: &str, lines: usize, parts: &[&str]) {
    let done = words_of(alloc, text).is_ok_and(|words| has_rules(alloc, &words, lines, parts));
    assert!(rt; done, "at {text}");
}

// 33 classes of 111 members with one parameter, 130 of 349 on two qubits.
#[test]
fn writes_rules_with_a_parameter_and_on_two_qubits(rt: HostRuntime) {
    let alloc = rt.alloc();
    let head = "quartz-rules 1\nbounds 2 1 1\nclasses 33\nclass 12\n-\nh 0;h 0\n";
    let last_members = "\nrz(p0) 0;rz(-p0) 0\nrz(-p0) 0;rz(p0) 0\nclass ";
    let flipped = "\nclass 2\nx 0;rz(p0) 0\nrz(-p0) 0;x 0\n";
    let lines = 3 + 33 + 111 + 1;
    let parts = [head, last_members, flipped];
    writes_parts(&rt, alloc, "generate 2 1 1", lines, &parts);
    let head = "quartz-rules 1\nbounds 2 2 0\nclasses 130\nclass 21\n-\nh 0;h 0\n";
    writes_parts(&rt, alloc, "generate 2 2 0", 3 + 130 + 349 + 1, &[head]);
}

fn ends_with(text: &[u8], end: &str) -> bool {
    text.ends_with(end.as_bytes())
}

// At a sink that takes so many bytes, the beginning of the rules is written.
fn ends_after(rt: &impl Abort, alloc: Global, stop: u64, end: &str) -> Result<(), AllocError> {
    let words = words_of(alloc, "generate 2 1 0")?;
    let mut out = sink_until(alloc, stop)?;
    assert_eq!(rt; answer(alloc, &words, &mut out), Status::WriteFault);
    let text = written(&out);
    assert_eq!(rt; text.len() as u64, stop);
    assert!(rt; two_gates().as_bytes().starts_with(text));
    assert!(rt; ends_with(text, end));
    assert_eq!(rt; faults(&out), 1);
    Ok(())
}

#[test]
fn ends_at_a_write_fault(rt: HostRuntime) -> Result<(), Fail> {
    ends_after(&rt, rt.alloc(), 0, "")?;
    ends_after(&rt, rt.alloc(), 100, "rz")?;
    Ok(())
}

// ---- what words ask for

// The words of each text ask for this command.
fn asks(rt: &impl Abort, alloc: Global, rows: &[(&str, Option<Command>)]) {
    for (text, command) in rows {
        let done = words_of(alloc, text).is_ok_and(|words| read(&words).ok() == *command);
        assert!(rt; done && command.is_some(), "at {text}");
    }
}

// The generation of two gates on one qubit.
fn generation(workers: u64, seed: u64, report: bool) -> Option<Command> {
    generation_of(4, workers, seed, report)
}

// The same with constants of this grain.
fn generation_of(grain: u64, workers: u64, seed: u64, report: bool) -> Option<Command> {
    let bounds = Bounds::with_grain(2, 1, 0, grain).ok()?;
    Some(Command::Generate {
        bounds,
        workers,
        seed,
        report,
    })
}

// An optimisation by the file that this word names, with a plan of so many rounds and circuits.
fn optimisation(rules: usize, plan: [u64; 4], workers: u64) -> Option<Command> {
    let plan = Plan::new(plan[0], plan[1], plan[2], plan[3]).ok()?;
    Some(Command::Optimise {
        rules,
        plan,
        workers,
    })
}

// An optimisation by the file that the third word names, with gates that weigh so much.
fn weighed(weights: [u64; 4]) -> Option<Command> {
    let plan = Plan::weighted(16, 8, 100, 0, weights).ok()?;
    Some(Command::Optimise {
        rules: 2,
        plan,
        workers: 1,
    })
}

// A table of costs names kinds of gates in any order, and those that it doesn't name weigh 1.
#[test]
fn reads_tables_of_costs(rt: HostRuntime) {
    let rows = [
        (
            "optimise --rules r --cost cx=10,h=2",
            weighed([2, 1, 10, 1]),
        ),
        (
            "optimise --rules r --cost rz=004,cx=3,x=100,h=1",
            weighed([1, 100, 3, 4]),
        ),
        ("optimise --rules r --cost x=1", weighed([1, 1, 1, 1])),
    ];
    asks(&rt, rt.alloc(), &rows);
    let rows = [
        ("optimise --rules r --cost y=2", Status::Usage),
        ("optimise --rules r --cost cx=5,cx=5", Status::Usage),
        ("optimise --rules r --cost cx=", Status::Usage),
        ("optimise --rules r --cost h", Status::Usage),
        ("optimise --rules r --cost h=1,", Status::Usage),
    ];
    refuses(&rt, rt.alloc(), &rows);
}

// The value of an option is the next word, whatever it is.
#[test]
fn reads_options(rt: HostRuntime) {
    let all = "generate 2 1 0 --workers 16 --seed 999999999999999999 --report";
    let padded = "generate 002 01 0 --report --seed 007 --workers 02";
    let finer = "generate 2 1 0 --grain 16 --report --workers 3";
    let generations = [
        ("generate 2 1 0", generation(1, 0, false)),
        (all, generation(16, 999_999_999_999_999_999, true)),
        (padded, generation(2, 7, true)),
        ("generate 2 1 0 --seed 1", generation(1, 1, false)),
        (finer, generation_of(16, 3, 0, true)),
        ("tidy", Some(Command::Tidy)),
    ];
    asks(&rt, rt.alloc(), &generations);
    let all = "optimise --slack 4 --cap 500 --batch 64 --rounds 64 --workers 16 --rules r";
    let of_options = "optimise --rounds 0 --rules --rules --workers 4";
    let of_a_command = "optimise --batch 1 --rules tidy --rounds 4096";
    let optimisations = [
        ("optimise --rules r", optimisation(2, [16, 8, 100, 0], 1)),
        (all, optimisation(12, [64, 64, 500, 4], 16)),
        (
            "optimise --rules --cap --cap 7",
            optimisation(2, [16, 8, 7, 0], 1),
        ),
        (of_options, optimisation(4, [0, 8, 100, 0], 4)),
        (of_a_command, optimisation(4, [4096, 1, 100, 0], 1)),
    ];
    asks(&rt, rt.alloc(), &optimisations);
    let checks = [
        ("check --with f", Some(Command::Check { other: 2 })),
        ("check --with --with", Some(Command::Check { other: 2 })),
    ];
    asks(&rt, rt.alloc(), &checks);
}

// ---- what is refused

// Whether the words are refused with this status, and nothing is written.
fn is_refused(alloc: Global, words: &[String], status: Status) -> bool {
    let mut out = sink(alloc);
    answer(alloc, words, &mut out) == status && written(&out).is_empty()
}

// The words of each text are refused with this status.
pub(super) fn refuses(rt: &impl Abort, alloc: Global, rows: &[(&str, Status)]) {
    for (text, status) in rows {
        let done = words_of(alloc, text).is_ok_and(|words| is_refused(alloc, &words, *status));
        assert!(rt; done, "at {text}");
    }
}

#[test]
fn refuses_words(rt: HostRuntime) {
    let alloc = rt.alloc();
    assert!(rt; is_refused(alloc, &[], Status::Usage));
    let usage = Status::Usage;
    let rows = [
        ("", usage),
        ("generate 2 1", usage),
        ("generate 2 1 x", usage),
        ("generate 2 1 ", usage),
        ("generate 2 +1 0", usage),
        ("generate 2 1 0000000000000000000", usage),
        ("generate 9 9 x", usage),
        ("generate 2 1 0 --seed 1 --seed 2", usage),
        ("generate 2 1 0 --report 1", usage),
        ("generate 2 1 0 --grain", usage),
        ("generate 2 1 0 --grain 8 --grain 8", usage),
        ("optimise --rules r --grain 8", usage),
        ("tidy now", usage),
        ("optimise", usage),
    ];
    refuses(&rt, alloc, &rows);
    let qubits = Status::Limit(Which::BoundsQubits);
    let rows = [
        ("generate 2 4 0", qubits),
        ("generate 2 4 0 --report", qubits),
        ("generate 7 1 0", Status::Limit(Which::BoundsGates)),
        ("generate 1 1 4", Status::Limit(Which::BoundsParams)),
        ("generate 5 2 2", Status::Limit(Which::BoundsCircuits)),
        ("generate 999999999999999999 000000000000000004 9", qubits),
    ];
    refuses(&rt, alloc, &rows);
}

#[test]
fn numbers_statuses(rt: HostRuntime) {
    let rows = [
        (Status::Ok, 0),
        (Status::Usage, 2),
        (Status::Limit(Which::BoundsQubits), 3),
        (Status::Limit(Which::BoundsGates), 3),
        (Status::Limit(Which::BoundsParams), 3),
        (Status::Limit(Which::BoundsCircuits), 3),
        (Status::WriteFault, 9),
        (Status::Shapes { input: 1, file: 2 }, 16),
        (Status::FileQasm(QasmFault::Memory), 17),
    ];
    for (status, number) in rows {
        assert_eq!(rt; number_of(status), number);
    }
}

// The words of this text are refused for this.
fn faults_of(rt: &impl Abort, alloc: Global, text: &str, fault: WordFault) {
    let done = words_of(alloc, text).is_ok_and(|words| read(&words) == Err(fault));
    assert!(rt; done, "at {text}");
}

// The words of each of these texts are in no written form.
fn usages(rt: &impl Abort, alloc: Global, texts: &[&str]) {
    for text in texts {
        faults_of(rt, alloc, text, WordFault::Usage);
    }
}

// Words in no written form are that, also where a number is past a limit.
#[test]
fn reads_no_other_words(rt: HostRuntime) {
    let alloc = rt.alloc();
    let other_words = ["--", "--help", "--version", "Tidy", "tidy --"];
    usages(&rt, alloc, &other_words);
    let options_of_generations = [
        "generate 2 1 0 --workers=2",
        "generate 2 1 0 --",
        "generate 2 1 0 4",
        "generate --seed 1 2 1 0",
        "generate 2 1 --seed 1 0",
        "generate 2 1 0 --workers",
        "generate 2 1 0 --workers x",
        "generate 2 1 0 --workers 2 3",
        "generate 2 1 0 --workers 0000000000000000001",
        "generate 2 1 0 --report --report",
        "generate 2 1 0 --seed --report",
        "generate 2 1 0 --rounds 1",
        "generate 2 1 0 --rules r",
        "generate 9 9 9 --workers 0 --seed",
    ];
    usages(&rt, alloc, &options_of_generations);
    let options_of_optimisations = [
        "optimise r",
        "optimise --rules",
        "optimise --rules ",
        "optimise --cap 7",
        "optimise --rules --cap 7",
        "optimise --rules r --rules r",
        "optimise --rules r --cap 7 --cap 7",
        "optimise --rules r --seed 1",
        "optimise --rules r --report",
        "optimise --rules r --rounds -1",
        "optimise --rules r --slack",
        "optimise --rules=r",
        "optimise --batch 0 --workers 0",
        "optimise --batch 0 --rules r --rounds x",
    ];
    usages(&rt, alloc, &options_of_optimisations);
    let options_of_checks = [
        "check",
        "check f",
        "check --with",
        "check --with ",
        "check --with=f",
        "check f --with",
        "check --with f f",
        "check --with f --with f",
        "check --rules f",
        "check --with f --workers 1",
    ];
    usages(&rt, alloc, &options_of_checks);
}

// The words of each text pass this limit first.
fn passes(rt: &impl Abort, alloc: Global, rows: &[(&str, Which)]) {
    for (text, which) in rows {
        faults_of(rt, alloc, text, WordFault::Limit(*which));
    }
}

#[test]
fn tells_the_first_limit(rt: HostRuntime) {
    let generations = [
        ("generate 7 4 4 --workers 0", Which::BoundsQubits),
        ("generate 7 1 4 --workers 17", Which::BoundsGates),
        ("generate 6 3 4 --workers 17", Which::BoundsParams),
        ("generate 1 1 4 --grain 5", Which::BoundsParams),
        ("generate 6 1 0 --grain 5 --workers 0", Which::BoundsGrain),
        (
            "generate 6 1 0 --grain 8 --workers 0",
            Which::BoundsCircuits,
        ),
        ("generate 5 2 2 --workers 0", Which::BoundsCircuits),
        ("generate 2 1 0 --workers 0", Which::Workers),
        ("generate 2 1 0 --workers 17", Which::Workers),
    ];
    passes(&rt, rt.alloc(), &generations);
    let all = "optimise --workers 0 --slack 5 --rounds 9999 --cap 0 --batch 0 --rules r";
    let but_the_batch = "optimise --workers 0 --slack 5 --rounds 9999 --cap 0 --rules r";
    let many_rounds = "optimise --rounds 999999999999999999 --batch 64 --rules r";
    let optimisations = [
        (all, Which::PlanBatch),
        ("optimise --batch 65 --cap 501 --rules r", Which::PlanBatch),
        (but_the_batch, Which::PlanCap),
        ("optimise --rounds 9999 --cap 501 --rules r", Which::PlanCap),
        (
            "optimise --workers 17 --slack 5 --rounds 513 --rules r",
            Which::PlanRounds,
        ),
        (
            "optimise --rounds 9999 --batch 1 --rules r",
            Which::PlanRounds,
        ),
        (many_rounds, Which::PlanRounds),
        ("optimise --workers 0 --slack 5 --rules r", Which::PlanSlack),
        (
            "optimise --workers 0 --cost rz=101,h=0 --rules r",
            Which::CostWeight,
        ),
        ("optimise --cost cx=0 --slack 5 --rules r", Which::PlanSlack),
        ("optimise --workers 0 --rules r", Which::Workers),
        ("optimise --workers 17 --rules r", Which::Workers),
    ];
    passes(&rt, rt.alloc(), &optimisations);
}
