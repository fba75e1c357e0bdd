//! What `optimise` writes for some programs, why it refuses some rule files without reading the input, and how it ends where the
//! outside fails.
ghost use Rattle.std.specs.Prelude.{true, false, None};

use qz_circ::{Inst, Memory, QasmFault, RuleFault, Which};
use qz_io::{IoFault, MemShelf, MemSink, MemSource, Named, Shelf, SureSink};
use qz_rulefile::{Rules, read};
use qz_samples::{measured_lines, two_gates, two_registers};
use qz_search::{Plan, search};
use qz_top::{Status, run_solo};
use std::alloc::{AllocError, Global};
use std::process::Abort;
use std::test::Fail;

// The next functions hide the clauses of what is tested: a test that knows less is proved sooner.
fn answer<F: Shelf>(
    alloc: Global,
    words: &[String],
    input: &mut MemSource,
    shelf: &mut F,
    out: &mut MemSink,
) -> Status {
    let mut err = SureSink::new(alloc);
    run_solo(alloc, words, input, shelf, out, &mut err)
}

fn left(input: &MemSource) -> &[u8] {
    input.left()
}

fn written(out: &MemSink) -> &[u8] {
    out.written()
}

fn number_of(status: Status) -> u8 {
    status.number()
}

// The words that ask to optimise by the rules in this file.
fn words_with(alloc: Global, name: &str) -> Result<Vec<String>, AllocError> {
    let mut words = Vec::new(alloc);
    words.push(String::from_str(alloc, "optimise")?)?;
    words.push(String::from_str(alloc, "--rules")?)?;
    words.push(String::from_str(alloc, name)?)?;
    Ok(words)
}

fn named(alloc: Global, name: &str, file: &str) -> Result<Named, AllocError> {
    let name = String::from_str(alloc, name)?;
    Ok(Named::new(name, Vec::from_slice(alloc, file.as_bytes())?))
}

// A shelf with the file r, and behind it another one of this name.
fn files(alloc: Global, first: &str, second: &str) -> Result<Vec<Named>, AllocError> {
    let mut files = Vec::new(alloc);
    files.push(named(alloc, "r", first)?)?;
    files.push(named(alloc, "r", second)?)?;
    Ok(files)
}

// Whether the words end so on this shelf, where nothing is read of the input and nothing is written.
fn ends<F: Shelf>(
    alloc: Global,
    name: &str,
    shelf: &mut F,
    status: Status,
) -> Result<bool, AllocError> {
    let words = words_with(alloc, name)?;
    let mut input = MemSource::new(Vec::from_slice(alloc, b"q")?, Vec::new(alloc));
    let mut out = MemSink::new(alloc, Vec::new(alloc));
    let end = answer(alloc, &words, &mut input, shelf, &mut out);
    Ok(end == status && left(&input).len() == 1 && written(&out).is_empty())
}

// Whether a file with this text makes the words end so.
fn file_ends(alloc: Global, file: &str, status: Status) -> Result<bool, AllocError> {
    let mut shelf = MemShelf::new(files(alloc, file, "")?, Vec::new(alloc), false);
    ends(alloc, "r", &mut shelf, status)
}

// Whether by the rules of this file the program is written so, and the input read to its end.
fn is_optimised(
    alloc: Global,
    file: &str,
    program: &[u8],
    text: &[u8],
) -> Result<bool, AllocError> {
    let words = words_with(alloc, "r")?;
    let mut shelf = MemShelf::new(files(alloc, file, "")?, Vec::new(alloc), false);
    let mut input = MemSource::new(Vec::from_slice(alloc, program)?, Vec::new(alloc));
    let mut out = MemSink::new(alloc, Vec::new(alloc));
    let end = answer(alloc, &words, &mut input, &mut shelf, &mut out);
    Ok(end == Status::Ok && left(&input).is_empty() && written(&out) == text)
}

// By the rules of this file the program is written so.
fn optimises(rt: &impl Abort, alloc: Global, file: &str, program: &[u8], text: &[u8]) {
    assert!(rt; is_optimised(alloc, file, program, text).unwrap_or(false));
}

// Whether this input, which fails at these places, ends the command so by the rules of two gates, and nothing is written.
fn input_ends(
    alloc: Global,
    program: &[u8],
    stops: &[u64],
    status: Status,
) -> Result<bool, AllocError> {
    let words = words_with(alloc, "r")?;
    let mut shelf = MemShelf::new(files(alloc, two_gates(), "")?, Vec::new(alloc), false);
    let stops = Vec::from_slice(alloc, stops)?;
    let mut input = MemSource::new(Vec::from_slice(alloc, program)?, stops);
    let mut out = MemSink::new(alloc, Vec::new(alloc));
    let end = answer(alloc, &words, &mut input, &mut shelf, &mut out);
    Ok(end == status && written(&out).is_empty())
}

// Each file makes the words end so.
fn refuses(rt: &impl Abort, alloc: Global, rows: &[(&str, Status)]) {
    for (file, status) in rows {
        let ended = file_ends(alloc, file, *status).unwrap_or(false);
        assert!(rt; ended, "{status:?}");
    }
}

// Whether the file with these lines after the first has its fault at this place.
fn has_fault_at(alloc: Global, lines: &str, place: u64) -> Result<bool, AllocError> {
    let mut file = String::from_str(alloc, "quartz-rules 1\n")?;
    file.push_str(lines)?;
    file_ends(alloc, file.as_str(), Status::RuleSyntax { place })
}

// Lines after the first, and the place of their fault. A letter that begins no gate within the bounds is a fault there.
fn faulty_lines() -> [(&'static str, u64); 14] {
    [
        ("bounds 02 1 0\nclasses 0\nend\n", 23),
        ("bounds 1234567890 1 0\n", 31),
        ("bounds 0 1 0\nclasses 0\nend\n\n", 42),
        ("bounds 2 1 0\nclasses 1\nclass 2\n", 46),
        ("bounds 1 1 0\nclasses 1\nclass 1\nh 0\nend\n", 45),
        ("bounds 1 1 0\nclasses 1\nclass 0\nend\n", 44),
        ("bounds 2 1 0\nclasses 1\nclass 2\n-\nh 1;h 0\nend\n", 50),
        ("bounds 0 1 0\nclasses 1\nclass 2\n-\nh 0\nend\n", 48),
        ("bounds 1 1 0\nclasses 1\nclass 2\nh 0;h 0\nx 0\nend\n", 49),
        ("bounds 2 1 0\nclasses 1\nclass 2\ncx 0 1\nh 0\nend\n", 46),
        ("bounds 2 2 0\nclasses 1\nclass 2\ncx 0 0\nh 0\nend\n", 51),
        ("bounds 2 1 0\nclasses 1\nclass 2\nrz(p0) 0\nh 0\nend\n", 49),
        ("bounds 2 1 1\nclasses 1\nclass 2\nrz(p1) 0\nh 0\nend\n", 50),
        ("bounds 1 1 0\nclasses 1\nclass 2\nrz(0) 0\nx 0\nend\n", 49),
    ]
}

#[test]
fn places_faults_of_rule_files(rt: HostRuntime) {
    let version = Status::RuleSyntax { place: 13 };
    let rows = [
        ("", Status::RuleSyntax { place: 0 }),
        ("quartz-rules 3\nbounds 2 1 0\n", version),
        ("quartz-rules 2", Status::RuleSyntax { place: 14 }),
        (
            "quartz-rules 2\nbounds 2 1 0\n",
            Status::RuleSyntax { place: 27 },
        ),
    ];
    refuses(&rt, rt.alloc(), &rows);
    for (lines, place) in faulty_lines() {
        let placed = has_fault_at(rt.alloc(), lines, place).unwrap_or(false);
        assert!(rt; placed, "{lines}");
    }
}

#[test]
fn refuses_bounds_and_unsound_rules(rt: HostRuntime) {
    let gates = "quartz-rules 1\nbounds 7 1 0\nclasses 0\nend\n";
    let second = "quartz-rules 1\nbounds 1 1 0\nclasses 1\nclass 2\nh 0\nx 0\nend\n";
    let third =
        "quartz-rules 1\nbounds 2 1 2\nclasses 2\nclass 2\nx 0\nx 0\nclass 3\nx 0;rz(p0) 0\nrz(-p0) 0;x 0\nrz(p0) 0;x 0\nend\n";
    let qubits = Status::Limit(Which::BoundsQubits);
    let params = Status::Limit(Which::BoundsParams);
    let grain = Status::Limit(Which::BoundsGrain);
    let circuits = Status::Limit(Which::BoundsCircuits);
    let rows = [
        (gates, Status::Limit(Which::BoundsGates)),
        ("quartz-rules 1\nbounds 2 4 0\n", qubits),
        ("quartz-rules 1\nbounds 2 1 4\nx", params),
        ("quartz-rules 2\nbounds 2 1 4 5\n", params),
        ("quartz-rules 2\nbounds 2 1 0 4\n", grain),
        ("quartz-rules 2\nbounds 6 3 3 12\n", grain),
        ("quartz-rules 1\nbounds 5 2 2\n", circuits),
        ("quartz-rules 2\nbounds 6 1 0 8\n", circuits),
        (second, unsound(1, 2)),
        (third, unsound(2, 3)),
    ];
    refuses(&rt, rt.alloc(), &rows);
}

fn unsound(class: u64, member: u64) -> Status {
    Status::Unsound { class, member }
}

// With these rules a program without gates is written as it is. A member may be there twice, and may be the empty circuit;
// circuits of no gate are allowed.
#[test]
fn reads_sound_rules(rt: HostRuntime) {
    let twice = "quartz-rules 1\nbounds 1 1 0\nclasses 1\nclass 2\nh 0\nh 0\nend\n";
    let empty = "quartz-rules 1\nbounds 2 1 0\nclasses 1\nclass 2\nh 0;h 0\n-\nend\n";
    let no_gate = "quartz-rules 1\nbounds 0 1 0\nclasses 1\nclass 2\n-\n-\nend\n";
    let sum =
        "quartz-rules 1\nbounds 2 1 2\nclasses 1\nclass 2\nrz(p0) 0;rz(p1) 0\nrz(p0+p1) 0\nend\n";
    let program = b"OPENQASM 2.0;".as_slice();
    let text = b"OPENQASM 2.0;\ninclude \"qelib1.inc\";\n".as_slice();
    for rules in [two_gates(), twice, empty, no_gate, sum] {
        optimises(&rt, rt.alloc(), rules, program, text);
    }
}

// Programs, and what the rules of two gates make of them: two H cancel around a gate on other qubits, and not around one on
// theirs; a rotation between two X is turned.
fn programs() -> [(&'static [u8], &'static [u8]); 3] {
    [
        (
            b"OPENQASM 2.0;\nqreg q[3];\nh q[0]; cx q[1],q[2]; h q[0];",
            b"OPENQASM 2.0;\ninclude \"qelib1.inc\";\nqreg q[3];\ncx q[1],q[2];\n",
        ),
        (
            b"OPENQASM 2.0;\nqreg q[3];\nh q[0]; cx q[0],q[1]; h q[0];",
            b"OPENQASM 2.0;\ninclude \"qelib1.inc\";\nqreg q[3];\nh q[0];\ncx q[0],q[1];\nh q[0];\n",
        ),
        (
            b"OPENQASM 2.0;\nqreg q[1];\nx q[0]; rz(pi/4) q[0]; x q[0];",
            b"OPENQASM 2.0;\ninclude \"qelib1.inc\";\nqreg q[1];\nrz(-pi/4) q[0];\n",
        ),
    ]
}

// The text with these lines before its first barrier.
fn before_barrier(alloc: Global, text: &[u8], lines: &[u8]) -> Result<Vec<u8>, AllocError> {
    let mut changed = Vec::new(alloc);
    for place in 0..text.len() {
        if text[place..].starts_with(b"barrier") {
            changed.extend_from_slice(lines)?;
            changed.extend_from_slice(&text[place..])?;
            return Ok(changed);
        }
        changed.push(text[place])?;
    }
    Ok(changed)
}

// The registers and the tail of a program are written as they are, and two rotations by a quarter as one.
#[test]
fn optimises_by_rules_of_two_gates(rt: HostRuntime) -> Result<(), Fail> {
    let alloc = rt.alloc();
    for (program, text) in programs() {
        optimises(&rt, alloc, two_gates(), program, text);
    }
    let program = before_barrier(alloc, two_registers(), b"t q[1];\nt q[1];\n")?;
    let text = before_barrier(alloc, measured_lines(), b"rz(pi/2) q[1];\n")?;
    optimises(&rt, alloc, two_gates(), &program, &text);
    Ok(())
}

// What so many rounds find from X, a rotation by pi/4 and X, by these rules.
fn found_by(alloc: Global, rules: &Rules, rounds: u64) -> Result<Vec<Inst>, Memory> {
    match Plan::new(rounds, 8, 100, 0) {
        Ok(plan) => search(
            alloc,
            rules,
            &[Inst::X(0), Inst::Rz(0, 64), Inst::X(0)],
            plan,
        ),
        Err(_) => Err(Memory),
    }
}

// Whether so many rounds find these gates by the rules of two gates.
fn rounds_find(alloc: Global, rounds: u64, wanted: &[Inst]) -> bool {
    let Ok(rules) = read(alloc, two_gates().as_bytes()) else {
        return false;
    };
    match found_by(alloc, &rules, rounds) {
        Ok(found) => found.as_slice() == wanted,
        Err(_) => false,
    }
}

#[test]
fn searches_by_rounds(rt: HostRuntime) {
    let unchanged = [Inst::X(0), Inst::Rz(0, 64), Inst::X(0)];
    let turned = [Inst::X(0), Inst::X(0), Inst::Rz(0, 448)];
    let alone = [Inst::Rz(0, 448)];
    let rows = [
        (0, unchanged.as_slice()),
        (1, turned.as_slice()),
        (2, alone.as_slice()),
        (16, alone.as_slice()),
    ];
    for (rounds, wanted) in rows {
        assert!(rt; rounds_find(rt.alloc(), rounds, wanted), "{rounds} rounds");
    }
}

// Whether the front of the file has its fault where it ends.
fn front_fails(alloc: Global, file: &[u8], length: usize) -> bool {
    let place = length as u64;
    match read(alloc, &file[..length.min(file.len())]) {
        Err(fault) => fault == RuleFault::Syntax { place },
        Ok(_) => false,
    }
}

#[test]
fn places_faults_where_files_are_cut(rt: HostRuntime) {
    let file = two_gates().as_bytes();
    for length in 0..file.len() {
        assert!(rt; front_fails(rt.alloc(), file, length));
    }
}

// Whether the words end so on a shelf with the rules of two gates, which fails at these places or at the next opening.
fn shelf_ends(
    alloc: Global,
    name: &str,
    stops: &[u64],
    fail_open: bool,
    status: Status,
) -> Result<bool, AllocError> {
    let stops = Vec::from_slice(alloc, stops)?;
    let mut shelf = MemShelf::new(files(alloc, two_gates(), "")?, stops, fail_open);
    ends(alloc, name, &mut shelf, status)
}

// The input is refused after the rules, and fails after them; the shelf fails at the opening and at a read.
#[test]
fn ends_by_inputs_and_shelves(rt: HostRuntime) -> Result<(), Fail> {
    let alloc = rt.alloc();
    let program = b"OPENQASM 2.0;\nqreg q[1];\nx q[0]; rz(pi/4) q[0]; x q[0];";
    assert!(rt; input_ends(alloc, program, &[0], Status::ReadFault)?);
    let syntax = Status::Qasm(QasmFault::Syntax { place: 0 });
    assert!(rt; input_ends(alloc, b"", &[], syntax)?);
    let qubits = Status::Limit(Which::ProgramQubits);
    assert!(rt; input_ends(alloc, b"OPENQASM 2.0;\nqreg q[65];", &[], qubits)?);
    assert!(rt; shelf_ends(alloc, "none", &[], false, Status::NoFile)?);
    assert!(rt; shelf_ends(alloc, "r", &[20], false, Status::ShelfFault)?);
    assert!(rt; shelf_ends(alloc, "r", &[], true, Status::ShelfFault)?);
    assert!(rt; shelf_ends(alloc, "none", &[], true, Status::ShelfFault)?);
    Ok(())
}

// A shelf without files, which counts the openings of r and those of other names.
#[derive(Drop)]
struct Counting {
    openings: u64,
    others: u64,
}

impl Shelf for Counting {
    ghost files = { λ _. None };

    ghost rest = { λ _. None };

    ghost is_open = { λ _. true };

    ghost faults = { λ _. 0 };

    ghost answers_faults = { true };

    ghost has_ended = { λ _. false };

    ghost late_reads = { λ _. 0 };

    fn open(&mut self, name: &str) -> Result<bool, IoFault> {
        if name == "r" {
            self.openings = self.openings.saturating_add(1);
        } else {
            self.others = self.others.saturating_add(1);
        }
        Ok(false)
    }

    fn read(&mut self, _piece: &mut [u8]) -> Result<usize, IoFault> {
        Ok(0)
    }
}

// No file but its own is opened, and that once.
#[test]
fn opens_its_file_alone(rt: HostRuntime) -> Result<(), Fail> {
    let mut shelf = Counting {
        openings: 0,
        others: 0,
    };
    assert!(rt; ends(rt.alloc(), "r", &mut shelf, Status::NoFile)?);
    assert!(rt; shelf.openings == 1 && shelf.others == 0);
    Ok(())
}

#[test]
fn numbers_statuses(rt: HostRuntime) {
    let rows = [
        (unsound(2, 3), 6),
        (Status::NoFile, 7),
        (Status::ReadFault, 8),
        (Status::ShelfFault, 10),
    ];
    for (status, number) in rows {
        assert_eq!(rt; number_of(status), number);
    }
}
