//! What `tidy` writes for some programs, why it refuses others, and how it ends where the outside fails.

use qz_circ::{AngleFault, QasmFault, Which};
use qz_io::{MemSink, MemSource, SureShelf, SureSink};
use qz_samples::{measured_lines, two_registers};
use qz_top::{Status, run_solo};
use std::alloc::{AllocError, Global};
use std::process::Abort;
use std::test::Fail;

// The next functions hide the clauses of what is tested: a test that knows less is proved sooner.
fn answer(alloc: Global, words: &[String], input: &mut MemSource, out: &mut MemSink) -> Status {
    let mut shelf = SureShelf::new(Vec::new(alloc));
    let mut err = SureSink::new(alloc);
    run_solo(alloc, words, input, &mut shelf, out, &mut err)
}

// The word alone.
fn tidy_word(alloc: Global) -> Result<Vec<String>, AllocError> {
    let mut words = Vec::new(alloc);
    words.push(String::from_str(alloc, "tidy")?)?;
    Ok(words)
}

// An input with these bytes, which fails at these places.
fn input_with(alloc: Global, bytes: &[u8], stops: &[u64]) -> Result<MemSource, AllocError> {
    let bytes = Vec::from_slice(alloc, bytes)?;
    Ok(MemSource::new(bytes, Vec::from_slice(alloc, stops)?))
}

// An output that fails at these places.
fn output_with(alloc: Global, stops: &[u64]) -> Result<MemSink, AllocError> {
    Ok(MemSink::new(alloc, Vec::from_slice(alloc, stops)?))
}

fn number_of(status: Status) -> u8 {
    status.number()
}

fn written(out: &MemSink) -> &[u8] {
    out.written()
}

fn left(input: &MemSource) -> &[u8] {
    input.left()
}

fn faults(input: &MemSource) -> u64 {
    input.faults()
}

// Whether this program is written so, and the input read to its end.
fn is_tidied(alloc: Global, program: &[u8], text: &[u8]) -> Result<bool, AllocError> {
    let words = tidy_word(alloc)?;
    let mut input = input_with(alloc, program, &[])?;
    let mut out = output_with(alloc, &[])?;
    let status = answer(alloc, &words, &mut input, &mut out);
    Ok(status == Status::Ok && written(&out) == text && left(&input).is_empty())
}

// The program is written so.
fn tidies(rt: &impl Abort, alloc: Global, program: &[u8], text: &[u8]) {
    assert!(rt; is_tidied(alloc, program, text).unwrap_or(false));
}

// The bytes of both, end to end.
fn joined(alloc: Global, first: &[u8], second: &[u8]) -> Result<Vec<u8>, AllocError> {
    let mut bytes = Vec::from_slice(alloc, first)?;
    bytes.extend_from_slice(second)?;
    Ok(bytes)
}

// A program on one qubit with this statement.
fn one_qubit(alloc: Global, statement: &str) -> Result<Vec<u8>, AllocError> {
    joined(alloc, b"OPENQASM 2.0;\nqreg q[1];\n", statement.as_bytes())
}

// The canonical text of a program on one qubit with these lines.
fn one_qubit_text(alloc: Global, lines: &str) -> Result<Vec<u8>, AllocError> {
    let head = b"OPENQASM 2.0;\ninclude \"qelib1.inc\";\nqreg q[1];\n";
    joined(alloc, head, lines.as_bytes())
}

// Whether on one qubit this statement is written as these lines.
fn is_statement_tidied(alloc: Global, statement: &str, lines: &str) -> Result<bool, AllocError> {
    let program = one_qubit(alloc, statement)?;
    let text = one_qubit_text(alloc, lines)?;
    is_tidied(alloc, &program, &text)
}

// A canonical text is written as it is.
#[test]
fn writes_canonical_texts(rt: HostRuntime) {
    let alloc = rt.alloc();
    tidies(&rt, alloc, two_registers(), measured_lines());
    tidies(&rt, alloc, measured_lines(), measured_lines());
    let empty = b"OPENQASM 2.0;\ninclude \"qelib1.inc\";\n";
    tidies(&rt, alloc, b"OPENQASM 2.0;", empty);
    let rows = [
        ("rz(2*pi) q[0];", ""),
        ("rz(-3*pi/4) q[0];", "rz(-3*pi/4) q[0];\n"),
        ("y q[0];", "rz(pi) q[0];\nx q[0];\n"),
    ];
    for (statement, lines) in rows {
        let tidied = is_statement_tidied(alloc, statement, lines).unwrap_or(false);
        assert!(rt; tidied, "{statement}");
    }
}

// Whether this input is refused with this status, and nothing is written.
fn is_refused(alloc: Global, program: &[u8], status: Status) -> Result<bool, AllocError> {
    let words = tidy_word(alloc)?;
    let mut input = input_with(alloc, program, &[])?;
    let mut out = output_with(alloc, &[])?;
    Ok(answer(alloc, &words, &mut input, &mut out) == status && written(&out).is_empty())
}

// The input is refused with this status.
fn refuses(rt: &impl Abort, alloc: Global, program: &[u8], status: Status) {
    assert!(rt;
        is_refused(alloc, program, status).unwrap_or(false),
        "{status:?}"
    );
}

// Whether on one qubit this statement has this fault.
fn has_fault(alloc: Global, statement: &str, fault: QasmFault) -> Result<bool, AllocError> {
    let program = one_qubit(alloc, statement)?;
    is_refused(alloc, &program, Status::Qasm(fault))
}

fn faulty_statements() -> [(&'static str, QasmFault); 6] {
    let angle = QasmFault::Angle(AngleFault::NotMultiple { place: 28 });
    let gate = QasmFault::UnknownGate { place: 25 };
    let late = QasmFault::Unsupported { place: 36 };
    [
        ("rz(pi/512) q[0];", angle),
        ("cx q[0],q[0];", QasmFault::SameQubit { place: 33 }),
        ("h q[1];", QasmFault::Index { place: 29 }),
        ("h r[0];", QasmFault::UnknownName { place: 27 }),
        ("rx(pi) q[0];", gate),
        ("barrier q; h q[0];", late),
    ]
}

fn faulty_texts() -> [(&'static [u8], Status); 5] {
    let in_register = Status::Qasm(QasmFault::Syntax { place: 21 });
    let gate = Status::Qasm(QasmFault::UnknownGate { place: 14 });
    let version = Status::Qasm(QasmFault::Unsupported { place: 9 });
    let qubits = Status::Limit(Which::ProgramQubits);
    [
        (b"", Status::Qasm(QasmFault::Syntax { place: 0 })),
        (b"OPENQASM 2.0;\nqreg q[", in_register),
        (b"OPENQASM 2.0;\nqre", gate),
        (b"OPENQASM 3.0;", version),
        (b"OPENQASM 2.0;\nqreg q[65];", qubits),
    ]
}

#[test]
fn refuses_faults(rt: HostRuntime) {
    let alloc = rt.alloc();
    for (statement, fault) in faulty_statements() {
        let refused = has_fault(alloc, statement, fault).unwrap_or(false);
        assert!(rt; refused, "{statement}");
    }
    for (text, status) in faulty_texts() {
        refuses(&rt, alloc, text, status);
    }
}

// So many spaces.
fn spaces(alloc: Global, count: usize) -> Result<Vec<u8>, AllocError> {
    vec![in alloc; b' '; count]
}

// Of spaces that are too many, one byte past the limit is read.
fn leaves(rt: &impl Abort, alloc: Global, count: usize, rest: usize) -> Result<(), AllocError> {
    let words = tidy_word(alloc)?;
    let mut input = MemSource::new(spaces(alloc, count)?, Vec::new(alloc));
    let mut out = output_with(alloc, &[])?;
    let status = answer(alloc, &words, &mut input, &mut out);
    assert_eq!(rt; status, Status::Limit(Which::InputBytes));
    assert!(rt; written(&out).is_empty() && left(&input).len() == rest);
    Ok(())
}

// An input of the greatest length is read as any other.
#[test]
fn reads_inputs_to_the_limit(rt: HostRuntime) -> Result<(), Fail> {
    let alloc = rt.alloc();
    leaves(&rt, alloc, 4_194_305, 0)?;
    leaves(&rt, alloc, 4_194_312, 7)?;
    let blank = spaces(alloc, 4_194_304)?;
    let at_end = Status::Qasm(QasmFault::Syntax { place: 4_194_304 });
    refuses(&rt, alloc, &blank, at_end);
    let program = joined(alloc, b"OPENQASM 2.0;", &spaces(alloc, 4_194_291)?)?;
    let text = b"OPENQASM 2.0;\ninclude \"qelib1.inc\";\n";
    tidies(&rt, alloc, &program, text);
    Ok(())
}

// Whether an input that fails at this place ends with a read fault, and nothing is written.
fn is_read_fault(alloc: Global, input: &mut MemSource) -> Result<bool, AllocError> {
    let words = tidy_word(alloc)?;
    let mut out = output_with(alloc, &[])?;
    let status = answer(alloc, &words, input, &mut out);
    Ok(status == Status::ReadFault && written(&out).is_empty())
}

// An input of 13 bytes that fails at this place leaves so many bytes.
fn fails_at(rt: &impl Abort, alloc: Global, stop: u64, rest: usize) -> Result<(), AllocError> {
    let mut input = input_with(alloc, b"OPENQASM 2.0;", &[stop])?;
    assert!(rt; is_read_fault(alloc, &mut input)?, "at {stop}");
    assert!(rt; left(&input).len() == rest && faults(&input) == 1);
    Ok(())
}

// After a read fault the same input is read from where it stood.
#[test]
fn reads_on_after_a_read_fault(rt: HostRuntime) -> Result<(), Fail> {
    let alloc = rt.alloc();
    let words = tidy_word(alloc)?;
    let mut input = input_with(alloc, b"OPENQASM 2.0;", &[0])?;
    assert!(rt; is_read_fault(alloc, &mut input)?);
    let mut out = output_with(alloc, &[])?;
    assert_eq!(rt; answer(alloc, &words, &mut input, &mut out), Status::Ok);
    let text = b"OPENQASM 2.0;\ninclude \"qelib1.inc\";\n".as_slice();
    assert!(rt; written(&out) == text);
    Ok(())
}

// At an output that takes so many bytes, the beginning of the text is written.
fn ends_after(rt: &impl Abort, alloc: Global, stop: u64, text: &[u8]) -> Result<(), AllocError> {
    let words = tidy_word(alloc)?;
    let mut input = input_with(alloc, b"OPENQASM 2.0;", &[])?;
    let mut out = output_with(alloc, &[stop])?;
    let status = answer(alloc, &words, &mut input, &mut out);
    assert_eq!(rt; status, Status::WriteFault);
    assert!(rt; written(&out) == text);
    Ok(())
}

#[test]
fn ends_at_faults_of_the_outside(rt: HostRuntime) -> Result<(), Fail> {
    let alloc = rt.alloc();
    for (stop, rest) in [(0, 13), (9, 4), (13, 0)] {
        fails_at(&rt, alloc, stop, rest)?;
    }
    ends_after(&rt, alloc, 0, b"")?;
    ends_after(&rt, alloc, 20, b"OPENQASM 2.0;\ninclud")?;
    let angle = QasmFault::Angle(AngleFault::NotMultiple { place: 28 });
    assert_eq!(rt; number_of(Status::Qasm(angle)), 4);
    assert_eq!(rt; number_of(Status::ReadFault), 8);
    Ok(())
}

// The words of this text, which are parted by single spaces, leave the input as it was.
fn leaves_input(
    rt: &impl Abort,
    alloc: Global,
    text: &str,
    status: Status,
) -> Result<(), AllocError> {
    let mut words = Vec::new(alloc);
    for word in text.split(' ') {
        words.push(String::from_str(alloc, word)?)?;
    }
    let mut input = input_with(alloc, b"OPENQASM 2.0;", &[0])?;
    let mut out = output_with(alloc, &[])?;
    assert!(rt;
        answer(alloc, &words, &mut input, &mut out) == status,
        "at {text}"
    );
    assert!(rt; left(&input).len() == 13 && faults(&input) == 0);
    Ok(())
}

// No other words read the input.
#[test]
fn other_words_leave_the_input(rt: HostRuntime) -> Result<(), Fail> {
    let rows = [
        ("tidy now", Status::Usage),
        ("tidy tidy", Status::Usage),
        ("tidy ", Status::Usage),
        ("tidy --workers 1", Status::Usage),
        ("Tidy", Status::Usage),
        ("generate 1 1 0", Status::Ok),
    ];
    for (text, status) in rows {
        leaves_input(&rt, rt.alloc(), text, status)?;
    }
    Ok(())
}
