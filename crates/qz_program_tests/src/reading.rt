//! Which texts are programs, what whole registers stand for, and the limits at their numbers and one past them.

use qz_circ::{AngleFault, Inst, LexFault, Program, QasmFault, Which};
use qz_qread::read;
use std::alloc::{AllocError, Global};
use std::process::Abort;
use std::test::Fail;

// The next functions hide the clauses of what is tested: a test that knows less is proved sooner. All texts here are short.
fn program_of(alloc: Global, bytes: &[u8]) -> Result<Program, QasmFault> {
    if bytes.len() > 4_194_304 {
        return Err(QasmFault::Memory);
    }
    read(alloc, bytes)
}

fn gates_of(program: &Program) -> &[Inst] {
    program.gates()
}

// How many gates the program of a text has, or its fault.
fn gate_count(alloc: Global, bytes: &[u8]) -> Result<usize, QasmFault> {
    let program = program_of(alloc, bytes)?;
    Ok(gates_of(&program).len())
}

// This text, then the statements so many times, and then a last one.
fn repeated(
    alloc: Global,
    first: &str,
    statement: &str,
    times: usize,
    last: &str,
) -> Result<Vec<u8>, AllocError> {
    let mut text = Vec::from_slice(alloc, b"OPENQASM 2.0;")?;
    text.extend_from_slice(first.as_bytes())?;
    for _ in 0..times {
        text.extend_from_slice(statement.as_bytes())?;
    }
    text.extend_from_slice(last.as_bytes())?;
    Ok(text)
}

// The statements after a header have these faults.
fn have_faults(
    rt: &impl Abort,
    alloc: Global,
    wanted: &[(&str, QasmFault)],
) -> Result<(), AllocError> {
    for (statements, fault) in wanted {
        let text = repeated(alloc, statements, "", 0, "")?;
        assert!(rt; gate_count(alloc, &text) == Err(*fault), "{statements}");
    }
    Ok(())
}

// They have no fault, and so many gates.
fn has_gates(
    rt: &impl Abort,
    alloc: Global,
    statements: &str,
    count: usize,
) -> Result<(), AllocError> {
    let text = repeated(alloc, statements, "", 0, "")?;
    assert!(rt; gate_count(alloc, &text) == Ok(count), "{statements}");
    Ok(())
}

// The header has 13 bytes, so places are counted from there. Of several faults of a gate the first in the order of steps comes:
// sizes before equal qubits, operands from the left.
#[test]
fn refuses_each_fault_at_its_place(rt: HostRuntime) -> Result<(), Fail> {
    let wanted = [
        ("qreg q[;!", QasmFault::Lex(LexFault::BadByte { place: 21 })),
        ("qreg Q[2];", QasmFault::Syntax { place: 18 }),
        ("qreg q[0];", QasmFault::Syntax { place: 20 }),
        ("h", QasmFault::Syntax { place: 14 }),
        ("U q;", QasmFault::Unsupported { place: 13 }),
        ("hh q", QasmFault::UnknownGate { place: 13 }),
        ("qreg q[2];creg q[1];", QasmFault::Twice { place: 28 }),
        ("h q;", QasmFault::UnknownName { place: 15 }),
        ("qreg q[2];h q[2];", QasmFault::Index { place: 27 }),
        (
            "qreg q[2];qreg r[3];cx q,r;",
            QasmFault::Sizes { place: 38 },
        ),
        ("qreg q[2];cx q,q[1];", QasmFault::SameQubit { place: 28 }),
        ("qreg q[2];rz(1/0) q[5],;", QasmFault::Syntax { place: 35 }),
        (
            "qreg q[2];rz(1/0) q[5];",
            QasmFault::Angle(AngleFault::ZeroDivisor { place: 27 }),
        ),
        ("qreg q[2];cx q[7],r;", QasmFault::Index { place: 28 }),
        ("qreg q[2];barrier q[7],r;", QasmFault::Index { place: 33 }),
        ("qreg q[2];measure q[7]->r;", QasmFault::Index { place: 33 }),
        ("include \"a\"", QasmFault::Unsupported { place: 21 }),
        (
            "qreg q[2];qreg r[3];ccx q[0],q,r;",
            QasmFault::Sizes { place: 44 },
        ),
        (
            "qreg q[2];creg c[2];measure q[0]->c;",
            QasmFault::Sizes { place: 47 },
        ),
    ];
    have_faults(&rt, rt.alloc(), &wanted)?;
    Ok(())
}

// A whole register stands for each of its places, 0 first.
#[test]
fn applies_gates_to_whole_registers(rt: HostRuntime) -> Result<(), Fail> {
    let alloc = rt.alloc();
    has_gates(&rt, alloc, "qreg q[3];h q;id q;rz(0) q;", 3)?;
    let text = repeated(
        alloc,
        "qreg a[1];qreg q[2];qreg r[2];cx q,r;",
        "",
        0,
        "cx a[0],r;",
    )?;
    let Ok(program) = program_of(alloc, &text) else {
        panic!(rt; "it is a program");
    };
    let expected = [
        Inst::Cx(1, 3),
        Inst::Cx(2, 4),
        Inst::Cx(0, 3),
        Inst::Cx(0, 4),
    ];
    assert!(rt; gates_of(&program) == expected.as_slice());
    Ok(())
}

// Registers, qubits and classical bits, up to their limits and one past them.
#[test]
fn counts_registers(rt: HostRuntime) -> Result<(), Fail> {
    let alloc = rt.alloc();
    has_gates(&rt, alloc, "qreg q[64];h q;", 64)?;
    has_gates(&rt, alloc, "creg c[4095];creg d[1];", 0)?;
    let wanted = [
        (
            "qreg q[64];qreg r[1];",
            QasmFault::Limit {
                which: Which::ProgramQubits,
                place: 31,
            },
        ),
        (
            "creg c[4096];creg d[1];",
            QasmFault::Limit {
                which: Which::ProgramBits,
                place: 33,
            },
        ),
    ];
    have_faults(&rt, alloc, &wanted)?;
    Ok(())
}

// Registers of bits with different names: an a, and then as many b as there are registers before.
fn many_registers(alloc: Global, count: usize) -> Result<Vec<u8>, AllocError> {
    let mut text = Vec::from_slice(alloc, b"OPENQASM 2.0;")?;
    for n in 0..count {
        text.extend_from_slice(b"creg a")?;
        for _ in 0..n {
            text.push(b'b')?;
        }
        text.extend_from_slice(b"[1];")?;
    }
    Ok(text)
}

#[test]
fn refuses_the_65th_register(rt: HostRuntime) -> Result<(), Fail> {
    let alloc = rt.alloc();
    let mut text = many_registers(alloc, 64)?;
    assert!(rt; gate_count(alloc, &text) == Ok(0));
    let place = text.len() as u64 + 5;
    text.extend_from_slice(b"qreg q[1];")?;
    let fault = QasmFault::Limit {
        which: Which::ProgramRegisters,
        place,
    };
    assert!(rt; gate_count(alloc, &text) == Err(fault));
    Ok(())
}

// 20,000 gates are read, and one more is not; so with those that a ccx is read as.
#[test]
fn counts_gates(rt: HostRuntime) -> Result<(), Fail> {
    let alloc = rt.alloc();
    let most = repeated(alloc, "qreg q[3];", "h q[0];", 20_000, "id q;")?;
    assert!(rt; gate_count(alloc, &most) == Ok(20_000));
    let fault = QasmFault::Limit {
        which: Which::ProgramGates,
        place: 140_023,
    };
    let more = repeated(alloc, "qreg q[3];", "h q[0];", 20_000, "x q[1];")?;
    assert!(rt; gate_count(alloc, &more) == Err(fault));
    Ok(())
}

#[test]
fn counts_what_gates_are_read_as(rt: HostRuntime) -> Result<(), Fail> {
    let alloc = rt.alloc();
    let most = repeated(
        alloc,
        "qreg q[3];",
        "ccx q[0],q[1],q[2];",
        1_333,
        "h q[0];z q;x q[0];",
    )?;
    assert!(rt; gate_count(alloc, &most) == Ok(20_000));
    let fault = QasmFault::Limit {
        which: Which::ProgramGates,
        place: 25_361,
    };
    let more = repeated(
        alloc,
        "qreg q[3];",
        "ccx q[0],q[1],q[2];",
        1_333,
        "h q[0];z q;swap q[0],q[1];",
    )?;
    assert!(rt; gate_count(alloc, &more) == Err(fault));
    Ok(())
}
