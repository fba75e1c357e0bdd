//! Programs and their canonical text.
ghost use Rattle.std.specs.Prelude.{◌≤◌, List, length, IfOk};
ghost use Rattle.std.specs.List.{AllByRecursion};
ghost use Rattle.qz_circ.specs.declared.circuit.Inst.{Inst as Gate};
ghost use Rattle.qz_circ.specs.ProgramCircuits.{IsProgramGate};
ghost use Rattle.qz_circ.specs.ValidPrograms.{Valid};

use qz_circ::{Arg, Inst, Memory, Program};
use qz_qwrite::write;
use qz_samples::measured_lines;
use std::alloc::Global;
use std::process::Abort;
use std::test::Fail;

// Two registers of qubits and one of bits, a barrier on all qubits, and the first two qubits measured.
fn measured(alloc: Global) -> Result<Program, Memory>
    ensures { IfOk result (λ p. (gates : List Gate) → length gates ≤ 20000 → AllByRecursion (IsProgramGate 3) gates → Valid (record p { gates = gates })) }
{
    let first = Arg {
        register: 0,
        index: Some(0),
    };
    let second = Arg {
        register: 0,
        index: Some(1),
    };
    let third = Arg {
        register: 1,
        index: Some(0),
    };
    let mut p = Program::empty(alloc);
    p.add_qreg(b"q", 2)?;
    p.add_qreg(b"a", 1)?;
    p.add_creg(b"c", 2)?;
    p.add_barrier(&[first, second, third])?;
    p.add_measure(first, first)?;
    p.add_measure(second, second)?;
    Ok(p)
}

// The text of that program with these gates.
fn measured_text(alloc: Global, gates: &[Inst]) -> Result<Vec<u8>, Memory>
    requires few { length gates.now ≤ 20000 }
    requires gates { AllByRecursion (IsProgramGate 3) gates.now }
{
    let p = measured(alloc)?;
    match Vec::from_slice(alloc, gates) {
        Ok(gates) => write(alloc, &p.with_gates(gates)),
        Err(_) => Err(Memory),
    }
}

// The text of a program without registers.
fn empty_text(alloc: Global) -> Result<Vec<u8>, Memory> {
    write(alloc, &Program::empty(alloc))
}

// The text of a program whose registers are measured and barred whole.
fn whole_text(alloc: Global) -> Result<Vec<u8>, Memory> {
    let whole = Arg {
        register: 0,
        index: None,
    };
    let third = Arg {
        register: 0,
        index: Some(2),
    };
    let mut p = Program::empty(alloc);
    p.add_qreg(b"q_1", 3)?;
    p.add_creg(b"bits", 3)?;
    p.add_measure(whole, whole)?;
    p.add_barrier(&[whole, third, whole])?;
    write(alloc, &p)
}

fn is_text(found: Result<Vec<u8>, Memory>, wanted: &[u8]) -> bool {
    match found {
        Ok(text) => text.as_slice() == wanted,
        Err(_) => false,
    }
}

// H on the first qubit and a doubly controlled NOT of the third.
#[test]
fn two_registers_and_a_tail(rt: HostRuntime) -> Result<(), Fail> {
    let text = measured_text(
        rt.alloc(),
        &[
            Inst::H(0),
            Inst::H(2),
            Inst::Cx(1, 2),
            Inst::Rz(2, 448),
            Inst::Cx(0, 2),
            Inst::Rz(2, 64),
            Inst::Cx(1, 2),
            Inst::Rz(2, 448),
            Inst::Cx(0, 2),
            Inst::Rz(1, 64),
            Inst::Rz(2, 64),
            Inst::H(2),
            Inst::Cx(0, 1),
            Inst::Rz(0, 64),
            Inst::Rz(1, 448),
            Inst::Cx(0, 1),
        ],
    );
    assert!(rt; is_text(text, measured_lines()));
    Ok(())
}

fn angle_lines() -> &'static [u8] {
    b"OPENQASM 2.0;\n\
include \"qelib1.inc\";\n\
qreg q[2];\n\
qreg a[1];\n\
creg c[2];\n\
rz(pi/256) q[0];\n\
rz(5*pi/256) q[1];\n\
rz(pi/4) a[0];\n\
rz(pi/2) q[0];\n\
rz(255*pi/256) q[1];\n\
rz(pi) a[0];\n\
rz(-255*pi/256) q[0];\n\
rz(-3*pi/4) q[1];\n\
rz(-pi/4) a[0];\n\
rz(-pi/256) q[0];\n\
x q[1];\n\
barrier q[0],q[1],a[0];\n\
measure q[0] -> c[0];\n\
measure q[1] -> c[1];\n"
}

// Angles in lowest terms, from -π to π.
#[test]
fn angles_in_lowest_terms(rt: HostRuntime) -> Result<(), Fail> {
    let text = measured_text(
        rt.alloc(),
        &[
            Inst::Rz(0, 1),
            Inst::Rz(1, 5),
            Inst::Rz(2, 64),
            Inst::Rz(0, 128),
            Inst::Rz(1, 255),
            Inst::Rz(2, 256),
            Inst::Rz(0, 257),
            Inst::Rz(1, 320),
            Inst::Rz(2, 448),
            Inst::Rz(0, 511),
            Inst::X(1),
        ],
    );
    assert!(rt; is_text(text, angle_lines()));
    Ok(())
}

// No register at all, and registers as wholes.
#[test]
fn no_registers_and_whole_registers(rt: HostRuntime) -> Result<(), Fail> {
    let empty = b"OPENQASM 2.0;\ninclude \"qelib1.inc\";\n";
    assert!(rt; is_text(empty_text(rt.alloc()), empty));
    let whole = b"OPENQASM 2.0;\n\
include \"qelib1.inc\";\n\
qreg q_1[3];\n\
creg bits[3];\n\
measure q_1 -> bits;\n\
barrier q_1,q_1[2],q_1;\n";
    assert!(rt; is_text(whole_text(rt.alloc()), whole));
    Ok(())
}
