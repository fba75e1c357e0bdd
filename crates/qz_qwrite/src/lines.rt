//! The lines of a program.
ghost use Rattle.std.specs.Prelude.{◌≡◌, ◌<◌, [], ◌++◌, length, codes, OnOk};
ghost use Rattle.std.specs.List.{flat_map, AllByRecursion};
ghost use Rattle.qz_circ.specs.ProgramCircuits.{IsProgramGate};
ghost use Rattle.qz_circ.specs.Lines.{line};
ghost use Rattle.qz_circ.specs.ProgramText.{angle_text, register_line, gate_line, tail_line};
ghost use Rattle.qz_circ.specs.ValidPrograms.{IsOperand, IsStatement};

use crate::angle::push_angle;
use crate::operand::{push_indexed, push_operand, push_operands};
use crate::qubit::QubitTexts;
use qz_circ::{Arg, Inst, Register, Tail};
use std::alloc::AllocError;

#[tactic(auto, unfolding(qz_circ::specs::ProgramText::register_line))]
fn push_register(out: &mut Vec<u8>, word: &[u8], r: &Register) -> Result<(), AllocError>
    ensures { OnOk result (out.new.items ≡ out.old.items ++ register_line word.now r.now) }
{
    out.extend_from_slice(word)?;
    out.push(b' ')?;
    push_indexed(out, r.name(), r.size())?;
    out.extend_from_slice(b";\n")
}

// Appends the declarations of registers by a word.
pub(crate) fn push_registers(
    out: &mut Vec<u8>,
    word: &[u8],
    registers: &[Register],
) -> Result<(), AllocError>
    ensures { OnOk result (out.new.items ≡ out.old.items ++ flat_map (register_line word.now) registers.now) }
{
    for r in registers {
        push_register(out, word, r)?;
    }
    Ok(())
}

// Appends the line of a gate of one qubit, from the gate's word and the qubit's text.
fn push_single(out: &mut Vec<u8>, word: &[u8], qubit: &[u8]) -> Result<(), AllocError>
    ensures { OnOk result (out.new.items ≡ out.old.items ++ line (word.now ++ qubit.now ++ codes ";")) }
{
    out.extend_from_slice(word)?;
    out.extend_from_slice(qubit)?;
    out.extend_from_slice(b";\n")
}

// Appends the line of a CX, from the texts of its qubits.
fn push_cx(out: &mut Vec<u8>, control: &[u8], target: &[u8]) -> Result<(), AllocError>
    ensures { OnOk result (out.new.items ≡ out.old.items ++ line (codes "cx " ++ control.now ++ codes "," ++ target.now ++ codes ";")) }
{
    out.extend_from_slice(b"cx ")?;
    out.extend_from_slice(control)?;
    push_single(out, b",", target)
}

// Appends the line of a rotation, from its qubit's text.
fn push_rotation(out: &mut Vec<u8>, k: u16, qubit: &[u8]) -> Result<(), AllocError>
    requires { k < 512 }
    ensures { OnOk result (out.new.items ≡ out.old.items ++ line (codes "rz(" ++ angle_text k ++ codes ") " ++ qubit.now ++ codes ";")) }
{
    out.extend_from_slice(b"rz(")?;
    push_angle(out, k)?;
    push_single(out, b") ", qubit)
}

#[tactic(auto, unfolding(qz_circ::specs::ProgramText::gate_line))]
fn push_gate(out: &mut Vec<u8>, qubits: &QubitTexts, g: Inst) -> Result<(), AllocError>
    requires { IsProgramGate (length qubits.now) g }
    ensures { OnOk result (out.new.items ≡ out.old.items ++ gate_line qubits.now g) }
{
    match g {
        Inst::H(t) => push_single(out, b"h ", qubits.at(t)),
        Inst::X(t) => push_single(out, b"x ", qubits.at(t)),
        Inst::Cx(c, t) => push_cx(out, qubits.at(c), qubits.at(t)),
        Inst::Rz(t, k) => push_rotation(out, k, qubits.at(t)),
    }
}

// Appends the lines of gates.
pub(crate) fn push_gates(
    out: &mut Vec<u8>,
    qubits: &QubitTexts,
    gates: &[Inst],
) -> Result<(), AllocError>
    requires { AllByRecursion (IsProgramGate (length qubits.now)) gates.now }
    ensures { OnOk result (out.new.items ≡ out.old.items ++ flat_map (gate_line qubits.now) gates.now) }
{
    for g in gates {
        push_gate(out, qubits, *g)?;
    }
    Ok(())
}

#[tactic(auto, unfolding(qz_circ::specs::ProgramText::tail_line))]
fn push_barrier(out: &mut Vec<u8>, qregs: &[Register], args: &[Arg]) -> Result<(), AllocError>
    requires { AllByRecursion (IsOperand qregs.now) args.now }
    ensures { OnOk result (out.new.items ≡ out.old.items ++ tail_line qregs.now [] (Tail.Barrier args.now)) }
{
    out.extend_from_slice(b"barrier ")?;
    push_operands(out, qregs, args)?;
    out.extend_from_slice(b";\n")
}

#[tactic(auto, unfolding(qz_circ::specs::ProgramText::tail_line))]
fn push_measurement(
    out: &mut Vec<u8>,
    qregs: &[Register],
    cregs: &[Register],
    from: Arg,
    to: Arg,
) -> Result<(), AllocError>
    requires source { from.register < length qregs.now }
    requires target { to.register < length cregs.now }
    ensures { OnOk result (out.new.items ≡ out.old.items ++ tail_line qregs.now cregs.now (Tail.Measure from to)) }
{
    out.extend_from_slice(b"measure ")?;
    push_operand(out, qregs, from)?;
    out.extend_from_slice(b" -> ")?;
    push_operand(out, cregs, to)?;
    out.extend_from_slice(b";\n")
}

#[tactic(auto, unfolding(qz_circ::specs::ProgramText::tail_line))]
fn push_statement(
    out: &mut Vec<u8>,
    qregs: &[Register],
    cregs: &[Register],
    statement: &Tail,
) -> Result<(), AllocError>
    requires { IsStatement qregs.now cregs.now statement.now }
    ensures { OnOk result (out.new.items ≡ out.old.items ++ tail_line qregs.now cregs.now statement.now) }
{
    match statement {
        Tail::Barrier(args) => push_barrier(out, qregs, args.items()),
        Tail::Measure(from, to) => push_measurement(out, qregs, cregs, *from, *to),
    }
}

// Appends the lines of barriers and measurements.
pub(crate) fn push_tail(
    out: &mut Vec<u8>,
    qregs: &[Register],
    cregs: &[Register],
    tail: &[Tail],
) -> Result<(), AllocError>
    requires { AllByRecursion (IsStatement qregs.now cregs.now) tail.now }
    ensures { OnOk result (out.new.items ≡ out.old.items ++ flat_map (tail_line qregs.now cregs.now) tail.now) }
{
    for statement in tail {
        push_statement(out, qregs, cregs, statement)?;
    }
    Ok(())
}
