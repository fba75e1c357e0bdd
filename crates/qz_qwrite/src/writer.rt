//! Writing programs.
ghost use Rattle.std.specs.Prelude.{◌≡◌, IfOk};
ghost use Rattle.qz_circ.specs.ProgramText.{program_text};
ghost use Rattle.qz_circ.specs.ValidPrograms.{Valid};

use crate::lines::{push_gates, push_registers, push_tail};
use crate::qubit::qubit_texts;
use qz_circ::{Memory, Program};
use std::alloc::{AllocError, Global};

// How many bytes are reserved for each gate; most lines have fewer.
const GATE_BYTES: usize = 32;

// The whole text.
fn text_of(alloc: Global, p: &Program) -> Result<Vec<u8>, AllocError>
    requires { Valid p.now }
    ensures { IfOk result (λ text. text.items ≡ program_text p.now) }
{
    let qubits = qubit_texts(alloc, p.qregs())?;
    let mut out = Vec::with_capacity(alloc, GATE_BYTES * p.gates().len())?;
    out.extend_from_slice(b"OPENQASM 2.0;\ninclude \"qelib1.inc\";\n")?;
    push_registers(&mut out, b"qreg", p.qregs())?;
    push_registers(&mut out, b"creg", p.cregs())?;
    push_gates(&mut out, &qubits, p.gates())?;
    push_tail(&mut out, p.qregs(), p.cregs(), p.tail())?;
    Ok(out)
}

/// The canonical text of a valid program, in OpenQASM 2.0.
pub fn write(alloc: Global, p: &Program) -> Result<Vec<u8>, Memory>
    requires { Valid p.now }
    ensures { IfOk result (λ text. text.items ≡ program_text p.now) }
{
    text_of(alloc, p).map_err(|_| Memory)
}
