//! The gates that a program may name.
ghost use Rattle.std.specs.Prelude.{◌≡◌, ◌++◌, OnOk};
ghost use Rattle.qz_circ.specs.GateNames as spec;

use qz_circ::{GateName, Inst};
use std::alloc::AllocError;

/// The gate that the word names.
#[tactic(auto, unfolding(qz_circ::specs::GateNames::gate_named))]
pub(crate) fn gate_named(word: &[u8]) -> Option<GateName>
    ensures { result ≡ spec.gate_named word.now }
{
    match word {
        b"h" => Some(GateName::H),
        b"x" => Some(GateName::X),
        b"y" => Some(GateName::Y),
        b"z" => Some(GateName::Z),
        b"s" => Some(GateName::S),
        b"sdg" => Some(GateName::Sdg),
        b"t" => Some(GateName::T),
        b"tdg" => Some(GateName::Tdg),
        b"id" => Some(GateName::Id),
        b"rz" => Some(GateName::Rotation),
        b"u1" => Some(GateName::Rotation),
        b"p" => Some(GateName::Rotation),
        b"cx" => Some(GateName::Cx),
        b"cz" => Some(GateName::Cz),
        b"swap" => Some(GateName::Swap),
        b"ccx" => Some(GateName::Ccx),
        _ => None,
    }
}

/// The gate takes an angle.
pub(crate) fn takes_angle(gate: GateName) -> bool
    ensures { result ≡ spec.takes_angle gate }
{
    match gate {
        GateName::Rotation => true,
        _ => false,
    }
}

/// How many operands the gate has after the first one.
pub(crate) fn more_operands(gate: GateName) -> usize
    ensures { result ≡ spec.more_operands gate }
{
    match gate {
        GateName::Cx | GateName::Cz | GateName::Swap => 1,
        GateName::Ccx => 2,
        _ => 0,
    }
}

// Appends the rotation of a qubit, which is no gate where the angle is 0.
fn push_rotation(gates: &mut Vec<Inst>, a: u8, k: u16) -> Result<(), AllocError>
    ensures { OnOk result (gates.new.items ≡ gates.old.items ++ spec.rotation a k) }
{
    if k == 0 {
        return Ok(());
    }
    gates.extend_from_slice(&[Inst::Rz(a, k)])
}

// The gate with two controls, which come first, in Nam's gates.
fn toffoli(a: u8, b: u8, c: u8) -> [Inst; 15]
    ensures { result ≡ spec.toffoli a b c }
{
    [
        Inst::H(c),
        Inst::Cx(b, c),
        Inst::Rz(c, 448),
        Inst::Cx(a, c),
        Inst::Rz(c, 64),
        Inst::Cx(b, c),
        Inst::Rz(c, 448),
        Inst::Cx(a, c),
        Inst::Rz(b, 64),
        Inst::Rz(c, 64),
        Inst::H(c),
        Inst::Cx(a, b),
        Inst::Rz(a, 64),
        Inst::Rz(b, 448),
        Inst::Cx(a, b),
    ]
}

/// Appends what a gate with the angle of number k is read as, on the qubits a, b and c of its operands.
#[tactic(auto, unfolding(qz_circ::specs::GateNames::read_as))]
pub(crate) fn push_gates(
    gates: &mut Vec<Inst>,
    gate: GateName,
    k: u16,
    a: u8,
    b: u8,
    c: u8,
) -> Result<(), AllocError>
    ensures { OnOk result (gates.new.items ≡ gates.old.items ++ spec.read_as gate k a b c) }
{
    match gate {
        GateName::H => gates.extend_from_slice(&[Inst::H(a)]),
        GateName::X => gates.extend_from_slice(&[Inst::X(a)]),
        GateName::Y => gates.extend_from_slice(&[Inst::Rz(a, 256), Inst::X(a)]),
        GateName::Z => gates.extend_from_slice(&[Inst::Rz(a, 256)]),
        GateName::S => gates.extend_from_slice(&[Inst::Rz(a, 128)]),
        GateName::Sdg => gates.extend_from_slice(&[Inst::Rz(a, 384)]),
        GateName::T => gates.extend_from_slice(&[Inst::Rz(a, 64)]),
        GateName::Tdg => gates.extend_from_slice(&[Inst::Rz(a, 448)]),
        GateName::Id => Ok(()),
        GateName::Rotation => push_rotation(gates, a, k),
        GateName::Cx => gates.extend_from_slice(&[Inst::Cx(a, b)]),
        GateName::Cz => gates.extend_from_slice(&[Inst::H(b), Inst::Cx(a, b), Inst::H(b)]),
        GateName::Swap => gates.extend_from_slice(&[
            Inst::Cx(a, b),
            Inst::Cx(b, a),
            Inst::Cx(a, b),
        ]),
        GateName::Ccx => gates.extend_from_slice(&toffoli(a, b, c)),
    }
}
