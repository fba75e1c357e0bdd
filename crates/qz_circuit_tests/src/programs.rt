//! Which programs are equivalent.
ghost use Rattle.std.specs.Prelude.{◌+◌, ◌≤◌};
ghost use Rattle.std.specs.List.{AllByRecursion};
ghost use Rattle.qz_circ.specs.ProgramCircuits.{IsProgramGate, program_halves};

use qz_check::check;
use qz_circ::{Inst, Memory};
use std::alloc::Global;
use std::test::Fail;

// The answer on q qubits.
fn answer(alloc: Global, a: &[Inst], c: &[Inst], q: u64) -> Result<bool, Memory>
    requires qubits { q ≤ 6 }
    requires first { AllByRecursion (IsProgramGate q) a.now }
    requires second { AllByRecursion (IsProgramGate q) c.now }
    requires halves { program_halves a.now + program_halves c.now ≤ 120 }
{
    check(alloc, a, c, q)
}

const H: Inst = Inst::H(0);

const X: Inst = Inst::X(0);

// An eighth of a circle on a qubit, and back.
const T: u16 = 64;

const T_BACK: u16 = 448;

// NOT of qubit 2 where qubits 0 and 1 are 1.
const FIRST_CONTROL_FIRST: [Inst; 15] = [
    Inst::H(2),
    Inst::Cx(1, 2),
    Inst::Rz(2, T_BACK),
    Inst::Cx(0, 2),
    Inst::Rz(2, T),
    Inst::Cx(1, 2),
    Inst::Rz(2, T_BACK),
    Inst::Cx(0, 2),
    Inst::Rz(1, T),
    Inst::Rz(2, T),
    Inst::H(2),
    Inst::Cx(0, 1),
    Inst::Rz(0, T),
    Inst::Rz(1, T_BACK),
    Inst::Cx(0, 1),
];

// The same with its controls exchanged.
const SECOND_CONTROL_FIRST: [Inst; 15] = [
    Inst::H(2),
    Inst::Cx(0, 2),
    Inst::Rz(2, T_BACK),
    Inst::Cx(1, 2),
    Inst::Rz(2, T),
    Inst::Cx(0, 2),
    Inst::Rz(2, T_BACK),
    Inst::Cx(1, 2),
    Inst::Rz(0, T),
    Inst::Rz(2, T),
    Inst::H(2),
    Inst::Cx(1, 0),
    Inst::Rz(1, T),
    Inst::Rz(0, T_BACK),
    Inst::Cx(1, 0),
];

// A doubly controlled NOT doesn't tell its controls apart, but its target.
#[test]
fn controls_are_alike(rt: HostRuntime) -> Result<(), Fail> {
    let alloc = rt.alloc();
    assert!(rt;
        answer(alloc, &FIRST_CONTROL_FIRST, &SECOND_CONTROL_FIRST, 3)?,
        "controls exchanged"
    );
    assert!(rt;
        !answer(alloc, &FIRST_CONTROL_FIRST, &[Inst::Cx(1, 2)], 3)?,
        "one control less"
    );
    Ok(())
}

// Programs that are equal up to a phase, on one qubit and on six.
#[test]
fn equivalent_programs(rt: HostRuntime) -> Result<(), Fail> {
    let alloc = rt.alloc();
    let half_turn = Inst::Rz(0, 256);
    assert!(rt; answer(alloc, &[half_turn, X], &[X, half_turn], 1)?, "Y");
    assert!(rt; answer(alloc, &[H, H], &[], 1)?, "two H are none");
    assert!(rt; answer(alloc, &[], &[H, X, H, half_turn], 1)?, "Z twice");
    let least = Inst::Rz(0, 1);
    assert!(rt;
        answer(alloc, &[X, least, X, least], &[], 1)?,
        "the least phase"
    );
    assert!(rt; answer(alloc, &[], &[], 0)?, "no qubit");
    let apart = [Inst::H(5), Inst::Cx(5, 0), Inst::Rz(3, 7)];
    let moved = [Inst::Rz(3, 7), Inst::H(5), Inst::Cx(5, 0)];
    assert!(rt; answer(alloc, &apart, &moved, 6)?, "gates apart");
    Ok(())
}

// Programs that are different up to any phase.
#[test]
fn different_programs(rt: HostRuntime) -> Result<(), Fail> {
    let alloc = rt.alloc();
    let least = Inst::Rz(0, 1);
    assert!(rt; !answer(alloc, &[least], &[], 1)?, "the least rotation");
    assert!(rt;
        !answer(alloc, &[X, least], &[X], 1)?,
        "a phase in one column"
    );
    assert!(rt; !answer(alloc, &[H], &[], 1)?, "H and none");
    assert!(rt;
        !answer(alloc, &[Inst::Cx(0, 5)], &[Inst::Cx(5, 0)], 6)?,
        "control and target exchanged"
    );
    Ok(())
}
