//! Exact equivalence of programs.
//!
//! Two programs are equivalent when their matrices are equal up to a phase. Their angles are whole numbers of 512ths of a full
//! circle, so the phase can be taken to be one of 512 turns. A matrix owes a factor 1/√2 for each H, so the one with fewer H
//! is multiplied by √2 for each H that it has fewer. The matrices are made column by column, and each entry leaves only
//! the turns that take the one program's to the other's.
#![tactic(auto)]

ghost use Rattle.std.specs.Prelude.{◌≡◌, ◌↔◌, ◌+◌, ◌≤◌, IsTrue, IfOk};
ghost use Rattle.std.specs.List.{AllByRecursion};
ghost use Rattle.qz_circ.specs.ProgramCircuits.{IsProgramGate, is_program_h, program_halves, EquivalentProgramCircuits};
ghost use Rattle.qz_check.specs.Turns.{HasTurn};

mod column;
pub mod laws;
mod turned;
mod turns;

use crate::column::{column, states_on};
use crate::turns::{all_turns, is_one_left, narrow_column};
use qz_circ::{Inst, Memory};
use std::alloc::Global;

// Whether a gate is H.
fn is_h(gate: Inst) -> bool
    ensures { result ≡ is_program_h gate }
{
    match gate {
        Inst::H(_) => true,
        _ => false,
    }
}

/// How many gates are H.
pub fn halves_of(gates: &[Inst]) -> u64
    ensures { result ≡ program_halves gates.now }
{
    let mut halves = 0;
    for gate in gates {
        if is_h(*gate) {
            halves += 1;
        }
    }
    halves
}

// Whether some turn takes the matrix of c, times a power of √2, to that of a.
fn has_turn(alloc: Global, a: &[Inst], c: &[Inst], q: u64, roots: u64) -> Result<bool, Memory>
    requires qubits { q ≤ 6 }
    requires first { AllByRecursion (IsProgramGate q) a.now }
    requires second { AllByRecursion (IsProgramGate q) c.now }
    requires first_halves { program_halves a.now ≤ 120 }
    requires second_halves { roots + program_halves c.now ≤ 120 }
    ensures { IfOk result (λ same. IsTrue same ↔ HasTurn q roots a.now c.now) }
{
    let mut possible = all_turns(alloc)?;
    for j in 0..states_on(q) {
        let x = column(alloc, a, q, j, 0)?;
        let y = column(alloc, c, q, j, roots)?;
        narrow_column(possible.as_mut_slice(), &x, &y);
    }
    Ok(is_one_left(&possible))
}

/// Whether two circuits of programs are equivalent on q qubits, up to a phase, with q at most 6. Their gates are on qubits below
/// q, the two of a CX different, and angles are from 1 to 511. They have at most 120 H together, so that each count
/// stays within 2^120.
pub fn check(alloc: Global, a: &[Inst], c: &[Inst], q: u64) -> Result<bool, Memory>
    requires qubits { q ≤ 6 }
    requires first { AllByRecursion (IsProgramGate q) a.now }
    requires second { AllByRecursion (IsProgramGate q) c.now }
    requires halves { program_halves a.now + program_halves c.now ≤ 120 }
    ensures exact { IfOk result (λ same. IsTrue same ↔ EquivalentProgramCircuits q a.now c.now) }
{
    let first = halves_of(a);
    let second = halves_of(c);
    if first < second {
        let same = has_turn(alloc, c, a, q, second - first)?;
        return Ok(same);
    }
    let same = has_turn(alloc, a, c, q, first - second)?;
    Ok(same)
}
