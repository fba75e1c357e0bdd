//! Columns of the matrices of programs.
ghost use Rattle.std.specs.Prelude.{◌≡◌, ◌≢◌, ◌==◌, ℕ, ◌+◌, ◌^◌, ◌<◌, ◌≤◌, false, [], length, IsTrue, IfOk, OnOk};
ghost use Rattle.std.specs.List.{AllByRecursion};
ghost use Rattle.qz_circ.specs.declared.circuit.Inst.TheVariants.{H, X, Cx, Rz};
ghost use Rattle.qz_circ.specs.Exponent.{turn_of};
ghost use Rattle.qz_circ.specs.Paths.{has_bit as bit_of, flipped_state as flip_of, count as path_count, root2};
ghost use Rattle.qz_circ.specs.ProgramCircuits.{IsProgramGate, is_program_h, program_halves};
ghost use Rattle.qz_check.specs.Sums.{amount, IsSmall, one_if};
ghost use Rattle.qz_check.specs.Columns.{sum_at, target_of as target, IsNext, IsAfter, IsPairAfter, IsExchangedPair, AreSmall, IsClosed, IsColumn};

use crate::turned::Turned;
use qz_circ::{Inst, Memory, flipped_state, has_bit};
use std::alloc::Global;

// Puts the sum of the entries in two places into the first, and their difference into the second: H on qubit t, which is 0 in place k.
fn step_h(entries: &mut [Turned], t: u8, k: usize) -> Result<(), Memory>
    requires qubit { t < 6 }
    requires place { k < length entries.old }
    requires flipped { flip_of t k < length entries.old }
    requires bit { bit_of t k ≡ false }
    requires small { IsSmall 119 (sum_at entries.old k) }
    requires flipped_small { IsSmall 119 (sum_at entries.old (flip_of t k)) }
    ensures { OnOk result (IsPairAfter (H t) k (flip_of t k) entries.old entries.new) }
{
    let flipped = flipped_state(t, k);
    let sum = entries[k].combined(&entries[flipped], false)?;
    let difference = entries[k].combined(&entries[flipped], true)?;
    entries[k] = sum;
    entries[flipped] = difference;
    Ok(())
}

// Exchanges the entries in two places, if that is wanted.
fn exchange(entries: &mut [Turned], wanted: bool, k: usize, flipped: usize)
    requires first { k < length entries.old }
    requires second { flipped < length entries.old }
    ensures { IsExchangedPair wanted k flipped entries.old entries.new }
{
    if wanted {
        entries.swap(k, flipped);
    }
}

// X on qubit t, which is 0 in place k.
fn step_x(entries: &mut [Turned], t: u8, k: usize)
    requires qubit { t < 6 }
    requires place { k < length entries.old }
    requires flipped { flip_of t k < length entries.old }
    ensures { IsPairAfter (X t) k (flip_of t k) entries.old entries.new }
{
    exchange(entries, true, k, flipped_state(t, k));
}

// CX on the control c and the target t, which is 0 in place k.
fn step_cx(entries: &mut [Turned], c: u8, t: u8, k: usize)
    requires control { c < 6 }
    requires qubit { t < 6 }
    requires apart { c ≢ t }
    requires place { k < length entries.old }
    requires flipped { flip_of t k < length entries.old }
    ensures { IsPairAfter (Cx c t) k (flip_of t k) entries.old entries.new }
{
    exchange(entries, has_bit(c, k), k, flipped_state(t, k));
}

// A rotation of qubit t, which is 0 in place k.
fn step_rz(entries: &mut [Turned], t: u8, angle: u16, k: usize)
    requires qubit { t < 6 }
    requires angle { angle < 512 }
    requires place { k < length entries.old }
    requires flipped { flip_of t k < length entries.old }
    requires bit { bit_of t k ≡ false }
    ensures { IsPairAfter (Rz t angle) k (flip_of t k) entries.old entries.new }
{
    entries[flipped_state(t, k)].rotate(angle);
}

// What a gate makes of the entries in place k, where its target is 0, and in the place with the target flipped.
fn apply_to_pair(entries: &mut [Turned], gate: Inst, k: usize) -> Result<(), Memory>
    requires gate { IsProgramGate 6 gate }
    requires place { k < length entries.old }
    requires flipped { flip_of (target gate) k < length entries.old }
    requires bit { bit_of (target gate) k ≡ false }
    requires small { IsTrue (is_program_h gate) → IsSmall 119 (sum_at entries.old k) }
    requires flipped_small { IsTrue (is_program_h gate) → IsSmall 119 (sum_at entries.old (flip_of (target gate) k)) }
    ensures { OnOk result (IsPairAfter gate k (flip_of (target gate) k) entries.old entries.new) }
{
    match gate {
        Inst::H(t) => step_h(entries, t, k),
        Inst::X(t) => {
            step_x(entries, t, k);
            Ok(())
        }
        Inst::Cx(c, t) => {
            step_cx(entries, c, t, k);
            Ok(())
        }
        Inst::Rz(t, angle) => {
            step_rz(entries, t, angle, k);
            Ok(())
        }
    }
}

// The qubit that a gate changes.
fn target_of(gate: Inst) -> u8
    requires { IsProgramGate 6 gate }
    ensures value { result ≡ target gate }
    ensures within { result < 6 }
{
    match gate {
        Inst::H(t) => t,
        Inst::X(t) => t,
        Inst::Cx(_, t) => t,
        Inst::Rz(t, _) => t,
    }
}

// What a gate makes of a column.
fn apply(entries: &mut [Turned], gate: Inst) -> Result<(), Memory>
    requires gate { IsProgramGate 6 gate }
    requires closed { IsClosed (target gate) (length entries.old) }
    requires small { IsTrue (is_program_h gate) → AreSmall 119 entries.old }
    ensures { OnOk result (IsAfter gate entries.old entries.new) }
{
    let t = target_of(gate);
    for k in 0..entries.len() {
        if !has_bit(t, k) {
            apply_to_pair(entries, gate, k)?;
        }
    }
    Ok(())
}

// How many states there are of q qubits.
pub(crate) fn states_on(q: u64) -> usize
    requires { q ≤ 6 }
    ensures value { result ≡ 2 ^ q }
    ensures few { result ≤ 64 }
{
    1 << q
}

// A power of √2, or nothing.
fn start_entry(alloc: Global, is_one: bool, roots: u64) -> Result<Turned, Memory>
    requires { roots ≤ 120 }
    ensures amounts { IfOk result (λ x. (n : ℕ) → amount x n ≡ path_count (root2 roots (one_if is_one)) (turn_of n)) }
    ensures small { IfOk result (IsSmall roots) }
{
    if is_one {
        let entry = Turned::power_of_root2(alloc, roots)?;
        return Ok(entry);
    }
    let entry = Turned::zero(alloc)?;
    Ok(entry)
}

// Column j before any gate, times a power of √2.
fn start(alloc: Global, q: u64, j: usize, roots: u64) -> Result<Vec<Turned>, Memory>
    requires qubits { q ≤ 6 }
    requires roots { roots ≤ 120 }
    ensures { IfOk result (λ v. IsColumn q roots j v.items []) }
{
    let rows = states_on(q);
    let Ok(mut entries) = Vec::with_capacity(alloc, rows) else {
        return Err(Memory);
    };
    for i in 0..rows {
        let entry = start_entry(alloc, i == j, roots)?;
        entries.push_reserved(entry);
    }
    Ok(entries)
}

// Column j of the matrix of a circuit, times a power of √2.
pub(crate) fn column(
    alloc: Global,
    gates: &[Inst],
    q: u64,
    j: usize,
    roots: u64,
) -> Result<Vec<Turned>, Memory>
    requires qubits { q ≤ 6 }
    requires gates { AllByRecursion (IsProgramGate q) gates.now }
    requires halves { roots + program_halves gates.now ≤ 120 }
    ensures { IfOk result (λ v. IsColumn q roots j v.items gates.now) }
{
    let mut entries = start(alloc, q, j, roots)?;
    for gate in gates {
        apply(entries.as_mut_slice(), *gate)?;
    }
    Ok(entries)
}
