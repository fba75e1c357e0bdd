//! Candidates: the circuits that may be kept, matched from the representatives that are shorter by one gate.
ghost use Rattle.std.specs.Prelude.{◌≡◌, ℕ, ◌+◌, ◌-◌, ◌*◌, ◌^◌, ◌<◌, ◌≤◌, ◌++◌, length, map, All, OnOk, IfOk, Contains, slice_index};
ghost use Rattle.std.specs.List.{range_with_len};
ghost use Rattle.std.specs.List.Sorted.{IsStrictlyIncreasing};
ghost use Rattle.qz_circ.specs.Bounds.{IsLawful, gate_count};
ghost use Rattle.qz_circ.specs.Classes.{ListsExactly};
ghost use Rattle.qz_repgen.specs.Candidate.{AreOfOneLength, IsCandidate, AddsRow};

use qz_circ::{Bounds, Memory, drop_first_rank};
use std::alloc::Global;

/// The ranks, in order, of all circuits of one gate more than those of the list whose parts without the first and without the last
/// gate both have ranks in the list. So the empty circuit is none. The list rises, and its circuits have one length, less than the
/// bounds allow.
pub fn candidates(alloc: Global, reps: &[u64], b: Bounds) -> Result<Vec<u64>, Memory>
    requires rising { IsStrictlyIncreasing reps.now }
    requires one_length { AreOfOneLength b reps.now }
    ensures { IfOk result (λ found. ListsExactly (IsCandidate b reps.now) found.items) }
{
    let gates = b.gates();
    let mut found = Vec::new(alloc);
    for s in reps {
        add_row(&mut found, reps, *s, gates, b)?;
    }
    Ok(found)
}

// Adds the candidates that are the circuit with rank s with one gate more at its end.
fn add_row(found: &mut Vec<u64>, reps: &[u64], s: u64, gates: u64, b: Bounds) -> Result<(), Memory>
    requires lawful { IsLawful b }
    requires gates { gates ≡ gate_count b }
    requires rising { IsStrictlyIncreasing reps.now }
    requires one_length { AreOfOneLength b reps.now }
    requires listed { Contains reps.now s }
    ensures { OnOk result (AddsRow b reps.now s found.old.items found.new.items) }
{
    if s == 0 {
        return add_up_to(found, gates);
    }
    let from = drop_first_rank(s, b) * gates;
    let run = between(reps, from, from + gates);
    add_moved(found, run, from, s * gates)
}

// Adds the numbers from 1 to the last.
fn add_up_to(found: &mut Vec<u64>, last: u64) -> Result<(), Memory>
    ensures { OnOk result (found.new.items ≡ found.old.items ++ range_with_len 1 last) }
{
    for k in 0..last {
        if found.push(k + 1).is_err() {
            return Err(Memory);
        }
    }
    Ok(())
}

// Adds the numbers, each moved from above one base to as much above another.
fn add_moved(found: &mut Vec<u64>, run: &[u64], from: u64, to: u64) -> Result<(), Memory>
    requires above { All (λ p. from ≤ p) run.now }
    requires fits { All (λ p. to + (p - from) < 2 ^ 64) run.now }
    ensures { OnOk result (found.new.items ≡ found.old.items ++ map (λ p. to + (p - from)) run.now) }
{
    for p in run {
        if found.push(to + (*p - from)).is_err() {
            return Err(Memory);
        }
    }
    Ok(())
}

// The numbers above low and up to high, among numbers that rise.
fn between(numbers: &[u64], low: u64, high: u64) -> &[u64]
    requires rising { IsStrictlyIncreasing numbers.now }
    requires order { low ≤ high }
    ensures { ListsExactly (λ p. Contains numbers.now p × (low < p) × (p ≤ high)) result.now }
{
    let start = count_up_to(numbers, low);
    let end = count_up_to(numbers, high);
    &numbers[start..end]
}

// How many of the numbers, which rise, are at most x.
fn count_up_to(numbers: &[u64], x: u64) -> usize
    requires { IsStrictlyIncreasing numbers.now }
    ensures some { result ≤ length numbers.now }
    ensures front { (k : ℕ) → k < result → slice_index numbers.now k ≤ x }
    ensures back { (k : ℕ) → result ≤ k → k < length numbers.now → x < slice_index numbers.now k }
{
    match numbers.binary_search(&x) {
        Ok(place) => place + 1,
        Err(place) => place,
    }
}
