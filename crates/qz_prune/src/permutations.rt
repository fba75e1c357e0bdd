//! All relabellings within bounds.
ghost use Rattle.std.specs.Prelude.{◌≡◌, ◌<◌, ◌≤◌, ◌++◌, slice_get, Some, IfOk, OnOk};
ghost use Rattle.qz_prune.specs.Permutations.{table, count, with_each, AreRelabellings};

use crate::relabelling::Relabelling;
use qz_circ::{Bounds, Memory};
use std::alloc::Global;

// How many permutations of 0, 1 and 2 leave the numbers from n on.
#[tactic(auto, unfolding(crate::specs::Permutations::count))]
fn permutations(n: u64) -> u64
    requires { n ≤ 3 }
    ensures count { result ≡ count n }
    ensures few { result ≤ 6 }
{
    match n {
        0 => 1,
        1 => 1,
        2 => 2,
        _ => 6,
    }
}

// The permutation with this number, counted from 0.
#[tactic(auto, unfolding(crate::specs::Permutations::table))]
fn permutation(number: u64) -> [u8; 3]
    requires { number < 6 }
    ensures { slice_get table number ≡ Some result }
{
    match number {
        0 => [0, 1, 2],
        1 => [1, 0, 2],
        2 => [0, 2, 1],
        3 => [1, 2, 0],
        4 => [2, 0, 1],
        _ => [2, 1, 0],
    }
}

// Adds these names of the qubits with each permutation of the m parameters.
fn add_with(relabellings: &mut Vec<Relabelling>, qubits: [u8; 3], m: u64) -> Result<(), Memory>
    requires { m ≤ 3 }
    ensures { OnOk result (relabellings.new.items ≡ relabellings.old.items ++ with_each m qubits) }
{
    for number in 0..permutations(m) {
        let params = permutation(number);
        if relabellings.push(Relabelling { qubits, params }).is_err() {
            return Err(Memory);
        }
    }
    Ok(())
}

/// The relabellings within the bounds.
pub(crate) fn relabellings(alloc: Global, b: Bounds) -> Result<Vec<Relabelling>, Memory>
    ensures { IfOk result (λ all. AreRelabellings b all.items) }
{
    let m = b.m();
    let mut all = Vec::new(alloc);
    for number in 0..permutations(b.q()) {
        add_with(&mut all, permutation(number), m)?;
    }
    Ok(all)
}
