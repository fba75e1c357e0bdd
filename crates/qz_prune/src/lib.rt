//! Class lists with fewer pairs: those that are others with qubits or parameters renamed are left out.
#![tactic(auto)]

ghost use Rattle.std.specs.Prelude.{◌≡◌, IfOk};
ghost use Rattle.qz_circ.specs.Classes.{IsClassList, HasEquivalentMembers};
ghost use Rattle.qz_circ.specs.Pruned.{IsPruned, PairsJoinEquivalent};

pub mod laws;
mod permutations;
mod relabelling;
mod renaming;
mod seen;

use indexmap::IndexSet;
use permutations::relabellings;
use qz_circ::{Classes, Memory};
use seen::take_class;
use std::alloc::Global;

/// The pairs of the class list k, each a list of two ranks, without those that earlier ones give by renaming. They still join any
/// two equivalent circuits within the bounds, with their qubits and parameters renamed.
pub fn prune(alloc: Global, k: &Classes) -> Result<Classes, Memory>
    requires { IsClassList k.now.bounds k.now.lists }
    ensures bounds { IfOk result (λ left. left.bounds ≡ k.now.bounds) }
    ensures pruned { IfOk result (λ left. IsPruned k.now.bounds k.now.lists left.lists) }
    ensures equivalent { IfOk result (λ left. HasEquivalentMembers k.now.bounds left.lists) }
    ensures join { IfOk result (λ left. PairsJoinEquivalent k.now.bounds left.lists) }
{
    let b = k.bounds();
    let all = relabellings(alloc, b)?;
    let mut seen = IndexSet::new(alloc);
    let mut left = Classes::empty(alloc, b);
    for i in 0..k.len() {
        take_class(alloc, &mut seen, &all, &mut left, k.class(i))?;
    }
    Ok(left)
}
