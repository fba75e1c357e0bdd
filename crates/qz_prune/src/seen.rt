//! The pairs that others give by renaming.
ghost use Rattle.std.specs.Prelude.{◌≡◌, ℕ, List, Bool, length, ◌<◌, ◌++◌, IfOk, OnOk, All};
ghost use Rattle.std.specs.List.Sorted.{IsStrictlyIncreasing};
ghost use Rattle.indexmap.specs.IndexSet.{contains};
ghost use Rattle.qz_circ.specs.ClassLists.{AreRanks};
ghost use Rattle.qz_circ.specs.Pairs.{Pair, class_pairs};
ghost use Rattle.qz_circ.specs.Relabellings.{renamed};
ghost use Rattle.qz_prune.specs.Permutations.{AreRelabellings};
ghost use Rattle.qz_prune.specs.Seen.{same_ranks, IsPair, AreOfPair, Gains, IsMade, IsTaken, Progress};

use crate::relabelling::Relabelling;
use crate::renaming::renamed_ranks;
use indexmap::IndexSet;
use qz_circ::{Bounds, Classes, Memory, Op, unrank};
use std::alloc::Global;

// Adds the pair that this relabelling makes of two circuits, if they stay within the bounds.
fn add_renamed(
    alloc: Global,
    seen: &mut IndexSet<(u64, u64)>,
    r: Relabelling,
    b: Bounds,
    left: &[Op],
    right: &[Op],
) -> Result<(), Memory>
    ensures { OnOk result (Gains b (AreOfPair b (renamed r.qubits r.params left.now) (renamed r.qubits r.params right.now)) (contains same_ranks seen.old) (contains same_ranks seen.new)) }
{
    let Some(ranks) = renamed_ranks(alloc, r, b, left, right)? else {
        return Ok(());
    };
    if seen.insert(ranks).is_err() {
        return Err(Memory);
    }
    Ok(())
}

// Adds all pairs that the relabellings make of two circuits.
fn add_all(
    alloc: Global,
    seen: &mut IndexSet<(u64, u64)>,
    all: &[Relabelling],
    b: Bounds,
    left: &[Op],
    right: &[Op],
) -> Result<(), Memory>
    ensures { OnOk result (Gains b (IsMade b all.now left.now right.now) (contains same_ranks seen.old) (contains same_ranks seen.new)) }
{
    for r in all {
        add_renamed(alloc, seen, *r, b, left, right)?;
    }
    Ok(())
}

// Whether no pair before gives this one; then what it gives is added.
fn take_pair(
    alloc: Global,
    seen: &mut IndexSet<(u64, u64)>,
    all: &[Relabelling],
    b: Bounds,
    first: u64,
    later: u64,
) -> Result<bool, Memory>
    requires relabellings { AreRelabellings b all.now }
    requires pair { IsPair b (record { first = first; later = later }) }
    ensures { IfOk result (IsTaken b (record { first = first; later = later }) (contains same_ranks seen.old) (contains same_ranks seen.new)) }
{
    let ranks = (first, later);
    if seen.contains(&ranks) {
        return Ok(false);
    }
    let left = unrank(alloc, first, b)?;
    let right = unrank(alloc, later, b)?;
    add_all(alloc, seen, all, b, &left, &right)?;
    Ok(true)
}

/// Adds the pairs of a class that no pair before gives.
pub(crate) fn take_class(
    alloc: Global,
    seen: &mut IndexSet<(u64, u64)>,
    all: &[Relabelling],
    left: &mut Classes,
    class: &[u64],
) -> Result<(), Memory>
    requires relabellings { AreRelabellings left.old.bounds all.now }
    requires ranks { AreRanks left.old.bounds class.now }
    requires rising { IsStrictlyIncreasing class.now }
    ensures bounds { left.new.bounds ≡ left.old.bounds }
    ensures progress { OnOk result ((done : List Pair) → Progress left.old.bounds done left.old.lists (contains same_ranks seen.old) → Progress left.old.bounds (done ++ class_pairs class.now) left.new.lists (contains same_ranks seen.new)) }
{
    let b = left.bounds();
    let Some((first, rest)) = class.split_first() else {
        return Ok(());
    };
    for later in rest {
        if take_pair(alloc, seen, all, b, *first, *later)? {
            left.push(&[*first, *later])?;
        }
    }
    Ok(())
}
