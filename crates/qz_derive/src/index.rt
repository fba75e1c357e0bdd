//! Which representative is equivalent to a kept circuit.
ghost use Rattle.std.specs.Prelude.{◌≡◌, ℕ, List, ◌++◌, IfOk, OnOk, nat_eq, MatchOption};
ghost use Rattle.indexmap.specs.IndexMap.{get};
ghost use Rattle.qz_circ.specs.Classes.{IsClassList, IsKept, IsRepresentative};
ghost use Rattle.qz_circ.specs.Pairs.{Pair, class_pairs, pairs_of};
ghost use Rattle.qz_derive.specs.Indexes.{IsIndex, HasRepresentative, FindsRepresentatives};

use indexmap::IndexMap;
use qz_circ::{Bounds, Classes, Memory, Op, rank};
use std::alloc::Global;

// Adds the later members of a class, each with the first one.
fn add_class(firsts: &mut IndexMap<u64, u64>, class: &[u64]) -> Result<(), Memory>
    ensures { OnOk result ((pairs : List Pair) → IsIndex pairs (get nat_eq firsts.old) → IsIndex (pairs ++ class_pairs class.now) (get nat_eq firsts.new)) }
{
    let Some((first, later)) = class.split_first() else {
        return Ok(());
    };
    for r in later {
        if firsts.insert(*r, *first).is_err() {
            return Err(Memory);
        }
    }
    Ok(())
}

// Each later member of the classes with the first one of its class.
fn firsts_of(alloc: Global, k: &Classes) -> Result<IndexMap<u64, u64>, Memory>
    ensures { IfOk result (λ firsts. IsIndex (pairs_of k.now.lists) (get nat_eq firsts)) }
{
    let mut firsts = IndexMap::new(alloc);
    for i in 0..k.len() {
        add_class(&mut firsts, k.class(i))?;
    }
    Ok(firsts)
}

/// The later members of the classes of a class list, each with the first one of its class, which is the representative.
pub(crate) fn index_of(alloc: Global, k: &Classes) -> Result<IndexMap<u64, u64>, Memory>
    requires { IsClassList k.now.bounds k.now.lists }
    ensures { IfOk result (λ firsts. FindsRepresentatives k.now.bounds (get nat_eq firsts)) }
{
    let _bounds = k.bounds();
    let firsts = firsts_of(alloc, k)?;
    Ok(firsts)
}

/// The rank of the representative that is equivalent to a kept circuit, or nothing where the circuit is one itself.
pub(crate) fn representative(firsts: &IndexMap<u64, u64>, b: Bounds, c: &[Op]) -> Option<u64>
    requires index { FindsRepresentatives b (get nat_eq firsts.now) }
    requires kept { IsKept b c.now }
    ensures { MatchOption result (IsRepresentative b c.now) (HasRepresentative b c.now) }
{
    let r = rank(c, b).unwrap();
    firsts.get(&r).copied()
}
