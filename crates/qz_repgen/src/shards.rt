//! The sixteen shards of a generation.
ghost use Rattle.std.specs.Prelude.{◌≡◌, ◌%◌, ◌<◌, ℕ, length, slice_index_or, IfOk, OnOk};
ghost use Rattle.qz_repgen.specs.Shards.{empty_shards, IsReadyFor, AddsTo};
ghost use Rattle.qz_shard.specs.Shards.{ShardParts};

use qz_circ::{Bounds, Memory, Steps};
use qz_finger::Probe;
use qz_shard::Shard;
use std::alloc::Global;
use std::sync::ledger::Ledger;

// Sixteen shards with nothing in them.
pub(crate) fn sixteen(alloc: Global, b: Bounds, probe: &Probe) -> Result<Vec<Shard>, Memory>
    requires { probe.now.q ≡ b.q }
    ensures { IfOk result (λ shards. shards.items ≡ empty_shards b probe.now 16) }
{
    let mut shards = Vec::new(alloc);
    for k in 0..16 {
        if shards.push(Shard::new(alloc, k, b, *probe)).is_err() {
            return Err(Memory);
        }
    }
    Ok(shards)
}

// Adds a circuit, which has this fingerprint, to the shard where it is at home. It is in none of them.
pub(crate) fn take_in<L: Ledger>(
    shards: &mut [Shard],
    r: u64,
    print: u64,
    steps: &mut Steps<L>,
) -> Result<(), Memory>
    requires number { length shards.old ≡ 16 }
    requires ready { (k : ℕ) (d : ShardParts) → k < 16 → IsReadyFor r print k (slice_index_or shards.old k d) }
    ensures { OnOk result (AddsTo (print % 16) r shards.old shards.new) }
{
    let home = (print % 16) as usize;
    shards[home].add_with_print(r, print, steps)?;
    Ok(())
}
