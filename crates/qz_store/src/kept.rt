//! Shards as values of the table.
ghost use Rattle.std.specs.Prelude.{◌≡◌, ◌≤◌, [], map, length, slice_get, vec_len, vec_capacity, Some, All, IfOk};
ghost use Rattle.qz_shard.specs.Shards.{IsShard};

use qz_circ::Memory;
use qz_seats::Journal;
use qz_shard::Shard;
use std::alloc::Global;
use std::snapshot::Snapshot;

/// A shard, and the list from which its entries come, which only clauses see.
#[derive(Drop)]
pub struct Kept {
    pub(crate) shard: Shard,
    pub(crate) names: Snapshot<Vec<u64>>,
}

/// A worker's right to step on a store.
pub type Pass = qz_seats::Pass<Kept>;

impl Journal for Kept {
    ghost use Rattle.qz_store.specs.HeldStore.{shard_mark};

    ghost journal = { λ kept. kept.shard.journal };

    ghost names = { λ kept. kept.names.value.items };

    ghost mark = { λ kept. shard_mark kept.shard };

    fn len(&self) -> u64 {
        self.shard.len()
    }

    fn entry(&self, i: u64) -> u64 {
        self.shard.entry(i)
    }
}

// A shard with the list. That its length can be told shows what a shard is.
fn kept_of(list: &Vec<u64>, shard: Shard) -> Kept
    ensures shard_is { result.shard ≡ shard }
    ensures names { result.names.value.items ≡ list.now.items }
    ensures is_shard { IsShard shard }
{
    let _ = shard.len();
    Kept {
        shard,
        names: Snapshot::of(list),
    }
}

// The shards, in order, each with the list.
pub(crate) fn packed(
    alloc: Global,
    list: &Vec<u64>,
    shards: Vec<Shard>,
) -> Result<Vec<Kept>, Memory>
    ensures shards { IfOk result (λ packed. map (λ kept. kept.shard) packed.items ≡ shards.items) }
    ensures names { IfOk result (λ packed. All (λ kept. kept.names.value.items ≡ list.now.items) packed.items) }
    ensures are_shards { IfOk result (λ packed. All (λ kept. IsShard kept.shard) packed.items) }
{
    let Ok(mut packed) = Vec::with_capacity(alloc, shards.len()) else {
        return Err(Memory);
    };
    let mut shards = shards;
    while !shards.is_empty() {
        packed.push_reserved(kept_of(list, shards.remove(0)));
    }
    shards.destroy_empty();
    Ok(packed)
}

// The shards without the list, in order, in a vector that has room for them.
pub(crate) fn unpacked(packed: Vec<Kept>, room: Vec<Shard>) -> Vec<Shard>
    requires empty { room.items ≡ [] }
    requires room { vec_len packed ≤ vec_capacity room }
    ensures shards { result.items ≡ map (λ kept. kept.shard) packed.items }
    ensures are_shards { All IsShard result.items }
{
    let mut packed = packed;
    let mut shards = room;
    while !packed.is_empty() {
        let Kept { shard, .. } = packed.remove(0);
        let _ = shard.len();
        shards.push_reserved(shard);
    }
    packed.destroy_empty();
    shards
}
