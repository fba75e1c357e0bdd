//! The class list by several workers.
ghost use Rattle.std.specs.Prelude.{◌≡◌, ◌+◌, ◌<◌, ◌≤◌, IfOk};
ghost use Rattle.qz_circ.specs.Classes.{IsClassList, HasEquivalentMembers};
ghost use Rattle.qz_circ.specs.Joined.{JoinsEquivalent};
ghost use Rattle.qz_repgen.specs.Journals.{IsKeptRank};
ghost use Rattle.qz_repgen.specs.Numbers.{IsNumberOf};
ghost use Rattle.qz_repgen.specs.Reports.{IsExtended, IsReport};
ghost use Rattle.qz_repgen.specs.Rounds.{IsRepresentativeOf, IsKeptUpTo};
ghost use Rattle.qz_repgen.specs.Shards.{ShardsHold};

use crate::crew::crew;
use qz_circ::{Bounds, Classes, Memory, Report, Steps};
use qz_finger::Probe;
use qz_repgen::{finished, first_shards, next_kept};
use qz_seats::Turnstile;
use qz_shard::Shard;
use qz_store::Store;
use std::alloc::Global;
use std::marker::Brand;
use std::sync::Wait;
use std::sync::ledger::{Blank, Ledger};
use std::thread::Threads;

// The shards of the empty circuit, with a count of comparisons, which nothing reads.
fn begun<L: Ledger>(
    alloc: Global,
    b: Bounds,
    probe: &Probe,
    blank: Blank,
) -> Result<Vec<Shard>, Memory>
    requires name { blank.name ≡ L.name }
    requires parts { blank.parts ≡ L.parts }
    requires shared { 0 < L.parts }
    requires qubits { probe.now.q ≡ b.q }
    ensures { IfOk result (λ shards. ShardsHold b probe.now.seed (IsKeptUpTo b 0) shards.items) }
{
    let mut steps = Steps::<L>::new(blank);
    let shards = first_shards(alloc, b, probe, &mut steps)?;
    Ok(shards)
}

// One length: from shards of the kept circuits of at most k gates, those of at most k + 1, and how many representatives of k gates there
// are. Where there are candidates, they go through a store of their own, and its workers put them.
fn one_length<R: Threads + Wait + Sync, T: Turnstile>(
    rt: &R,
    alloc: Global,
    b: Bounds,
    probe: &Probe,
    k: u64,
    shards: Vec<Shard>,
    workers: u64,
    stile: &T,
) -> Result<(Vec<Shard>, u64), Memory>
    requires short { k < b.n }
    requires qubits { probe.now.q ≡ b.q }
    requires some_worker { 1 ≤ workers }
    requires few_workers { workers ≤ 16 }
    requires held { ShardsHold b probe.now.seed (IsKeptUpTo b k) shards.items }
    ensures held { IfOk result (λ made. ShardsHold b probe.now.seed (IsKeptUpTo b (k + 1)) made.0.items) }
    ensures number { IfOk result (λ made. IsNumberOf (IsRepresentativeOf b k) made.1) }
{
    let (list, representatives) = next_kept(alloc, b, &shards, k)?;
    if list.is_empty() {
        return Ok((shards, representatives));
    }
    let (store, pass) = Store::open(alloc, list, shards, b, *probe, workers)?;
    let (pass, done) = crew(rt, alloc, &store, pass, 0, stile);
    if done.is_err() {
        return Err(Memory);
    }
    Ok((store.close(pass), representatives))
}

// All lengths: the shards of all kept circuits, and how many representatives have fewer gates than the bounds allow.
fn all_lengths<R: Threads + Wait + Sync, T: Turnstile>(
    rt: &R,
    alloc: Global,
    b: Bounds,
    probe: &Probe,
    shards: Vec<Shard>,
    workers: u64,
    stile: &T,
) -> Result<(Vec<Shard>, u64), Memory>
    requires qubits { probe.now.q ≡ b.q }
    requires some_worker { 1 ≤ workers }
    requires few_workers { workers ≤ 16 }
    requires held { ShardsHold b probe.now.seed (IsKeptUpTo b 0) shards.items }
    ensures held { IfOk result (λ made. ShardsHold b probe.now.seed (IsKeptRank b) made.0.items) }
    ensures number { IfOk result (λ made. IsNumberOf (IsExtended b) made.1) }
{
    let mut shards = shards;
    let mut representatives = 0;
    for k in 0..b.n() {
        let (longer, longest) = one_length(rt, alloc, b, probe, k, shards, workers, stile)?;
        shards = longer;
        representatives += longest;
    }
    Ok((shards, representatives))
}

/// The class list, and the counts of its generation, by 1 to 16 workers that share a store for each length. It is the class list of
/// `qz_repgen::generate_one`, for every number of workers, seed and turnstile and however the steps of the workers fall; of the
/// counts only that of fingerprints goes by the seed. It waits for its workers, which work one after another where no thread can be
/// made. Memory where one of them lacked it.
pub fn generate<R: Threads + Wait + Sync, T: Turnstile>(
    rt: &R,
    alloc: Global,
    b: Bounds,
    workers: u64,
    seed: u64,
    stile: &T,
) -> Result<(Classes, Report), Memory>
    requires some_worker { 1 ≤ workers }
    requires few_workers { workers ≤ 16 }
    ensures bounds { IfOk result (λ k. k.0.bounds ≡ b) }
    ensures classes { IfOk result (λ k. IsClassList b k.0.lists) }
    ensures equivalent { IfOk result (λ k. HasEquivalentMembers b k.0.lists) }
    ensures complete { IfOk result (λ k. JoinsEquivalent b k.0.lists) }
    ensures report { IfOk result (λ k. IsReport b seed k.1) }
{
    let probe = Probe::new(seed, b.q());
    let shards = begun::<Brand>(alloc, b, &probe, Blank::new(1))?;
    let (shards, representatives) = all_lengths(rt, alloc, b, &probe, shards, workers, stile)?;
    let made = finished(alloc, b, seed, representatives, &shards)?;
    Ok(made)
}
