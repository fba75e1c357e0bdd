//! Rounds: the kept circuits of one gate more, from the representatives so far.
ghost use Rattle.std.specs.Prelude.{◌≡◌, ◌+◌, ◌<◌, ℕ, All, IfOk, OnOk};
ghost use Rattle.qz_circ.specs.Bounds.{IsLawful};
ghost use Rattle.qz_circ.specs.ClassLists.{AreRanks};
ghost use Rattle.qz_circ.specs.Classes.{ListsExactly};
ghost use Rattle.qz_repgen.specs.Journals.{IsKeptRank};
ghost use Rattle.qz_repgen.specs.Listing.{AddsFirsts, ListsFirsts};
ghost use Rattle.qz_repgen.specs.Numbers.{IsNumberOf};
ghost use Rattle.qz_repgen.specs.Reports.{IsExtended};
ghost use Rattle.qz_repgen.specs.Rounds.{IsRepresentativeOf, IsKeptOf, IsKeptUpTo};
ghost use Rattle.qz_repgen.specs.Shards.{journals_of, empty_shards, ShardsHold};

use crate::candidate::candidates;
use crate::fingerprints::Fingerprints;
use crate::shards::{sixteen, take_in};
use qz_circ::{Bounds, Memory, Steps, length_of};
use qz_finger::Probe;
use qz_shard::Shard;
use std::alloc::Global;
use std::sync::ledger::Ledger;

// Adds the first members of the shard's classes that have k gates.
fn add_firsts(found: &mut Vec<u64>, shard: &Shard, b: Bounds, k: u64) -> Result<(), Memory>
    requires bounds { shard.now.bounds ≡ b }
    requires listed { AreRanks b shard.now.journal }
    ensures { OnOk result (AddsFirsts b k shard.now.journal found.old.items found.new.items) }
{
    for i in 0..shard.classes() {
        let first = shard.class(i)[0];
        if length_of(first, b) == k && found.push(first).is_err() {
            return Err(Memory);
        }
    }
    Ok(())
}

// The first members of all classes that have k gates, in order.
fn firsts(alloc: Global, b: Bounds, shards: &[Shard], k: u64) -> Result<Vec<u64>, Memory>
    requires bounds { All (λ s. s.bounds ≡ b) shards.now }
    requires listed { All (λ s. AreRanks b s.journal) shards.now }
    ensures { IfOk result (λ found. ListsFirsts b k (journals_of shards.now) found.items) }
{
    let mut found = Vec::new(alloc);
    for shard in shards {
        add_firsts(&mut found, shard, b, k)?;
    }
    found.sort_unstable();
    Ok(found)
}

/// The ranks of the kept circuits of k + 1 gates, in order, where the shards hold those of at most k gates, and k is less than the
/// bounds' number of gates; and how many representatives of k gates there are. The kept circuits are the candidates of these.
pub fn next_kept(
    alloc: Global,
    b: Bounds,
    shards: &[Shard],
    k: u64,
) -> Result<(Vec<u64>, u64), Memory>
    requires short { k < b.n }
    requires held { (seed : ℕ) × ShardsHold b seed (IsKeptUpTo b k) shards.now }
    ensures kept { IfOk result (λ next. ListsExactly (IsKeptOf b (k + 1)) next.0.items) }
    ensures number { IfOk result (λ next. IsNumberOf (IsRepresentativeOf b k) next.1) }
{
    let parts = firsts(alloc, b, shards, k)?;
    let kept = candidates(alloc, &parts, b)?;
    Ok((kept, parts.len() as u64))
}

// Takes in the kept circuits of k + 1 gates, where those of fewer are in the shards, and answers how many representatives of k
// gates there are.
fn round<L: Ledger>(
    alloc: Global,
    b: Bounds,
    probe: &Probe,
    k: u64,
    shards: &mut [Shard],
    steps: &mut Steps<L>,
) -> Result<u64, Memory>
    requires lawful { IsLawful b }
    requires qubits { probe.now.q ≡ b.q }
    requires short { k < b.n }
    requires held { ShardsHold b probe.now.seed (IsKeptUpTo b k) shards.old }
    ensures held { OnOk result (ShardsHold b probe.now.seed (IsKeptUpTo b (k + 1)) shards.new) }
    ensures number { IfOk result (IsNumberOf (IsRepresentativeOf b k)) }
{
    let (left, representatives) = next_kept(alloc, b, shards, k)?;
    let mut fingerprints = Fingerprints::new(alloc, b, *probe);
    for r in &left {
        let print = fingerprints.of(*r)?;
        take_in(shards, *r, print, steps)?;
    }
    Ok(representatives)
}

// Takes in the empty circuit.
fn begin<L: Ledger>(
    b: Bounds,
    probe: &Probe,
    shards: &mut [Shard],
    steps: &mut Steps<L>,
) -> Result<(), Memory>
    requires lawful { IsLawful b }
    requires qubits { probe.now.q ≡ b.q }
    requires empty { shards.old ≡ empty_shards b probe.now 16 }
    ensures { OnOk result (ShardsHold b probe.now.seed (IsKeptUpTo b 0) shards.new) }
{
    let print = probe.finger(&[]);
    take_in(shards, 0, print, steps)
}

/// The sixteen shards of a generation, of which one has the empty circuit, and the others have nothing.
pub fn first_shards<L: Ledger>(
    alloc: Global,
    b: Bounds,
    probe: &Probe,
    steps: &mut Steps<L>,
) -> Result<Vec<Shard>, Memory>
    requires { probe.now.q ≡ b.q }
    ensures { IfOk result (λ shards. ShardsHold b probe.now.seed (IsKeptUpTo b 0) shards.items) }
{
    let mut shards = sixteen(alloc, b, probe)?;
    begin(b, probe, &mut shards, steps)?;
    Ok(shards)
}

// Takes in all kept circuits, where the empty one is in the shards, and answers how many representatives have fewer gates than the
// bounds allow.
pub(crate) fn all_rounds<L: Ledger>(
    alloc: Global,
    b: Bounds,
    probe: &Probe,
    shards: &mut [Shard],
    steps: &mut Steps<L>,
) -> Result<u64, Memory>
    requires qubits { probe.now.q ≡ b.q }
    requires held { ShardsHold b probe.now.seed (IsKeptUpTo b 0) shards.old }
    ensures held { OnOk result (ShardsHold b probe.now.seed (IsKeptRank b) shards.new) }
    ensures number { IfOk result (IsNumberOf (IsExtended b)) }
{
    let mut representatives = 0;
    for k in 0..b.n() {
        let longest = round(alloc, b, probe, k, shards, steps)?;
        representatives += longest;
    }
    Ok(representatives)
}
