//! A round of one store by two passes.
ghost use Rattle.std.specs.Prelude.{◌≡◌, ◌≢◌, ◌<◌, ℕ, [], length, slice_index_or, IfSome, IfOk};
ghost use Rattle.qz_circ.specs.Order.{all_circuits};
ghost use Rattle.qz_shard.specs.Shards.{ShardParts};
ghost use Rattle.qz_store.specs.Stores.{IsFree, IsPending};

use qz_circ::{Bounds, Memory, Steps, unrank};
use qz_finger::Probe;
use qz_shard::Shard;
use qz_store::{Pass, Put, Store};
use std::alloc::Global;
use std::marker::Brand;
use std::sync::ledger::{Blank, Ledger};

// Sixteen shards with nothing in them.
fn sixteen(alloc: Global, b: Bounds, probe: Probe) -> Result<Vec<Shard>, Memory>
    requires { probe.q ≡ b.q }
    ensures number { IfOk result (λ shards. length shards.items ≡ 16) }
    ensures each { IfOk result (λ shards. (k : ℕ) (d : ShardParts) → k < 16 → slice_index_or shards.items k d ≡ record { number = k; bounds = b; probe = probe; journal = [] }) }
{
    let mut shards = Vec::new(alloc);
    for k in 0..16 {
        if shards.push(Shard::new(alloc, k, b, probe)).is_err() {
            return Err(Memory);
        }
    }
    Ok(shards)
}

// A store for two passes over the ranks from 1 to 9.
fn opened(alloc: Global, b: Bounds, probe: Probe) -> Result<(Store, Pass), Memory>
    requires qubits { probe.q ≡ b.q }
    requires enough { 9 < length (all_circuits b) }
    ensures free { IfOk result (λ made. IsFree made.0 made.1) }
    ensures seats { IfOk result (λ made. made.0.seats.terms.seats ≡ 2) }
    ensures shares { IfOk result (λ made. made.1.view.shares ≡ 2) }
    ensures none { IfOk result (λ made. made.1.view.receipts ≡ []) }
{
    let Ok(list) = [1, 2, 3, 4, 5, 6, 7, 8, 9].to_vec(alloc) else {
        return Err(Memory);
    };
    let shards = sixteen(alloc, b, probe)?;
    let (store, pass) = Store::open(alloc, list, shards, b, probe, 2)?;
    Ok((store, pass))
}

// The item of the receipt where the rank was put.
fn item(put: Put) -> Option<u64> {
    match put {
        Put::Done(receipt) => Some(receipt.item()),
        Put::Busy | Put::Memory => None,
    }
}

// Puts a rank, with its fingerprint made before.
fn put_with_print<L: Ledger>(
    alloc: Global,
    store: &Store,
    pass: &mut Pass,
    r: u64,
    steps: &mut Steps<L>,
) -> Option<u64>
    requires free { IsFree store.now pass.old }
    requires pending { IsPending pass.old.view r }
    requires listed { r < length (all_circuits store.now.bounds) }
    ensures free { IsFree store.now pass.new }
    ensures shares { pass.new.view.shares ≡ pass.old.view.shares }
{
    let Ok(circuit) = unrank(alloc, r, store.bounds()) else {
        return None;
    };
    let print = store.probe().finger(&circuit);
    item(store.try_put_with_print(pass, r, print, steps))
}

// Claims the next rank and puts it. None where there is none, or where it was not put.
fn turn<L: Ledger>(store: &Store, pass: &mut Pass, steps: &mut Steps<L>) -> Option<u64>
    requires { IsFree store.now pass.old }
    ensures free { IsFree store.now pass.new }
    ensures shares { pass.new.view.shares ≡ pass.old.view.shares }
{
    let r = store.claim(pass)?;
    item(store.try_put(pass, r, steps))
}

// Whether all turns up to the last rank give their ranks, in order.
fn has_turns<L: Ledger>(store: &Store, pass: &mut Pass, steps: &mut Steps<L>) -> bool
    requires { IsFree store.now pass.old }
    ensures free { IsFree store.now pass.new }
    ensures shares { pass.new.view.shares ≡ pass.old.view.shares }
{
    for r in 3..10 {
        if turn(store, pass, steps) != Some(r) {
            return false;
        }
    }
    true
}

// Whether two passes claim the first two ranks before one of them is put, and both are put.
fn has_first_two<L: Ledger>(
    alloc: Global,
    store: &Store,
    one: &mut Pass,
    two: &mut Pass,
    steps: &mut Steps<L>,
) -> bool
    requires one { IsFree store.now one.old }
    requires two { IsFree store.now two.old }
    ensures one { IsFree store.now one.new }
    ensures two { IsFree store.now two.new }
    ensures one_shares { one.new.view.shares ≡ one.old.view.shares }
    ensures two_shares { two.new.view.shares ≡ two.old.view.shares }
{
    let Some(first) = store.claim(one) else {
        return false;
    };
    let Some(second) = store.claim(two) else {
        return false;
    };
    let of_one = item(store.try_put(one, first, steps));
    let of_two = put_with_print(alloc, store, two, second, steps);
    of_one == Some(1) && of_two == Some(2)
}

// The shards after a round of two passes, where each call answered as it should.
fn round<L: Ledger>(alloc: Global, b: Bounds, blank: Blank) -> Option<Vec<Shard>>
    requires name { blank.name ≡ L.name }
    requires parts { blank.parts ≡ L.parts }
    requires shared { 0 < L.parts }
{
    if b.circuits() < 10 {
        return None;
    }
    let mut steps = Steps::<L>::new(blank);
    let (store, mut one) = opened(alloc, b, Probe::new(0, b.q())).ok()?;
    let mut two = store.split(&mut one);
    if !has_first_two(alloc, &store, &mut one, &mut two, &mut steps) {
        return None;
    }
    if !has_turns(&store, &mut one, &mut steps) || one.ended() {
        return None;
    }
    if store.claim(&mut one).is_some() || !one.ended() || two.ended() {
        return None;
    }
    store.join(&mut one, two);
    Some(store.close(one))
}

// Two passes claim a rank each, and the second one becomes part of the first: the ranks, which that one has then to put.
fn claimed_by_both(store: &Store, one: &mut Pass) -> Option<(u64, u64)>
    requires free { IsFree store.now one.old }
    requires shares { one.old.view.shares ≡ 2 }
    requires none { one.old.view.receipts ≡ [] }
    ensures free { IfSome result (λ _. IsFree store.now one.new) }
    ensures shares { IfSome result (λ _. one.new.view.shares ≡ 2) }
    ensures first { IfSome result (λ ranks. IsPending one.new.view ranks.0) }
    ensures second { IfSome result (λ ranks. IsPending one.new.view ranks.1) }
{
    let mut two = store.split(one);
    let first = store.claim(one)?;
    let second = store.claim(&mut two)?;
    store.join(one, two);
    Some((first, second))
}

// Whether both are put, one after the other.
fn has_both<L: Ledger>(
    store: &Store,
    pass: &mut Pass,
    first: u64,
    second: u64,
    steps: &mut Steps<L>,
) -> bool
    requires free { IsFree store.now pass.old }
    requires first { IsPending pass.old.view first }
    requires second { IsPending pass.old.view second }
    requires different { first ≢ second }
    ensures free { IsFree store.now pass.new }
    ensures shares { pass.new.view.shares ≡ pass.old.view.shares }
{
    let one = match store.try_put(pass, first, steps) {
        Put::Done(receipt) => receipt,
        Put::Busy | Put::Memory => return false,
    };
    item(store.try_put(pass, second, steps)) == Some(second) && one.item() == first
}

// The shards after a pass has put its own rank and one that the other pass had claimed, where each call answered as it should.
fn put_for_the_other<L: Ledger>(alloc: Global, b: Bounds, blank: Blank) -> Option<Vec<Shard>>
    requires name { blank.name ≡ L.name }
    requires parts { blank.parts ≡ L.parts }
    requires shared { 0 < L.parts }
{
    if b.circuits() < 10 {
        return None;
    }
    let mut steps = Steps::<L>::new(blank);
    let (store, mut one) = opened(alloc, b, Probe::new(0, b.q())).ok()?;
    let (first, second) = claimed_by_both(&store, &mut one)?;
    if first != 1 || second != 2 {
        return None;
    }
    if !has_both(&store, &mut one, first, second, &mut steps) {
        return None;
    }
    Some(store.close(one))
}

// How many entries of the shard are this rank.
fn times(shard: &Shard, rank: u64) -> u64 {
    let mut times: u64 = 0;
    for i in 0..shard.len() {
        if shard.entry(i) == rank {
            times = times.saturating_add(1);
        }
    }
    times
}

// How often the rank is among the entries of all shards.
fn times_in_all(shards: &[Shard], rank: u64) -> u64 {
    let mut all: u64 = 0;
    for shard in shards {
        all = all.saturating_add(times(shard, rank));
    }
    all
}

// How many entries the shards have in all.
fn entries(shards: &[Shard]) -> u64 {
    let mut all: u64 = 0;
    for shard in shards {
        all = all.saturating_add(shard.len());
    }
    all
}

#[test]
fn a_round_of_two_passes_puts_each_rank(rt: HostRuntime) {
    let shards = match Bounds::new(2, 1, 0) {
        Ok(b) => round::<Brand>(rt.alloc(), b, Blank::new(1)),
        Err(_) => None,
    };
    assert!(rt; shards.is_some());
    let shards = shards.expect(&rt, "each call answered as it should");
    assert!(rt; shards.len() == 16);
    assert!(rt; entries(&shards) == 9);
}

#[test]
fn a_pass_puts_what_another_one_claimed(rt: HostRuntime) {
    let shards = match Bounds::new(2, 1, 0) {
        Ok(b) => put_for_the_other::<Brand>(rt.alloc(), b, Blank::new(1)),
        Err(_) => None,
    };
    assert!(rt; shards.is_some());
    let shards = shards.expect(&rt, "each call answered as it should");
    assert!(rt; shards.len() == 16);
    assert!(rt; entries(&shards) == 2);
    assert!(rt; times_in_all(&shards, 1) == 1 && times_in_all(&shards, 2) == 1);
}
