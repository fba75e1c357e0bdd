//! The turns of one worker.
ghost use Rattle.std.specs.Prelude.{◌≡◌, ◌⊎◌, ◌<◌, true, OnOk, OnErr, IfOk};
ghost use Rattle.qz_circ.specs.Order.{all_circuits};
ghost use Rattle.qz_store.specs.Stores.{print_in, IsFree, IsPending, HasReceipt};
ghost use Rattle.qz_crew.specs.Works.{prints_of, HasPutAll, IsTried, IsKept, IsDone, HasOneOpen};

use qz_circ::{Memory, Steps};
use qz_repgen::Fingerprints;
use qz_seats::{Moment, Turnstile};
use qz_store::{Pass, Put, Store};
use std::alloc::Global;
use std::marker::Brand;
use std::sync::Wait;
use std::sync::ledger::{Blank, Ledger};
use std::thread;

// Puts a claimed rank, which has this fingerprint, and tries again while its shard is out.
fn put<R: Wait, T: Turnstile, L: Ledger>(
    rt: &R,
    store: &Store,
    pass: &mut Pass,
    r: u64,
    print: u64,
    worker: u64,
    stile: &T,
    steps: &mut Steps<L>,
) -> Result<(), Memory>
    requires free { IsFree store.now pass.old }
    requires pending { IsPending pass.old.view r }
    requires print { print ≡ print_in store.now r }
    ensures tried { IsTried store.now pass.old pass.new }
    ensures put { OnOk result (HasReceipt pass.new.view r) }
{
    for _ in rt.forever() {
        stile.at(worker, Moment::Putting);
        match store.try_put_with_print(pass, r, print, steps) {
            Put::Done(receipt) => {
                stile.at(worker, Moment::Put(receipt));
                return Ok(());
            }
            Put::Busy => thread::yield_now(),
            Put::Memory => return Err(Memory),
        }
    }
    unreachable!()
}

// Claims a rank and puts it. False where none is left.
fn turn<R: Wait, T: Turnstile, L: Ledger>(
    rt: &R,
    store: &Store,
    pass: &mut Pass,
    prints: &mut Fingerprints,
    worker: u64,
    stile: &T,
    steps: &mut Steps<L>,
) -> Result<bool, Memory>
    requires free { IsFree store.now pass.old }
    requires all { HasPutAll pass.old.view }
    requires prints { prints.old ≡ prints_of store.now }
    ensures kept { IsKept store.now pass.old pass.new }
    ensures all { OnOk result (HasPutAll pass.new.view) }
    ensures left { IfOk result (λ left. (left ≡ true) ⊎ (pass.new.view.ended ≡ true)) }
    ensures open { OnErr result (HasOneOpen pass.new.view) }
    ensures prints { prints.new ≡ prints_of store.now }
{
    stile.at(worker, Moment::Claiming);
    let Some(r) = store.claim(pass) else {
        return Ok(false);
    };
    stile.at(worker, Moment::Claimed);
    let print = prints.of(r)?;
    put(rt, store, pass, r, print, worker, stile, steps)?;
    Ok(true)
}

// Turns, until no rank is left.
fn turns<R: Wait, T: Turnstile, L: Ledger>(
    rt: &R,
    alloc: Global,
    store: &Store,
    pass: &mut Pass,
    worker: u64,
    stile: &T,
    blank: Blank,
) -> Result<(), Memory>
    requires name { blank.name ≡ L.name }
    requires parts { blank.parts ≡ L.parts }
    requires shared { 0 < L.parts }
    requires free { IsFree store.now pass.old }
    requires all { HasPutAll pass.old.view }
    ensures kept { IsKept store.now pass.old pass.new }
    ensures done { OnOk result (IsDone pass.new.view) }
    ensures open { OnErr result (HasOneOpen pass.new.view) }
{
    let mut steps = Steps::<L>::new(blank);
    let mut prints = Fingerprints::new(alloc, store.bounds(), store.probe());
    for _ in rt.forever() {
        if !turn(rt, store, pass, &mut prints, worker, stile, &mut steps)? {
            return Ok(());
        }
    }
    unreachable!()
}

/// All turns of one worker, which is counted from 0: it claims ranks of the store and puts each, until none is left or memory runs out.
/// Before a claim, after one that gave a rank, before each try to put it, after it was put and, once, at the end it tells the moment. It
/// waits where a shard is out.
pub fn work<R: Wait, T: Turnstile>(
    rt: &R,
    alloc: Global,
    store: &Store,
    pass: &mut Pass,
    worker: u64,
    stile: &T,
) -> Result<(), Memory>
    requires worker { worker < 16 }
    requires free { IsFree store.now pass.old }
    requires all { HasPutAll pass.old.view }
    ensures kept { IsKept store.now pass.old pass.new }
    ensures done { OnOk result (IsDone pass.new.view) }
    ensures open { OnErr result (HasOneOpen pass.new.view) }
{
    let done = turns::<R, T, Brand>(rt, alloc, store, pass, worker, stile, Blank::new(1));
    stile.at(worker, Moment::Ended);
    done
}
