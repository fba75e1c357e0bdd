//! Workers that share a store.
ghost use Rattle.std.specs.Prelude.{◌≡◌, ◌+◌, ◌<◌, ◌≤◌, OnOk};
ghost use Rattle.std.specs.Thread.{IsSync};
ghost use Rattle.qz_store.specs.Stores.{IsFree};
ghost use Rattle.qz_crew.specs.Works.{HasPutAll, IsDone};

use crate::turns::work;
use qz_circ::Memory;
use qz_seats::Turnstile;
use qz_store::{Pass, Store};
use std::alloc::Global;
use std::sync::Wait;
use std::thread::{Threads, join};

// The work of one worker, with its pass.
fn alone<R: Wait, T: Turnstile>(
    rt: &R,
    alloc: Global,
    store: &Store,
    pass: Pass,
    worker: u64,
    stile: &T,
) -> (Pass, Result<(), Memory>)
    requires worker { worker < 16 }
    requires free { IsFree store.now pass }
    requires all { HasPutAll pass.view }
    ensures free { IsFree store.now result.0 }
    ensures shares { result.0.view.shares ≡ pass.view.shares }
    ensures done { OnOk result.1 (IsDone result.0.view) }
{
    let mut pass = pass;
    let done = work(rt, alloc, store, &mut pass, worker, stile);
    (pass, done)
}

// A pass with one share, and one with the others.
fn parted(store: &Store, pass: Pass) -> (Pass, Pass)
    requires several { 2 ≤ pass.view.shares }
    requires free { IsFree store.now pass }
    requires all { HasPutAll pass.view }
    ensures free { IsFree store.now result.0 }
    ensures all { HasPutAll result.0.view }
    ensures share { result.0.view.shares ≡ 1 }
    ensures others_free { IsFree store.now result.1 }
    ensures others_all { HasPutAll result.1.view }
    ensures others { result.1.view.shares + 1 ≡ pass.view.shares }
{
    let mut pass = pass;
    let one = store.split(&mut pass);
    (one, pass)
}

// Ok where both are.
fn both(first: Result<(), Memory>, second: Result<(), Memory>) -> Result<(), Memory>
    ensures { OnOk result ((first ≡ result) × (second ≡ result)) }
{
    first?;
    second
}

// What two have done becomes that of one. Where one of them lacked memory, both did.
fn together(
    store: &Store,
    one: (Pass, Result<(), Memory>),
    others: (Pass, Result<(), Memory>),
) -> (Pass, Result<(), Memory>)
    requires free { IsFree store.now one.0 }
    requires done { OnOk one.1 (IsDone one.0.view) }
    requires others_free { IsFree store.now others.0 }
    requires others_done { OnOk others.1 (IsDone others.0.view) }
    ensures free { IsFree store.now result.0 }
    ensures shares { result.0.view.shares ≡ one.0.view.shares + others.0.view.shares }
    ensures done { OnOk result.1 (IsDone result.0.view) }
{
    let (mut pass, first) = one;
    let (other, second) = others;
    store.join(&mut pass, other);
    (pass, both(first, second))
}

// As many workers as the pass has shares, each in a thread of its own where one can be made: they are counted from this one on, and
// each has one share. At the end one pass has all that theirs had. Memory where one of them lacked it.
pub(crate) fn crew<R: Threads + Wait + Sync, T: Turnstile>(
    rt: &R,
    alloc: Global,
    store: &Store,
    pass: Pass,
    worker: u64,
    stile: &T,
) -> (Pass, Result<(), Memory>)
    requires shared { IsSync R.row × IsSync T.row }
    requires some { 1 ≤ pass.view.shares }
    requires workers { worker + pass.view.shares ≤ 16 }
    requires free { IsFree store.now pass }
    requires all { HasPutAll pass.view }
    ensures free { IsFree store.now result.0 }
    ensures shares { result.0.view.shares ≡ pass.view.shares }
    ensures done { OnOk result.1 (IsDone result.0.view) }
{
    if pass.shares() == 1 {
        return alone(rt, alloc, store, pass, worker, stile);
    }
    let (mine, rest) = parted(store, pass);
    let (one, others) = join(
        rt,
        || -> (Pass, Result<(), Memory>)
            requires { IsSync R.row × IsSync T.row × (worker < 16) × IsFree store.now mine × HasPutAll mine.view }
            ensures { IsFree store.entry.now result.0 × (result.0.view.shares ≡ mine.view.shares) × OnOk result.1 (IsDone result.0.view) }
        { alone(rt, alloc, store, mine, worker, stile) },
        || -> (Pass, Result<(), Memory>)
            requires { IsSync R.row × IsSync T.row × (1 ≤ rest.view.shares) × (worker + 1 + rest.view.shares ≤ 16) × IsFree store.now rest × HasPutAll rest.view }
            ensures { IsFree store.entry.now result.0 × (result.0.view.shares ≡ rest.view.shares) × OnOk result.1 (IsDone result.0.view) }
        { crew(rt, alloc, store, rest, worker + 1, stile) },
    );
    together(store, one, others)
}
