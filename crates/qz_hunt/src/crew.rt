//! Workers that share the circuits of a round.
ghost use Rattle.std.specs.Prelude.{◌≡◌, ◌+◌, ◌<◌, ◌≤◌, [], IfOk};
ghost use Rattle.std.specs.Thread.{IsSync};
ghost use Rattle.qz_hunt.specs.Gathered.{IsFree, IsGathered, AreMerged};

use crate::gather::Round;
use qz_circ::Memory;
use qz_queue::Queue;
use qz_seats::{NoValue, Pass, Turnstile};
use std::sync::Wait;
use std::thread::{Threads, join};

// The work of one worker, with its pass.
fn alone<R: Wait, T: Turnstile>(
    rt: &R,
    round: &Round,
    pass: Pass<NoValue>,
    worker: u64,
    stile: &T,
) -> (Pass<NoValue>, Result<Queue, Memory>)
    requires free { IsFree round.now.seats pass }
    requires none { pass.view.drawn ≡ [] }
    ensures free { IsFree round.now.seats result.0 }
    ensures shares { result.0.view.shares ≡ pass.view.shares }
    ensures gathered { IfOk result.1 (IsGathered round.now result.0.view) }
{
    let mut pass = pass;
    let found = round.work(rt, &mut pass, worker, stile);
    (pass, found)
}

// A pass with one share, and one with the others.
fn parted(round: &Round, pass: Pass<NoValue>) -> (Pass<NoValue>, Pass<NoValue>)
    requires several { 2 ≤ pass.view.shares }
    requires free { IsFree round.now.seats pass }
    requires none { pass.view.drawn ≡ [] }
    ensures free { IsFree round.now.seats result.0 }
    ensures none { result.0.view.drawn ≡ [] }
    ensures share { result.0.view.shares ≡ 1 }
    ensures others_free { IsFree round.now.seats result.1 }
    ensures others_none { result.1.view.drawn ≡ [] }
    ensures others { result.1.view.shares + 1 ≡ pass.view.shares }
{
    let mut pass = pass;
    let one = round.seats.split(&mut pass);
    (one, pass)
}

// The circuits of both queues in one.
fn merged(one: Result<Queue, Memory>, others: Result<Queue, Memory>) -> Result<Queue, Memory>
    requires cap { IfOk one (λ q. IfOk others (λ p. q.cap ≡ p.cap)) }
    requires weights { IfOk one (λ q. IfOk others (λ p. q.weights ≡ p.weights)) }
    ensures { IfOk result (λ all. AreMerged one others all) }
{
    let mut all = one?;
    all.merge(others?);
    Ok(all)
}

// What two have gathered becomes that of one. Where one of them lacked memory, both did.
fn together(
    round: &Round,
    one: (Pass<NoValue>, Result<Queue, Memory>),
    others: (Pass<NoValue>, Result<Queue, Memory>),
) -> (Pass<NoValue>, Result<Queue, Memory>)
    requires free { IsFree round.now.seats one.0 }
    requires gathered { IfOk one.1 (IsGathered round.now one.0.view) }
    requires others_free { IsFree round.now.seats others.0 }
    requires others_gathered { IfOk others.1 (IsGathered round.now others.0.view) }
    ensures free { IsFree round.now.seats result.0 }
    ensures shares { result.0.view.shares ≡ one.0.view.shares + others.0.view.shares }
    ensures gathered { IfOk result.1 (IsGathered round.now result.0.view) }
{
    let (mut pass, first) = one;
    let (other, second) = others;
    round.seats.join(&mut pass, other);
    (pass, merged(first, second))
}

// As many workers as the pass has shares, each in a thread of its own where one can be made: they are counted from this one on, and
// each has one share. At the end one pass has all that theirs had. Memory where one of them lacked it.
pub(crate) fn crew<R: Threads + Wait + Sync, T: Turnstile>(
    rt: &R,
    round: &Round,
    pass: Pass<NoValue>,
    worker: u64,
    stile: &T,
) -> (Pass<NoValue>, Result<Queue, Memory>)
    requires shared { IsSync R.row × IsSync T.row }
    requires some { 1 ≤ pass.view.shares }
    requires workers { worker + pass.view.shares ≤ 16 }
    requires free { IsFree round.now.seats pass }
    requires none { pass.view.drawn ≡ [] }
    ensures free { IsFree round.now.seats result.0 }
    ensures shares { result.0.view.shares ≡ pass.view.shares }
    ensures gathered { IfOk result.1 (IsGathered round.now result.0.view) }
{
    if pass.shares() == 1 {
        return alone(rt, round, pass, worker, stile);
    }
    let (mine, rest) = parted(round, pass);
    let (one, others) = join(
        rt,
        || -> (Pass<NoValue>, Result<Queue, Memory>)
            requires { IsSync R.row × IsSync T.row × IsFree round.now.seats mine × (mine.view.drawn ≡ []) }
            ensures { IsFree round.entry.now.seats result.0 × (result.0.view.shares ≡ mine.view.shares) × IfOk result.1 (IsGathered round.entry.now result.0.view) }
        { alone(rt, round, mine, worker, stile) },
        || -> (Pass<NoValue>, Result<Queue, Memory>)
            requires { IsSync R.row × IsSync T.row × (1 ≤ rest.view.shares) × (worker + 1 + rest.view.shares ≤ 16) × IsFree round.now.seats rest × (rest.view.drawn ≡ []) }
            ensures { IsFree round.entry.now.seats result.0 × (result.0.view.shares ≡ rest.view.shares) × IfOk result.1 (IsGathered round.entry.now result.0.view) }
        { crew(rt, round, rest, worker + 1, stile) },
    );
    together(round, one, others)
}
