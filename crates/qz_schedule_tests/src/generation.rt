//! A generation in which one worker is held.
ghost use Rattle.std.specs.Prelude.{◌≤◌};

use crate::holding::{Holding, Kind};
use qz_circ::Bounds;
use qz_crew::{Turnstile, generate};
use qz_rulefile::print;
use qz_samples::two_gates;
use std::alloc::Global;
use std::process::Abort;
use std::sync::Wait;
use std::thread::Threads;

// Whether the workers make the classes of at most two gates on one qubit.
fn makes<R: Threads + Wait + Sync, T: Turnstile>(
    rt: &R,
    alloc: Global,
    workers: u64,
    stile: &T,
) -> Option<bool>
    requires some_worker { 1 ≤ workers }
    requires few_workers { workers ≤ 16 }
{
    let b = Bounds::new(2, 1, 0).ok()?;
    let (classes, _) = generate(rt, alloc, b, workers, 0, stile).ok()?;
    let text = print(alloc, &classes).ok()?;
    Some(text.as_slice() == two_gates().as_bytes())
}

// Whether they do where one of them is held until the others have ended, after this many ends of earlier rounds.
fn makes_with_one_held<R: Threads + Wait + Sync>(
    rt: &R,
    alloc: Global,
    workers: u64,
    worker: u64,
    kind: Kind,
    to_pass: u64,
) -> bool
    requires some_worker { 1 ≤ workers }
    requires few_workers { workers ≤ 16 }
{
    let holding = Holding::new(worker, kind, workers, to_pass);
    makes(rt, alloc, workers, &holding) == Some(true) && holding.has_held()
}

// In the first length, and in the second, which begins when both have ended once.
#[test]
fn two_workers_generate_the_same_where_one_is_held(rt: HostRuntime) {
    let kinds = [
        (Kind::Claiming, "claiming"),
        (Kind::Claimed, "claimed"),
        (Kind::Putting, "putting"),
        (Kind::Put, "put"),
        (Kind::Ended, "ended"),
    ];
    for (kind, name) in kinds {
        for worker in 0..2 {
            for to_pass in [0, 2] {
                assert!(rt;
                    makes_with_one_held(&rt, rt.alloc(), 2, worker, kind, to_pass),
                    "worker {worker} at {name} after {to_pass}"
                );
            }
        }
    }
}

// Nine candidates in the first length, and fifteen workers that end while one is held.
#[test]
fn sixteen_workers_generate_the_same_where_one_is_held(rt: HostRuntime) {
    let rows = [
        (0, Kind::Claimed, "claimed"),
        (7, Kind::Putting, "putting"),
        (15, Kind::Claiming, "claiming"),
    ];
    for (worker, kind, name) in rows {
        for to_pass in [0, 16] {
            assert!(rt;
                makes_with_one_held(&rt, rt.alloc(), 16, worker, kind, to_pass),
                "worker {worker} at {name} after {to_pass}"
            );
        }
    }
}
