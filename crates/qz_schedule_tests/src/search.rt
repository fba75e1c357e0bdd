//! A search in which one worker is held.
use crate::holding::{Holding, Kind};
use crate::meeting::writes;
use std::alloc::Global;
use std::process::Abort;
use std::sync::Wait;
use std::thread::Threads;

// Whether two workers find the circuit where one of them is held until the other one has ended. The first round has one circuit and
// so one worker, which passes.
fn finds_with_one_held<R: Threads + Wait + Sync>(
    rt: &R,
    alloc: Global,
    worker: u64,
    kind: Kind,
) -> bool {
    let holding = Holding::new(worker, kind, 2, 1);
    writes(rt, alloc, "--workers 2", "rz(-pi/4) q[0];\n", &holding) == Ok(true)
        && holding.has_held()
}

#[test]
fn two_workers_find_the_same_where_one_is_held(rt: HostRuntime) {
    let kinds = [
        (Kind::Claiming, "claiming"),
        (Kind::Claimed, "claimed"),
        (Kind::Ended, "ended"),
    ];
    for (kind, name) in kinds {
        for worker in 0..2 {
            assert!(rt;
                finds_with_one_held(&rt, rt.alloc(), worker, kind),
                "worker {worker} at {name}"
            );
        }
    }
}
