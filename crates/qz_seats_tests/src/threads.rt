//! Passes of one table, on two threads.
ghost use Rattle.std.specs.Prelude.{◌≡◌, ◌<◌, None, Some, IfSome};
ghost use Rattle.qz_seats.specs.Parts.{IsOf};
ghost use Rattle.qz_seats.specs.SeatRule.{count_of, IsAt};
ghost use Rattle.qz_seats.specs.Views.{taking};

use crate::log::{Log, settle};
use crate::tables::opened;
use qz_seats::{Journal, Lift, Pass, Seats};
use std::alloc::Global;
use std::process::Abort;
use std::test::Fail;
use std::thread;
use std::thread::{Threads, join};

const MOST_TRIES: u64 = 2_000_000_000;

// Value 0, tried for while it is out.
fn lifted(seats: &Seats<Log>, pass: &mut Pass<Log>) -> Option<Log>
    requires of { IsOf pass.old seats.now }
    requires within { 0 < count_of seats.now.terms }
    requires free { pass.old.view.held ≡ None }
    ensures of { IfSome result (λ _. IsOf pass.new seats.now) }
    ensures held { IfSome result (λ log. pass.new.view.held ≡ Some (0, log.entries.items)) }
    ensures at { IfSome result (λ log. IsAt ⟦<Log as Journal>⟧.journal ⟦<Log as Journal>⟧.names ⟦<Log as Journal>⟧.mark pass.new.view.terms 0 log.entries.items log) }
    ensures shares { pass.new.view.shares ≡ pass.old.view.shares }
{
    for _ in 0..MOST_TRIES {
        match seats.lift(pass, 0) {
            Lift::Won(log) => return Some(log),
            Lift::Lost => thread::yield_now(),
        }
    }
    None
}

// Draws at most nine numbers, and puts each into value 0.
fn work(seats: &Seats<Log>, pass: Pass<Log>) -> Option<Pass<Log>>
    requires of { IsOf pass seats.now }
    requires within { 0 < count_of seats.now.terms }
    requires free { pass.view.held ≡ None }
    ensures of { IfSome result (λ done. IsOf done seats.now) }
    ensures free { IfSome result (λ done. done.view.held ≡ None) }
    ensures shares { IfSome result (λ done. done.view.shares ≡ pass.view.shares) }
{
    let mut pass = pass;
    for _ in 0..9 {
        let Some(n) = seats.draw(&mut pass) else {
            return Some(pass);
        };
        let log = lifted(seats, &mut pass)?;
        let Ok(_receipt) = settle(seats, &mut pass, 0, log, n) else {
            return None;
        };
    }
    Some(pass)
}

// Two threads put the numbers below 4. None where a value never came back, or memory ran out.
fn put_by_two<R: Threads + Sync>(rt: &R, alloc: Global) -> Result<Option<Vec<Log>>, Fail> {
    let (seats, mut first) = opened(alloc, 4, 2)?;
    let second = seats.split(&mut first);
    let table = &seats;
    let (one, two) = join(
        rt,
        || -> Option<Pass<Log>>
            requires { IsOf first table.now × (0 < count_of table.now.terms) × (first.view.held ≡ None) }
            ensures { IfSome result (λ done. IsOf done table.entry.now × (done.view.held ≡ None) × (done.view.shares ≡ first.view.shares)) }
        { work(table, first) },
        || -> Option<Pass<Log>>
            requires { IsOf second table.now × (0 < count_of table.now.terms) × (second.view.held ≡ None) }
            ensures { IfSome result (λ done. IsOf done table.entry.now × (done.view.held ≡ None) × (done.view.shares ≡ second.view.shares)) }
        { work(table, second) },
    );
    let Some(mut one) = one else {
        return Ok(None);
    };
    let Some(two) = two else {
        return Ok(None);
    };
    seats.join(&mut one, two);
    Ok(Some(seats.close(one)))
}

// How often a number is among the entries.
fn times(entries: &[u64], x: u64) -> usize {
    entries.iter().filter(|e| **e == x).count()
}

#[test]
fn two_threads_put_each_number_once(rt: HostRuntime) -> Result<(), Fail> {
    let Some(values) = put_by_two(&rt, rt.alloc())? else {
        return Err(Fail::new("no answer"));
    };
    assert!(rt; values.len() == 1);
    let entries = values[0].entries.as_slice();
    assert!(rt; entries.len() == 4);
    for x in 0..4 {
        assert!(rt; times(entries, x) == 1);
    }
    Ok(())
}
