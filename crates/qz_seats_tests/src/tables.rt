//! Passes of one table, on one thread.
ghost use Rattle.std.specs.Prelude.{◌≡◌, ◌≤◌, None, IfOk};
ghost use Rattle.qz_seats.specs.Parts.{IsOf};
ghost use Rattle.qz_seats.specs.SeatRule.{count_of};
ghost use Rattle.qz_seats.specs.Views.{first_view};

use crate::log::{Log, empty, settle};
use qz_seats::{Lift, NoValue, Pass, Receipt, Seats};
use std::alloc::Global;
use std::process::Abort;
use std::test::Fail;

// A table of one value with no entries.
pub fn opened(alloc: Global, limit: u64, seats: u64) -> Result<(Seats<Log>, Pass<Log>), Fail>
    requires given { limit ≤ 16 }
    requires some { 1 ≤ seats }
    requires few { seats ≤ 16 }
    ensures of { IfOk result (λ made. IsOf made.1 made.0) }
    ensures count { IfOk result (λ made. count_of made.0.terms ≡ 1) }
    ensures seats { IfOk result (λ made. made.0.terms.seats ≡ seats) }
    ensures view { IfOk result (λ made. made.1.view ≡ first_view made.0.terms) }
{
    let mut values = Vec::new(alloc);
    values.push(empty(alloc))?;
    let Ok(made) = Seats::open(alloc, limit, values, seats) else {
        return Err(Fail::new("no memory"));
    };
    Ok(made)
}

fn numbers(receipt: Receipt) -> [u64; 3] {
    [receipt.shard(), receipt.place(), receipt.item()]
}

// The second pass lifts the value, the first finds it out, and both put an entry.
fn lent_to_two(alloc: Global) -> Result<([u64; 3], [u64; 3], Vec<Log>), Fail> {
    let (seats, mut one) = opened(alloc, 0, 2)?;
    let mut two = seats.split(&mut one);
    let Lift::Won(log) = seats.lift(&mut two, 0) else {
        return Err(Fail::new("the value was out"));
    };
    let Lift::Lost = seats.lift(&mut one, 0) else {
        return Err(Fail::new("two have the value"));
    };
    let first = settle(&seats, &mut two, 0, log, 7)?;
    let Lift::Won(log) = seats.lift(&mut one, 0) else {
        return Err(Fail::new("the value did not come back"));
    };
    let second = settle(&seats, &mut one, 0, log, 8)?;
    seats.join(&mut one, two);
    Ok((numbers(first), numbers(second), seats.close(one)))
}

#[test]
fn a_value_goes_to_one_pass_after_the_other(rt: HostRuntime) -> Result<(), Fail> {
    let (first, second, values) = lent_to_two(rt.alloc())?;
    assert!(rt; first == [0, 0, 7]);
    assert!(rt; second == [0, 1, 8]);
    assert!(rt; values.len() == 1);
    assert!(rt; values[0].entries.as_slice() == [7, 8].as_slice());
    Ok(())
}

// The value goes back as it was, and then with one entry.
fn lent_again(alloc: Global) -> Result<[u64; 3], Fail> {
    let (seats, mut pass) = opened(alloc, 0, 1)?;
    let Lift::Won(log) = seats.lift(&mut pass, 0) else {
        return Err(Fail::new("the value was out"));
    };
    seats.settle_same(&mut pass, 0, log);
    let Lift::Won(log) = seats.lift(&mut pass, 0) else {
        return Err(Fail::new("the value did not come back"));
    };
    let receipt = settle(&seats, &mut pass, 0, log, 5)?;
    Ok(numbers(receipt))
}

#[test]
fn a_value_that_goes_back_the_same_has_no_entry(rt: HostRuntime) -> Result<(), Fail> {
    assert!(rt; lent_again(rt.alloc())? == [0, 0, 5]);
    Ok(())
}

// One draw of each pass in turn.
fn in_turn(
    seats: &Seats<NoValue>,
    one: &mut Pass<NoValue>,
    two: &mut Pass<NoValue>,
    three: &mut Pass<NoValue>,
) -> (Option<u64>, Option<u64>, Option<u64>)
    requires one { IsOf one.old seats.now }
    requires two { IsOf two.old seats.now }
    requires three { IsOf three.old seats.now }
    ensures one { IsOf one.new seats.now × (one.new.view.shares ≡ one.old.view.shares) × (one.new.view.held ≡ one.old.view.held) }
    ensures two { IsOf two.new seats.now × (two.new.view.shares ≡ two.old.view.shares) × (two.new.view.held ≡ two.old.view.held) }
    ensures three { IsOf three.new seats.now × (three.new.view.shares ≡ three.old.view.shares) × (three.new.view.held ≡ three.old.view.held) }
{
    (seats.draw(one), seats.draw(two), seats.draw(three))
}

type Turn = (Option<u64>, Option<u64>, Option<u64>);

// Three passes draw until each is ended: what they drew in three turns, whether all are ended, and how many values there are.
fn drawn_by_three(alloc: Global) -> Result<(Turn, Turn, Turn, bool, usize), Fail> {
    let Ok((seats, mut one)) = Seats::open(alloc, 5, Vec::new(alloc), 3) else {
        return Err(Fail::new("no memory"));
    };
    let mut two = seats.split(&mut one);
    let mut three = seats.split(&mut one);
    let first = in_turn(&seats, &mut one, &mut two, &mut three);
    let second = in_turn(&seats, &mut one, &mut two, &mut three);
    let third = in_turn(&seats, &mut one, &mut two, &mut three);
    let ended = one.ended() && two.ended() && three.ended();
    seats.join(&mut one, two);
    seats.join(&mut one, three);
    let values = seats.close(one);
    Ok((first, second, third, ended, values.len()))
}

#[test]
fn three_passes_draw_each_number_once(rt: HostRuntime) -> Result<(), Fail> {
    let (first, second, third, ended, values) = drawn_by_three(rt.alloc())?;
    assert!(rt; first == (Some(0), Some(1), Some(2)));
    assert!(rt; second == (Some(3), Some(4), None));
    assert!(rt; third == (None, None, None));
    assert!(rt; ended);
    assert!(rt; values == 0);
    Ok(())
}
