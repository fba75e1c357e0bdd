//! The place of a circuit among others that are different and in order.
ghost use Rattle.std.specs.Prelude.{◌≡◌, ◌<◌, ◌≤◌, [], length, take, slice_index_or};
ghost use Rattle.qz_circ.specs.ProgramCircuits.{ones, cost, program_cmp};
ghost use Rattle.qz_circ.specs.Search.{is_among};
ghost use Rattle.qz_queue.specs.Circuits.{circuits_of, ArePriced, AreOrdered, IsFront, place_of};

use crate::priced::Priced;
use qz_circ::{Inst, prec_insts};
use std::cmp::Ordering;

// How two circuits of one price compare, where some gates at their front are known to be the same; and how many then are known
// to be.
fn compare_gates(a: &[Inst], c: &[Inst], from: usize, weights: [u8; 4]) -> (Ordering, usize)
    requires dear { cost weights a.now ≡ cost weights c.now }
    requires long { length a.now ≡ length c.now }
    requires same { take from a.now ≡ take from c.now }
    ensures order { result.0 ≡ program_cmp weights a.now c.now }
    ensures same { IsFront weights result.1 a.now c.now }
{
    let mut k = from;
    while k < a.len() {
        if a[k] == c[k] {
            k += 1;
            continue;
        }
        let order = a[k].cmp(&c[k]);
        if order.is_ne() {
            return (order, k);
        }
        k += 1;
    }
    (Ordering::Equal, k)
}

// The same of a circuit that is held, and of any price; none of its gates are known to be the same where its price or its length
// is another.
fn compare(
    held: &Priced,
    c: &[Inst],
    price: u128,
    from: usize,
    weights: [u8; 4],
) -> (Ordering, usize)
    requires held { held.now.price ≡ cost weights held.now.gates.items }
    requires price { price ≡ cost weights c.now }
    requires same { take from held.now.gates.items ≡ take from c.now }
    ensures order { result.0 ≡ program_cmp weights held.now.gates.items c.now }
    ensures same { IsFront weights result.1 held.now.gates.items c.now }
{
    let order = held.price.cmp(&price);
    if order.is_ne() {
        return (order, 0);
    }
    if held.gates.len() != c.len() {
        return (prec_insts(&held.gates, c), 0);
    }
    compare_gates(&held.gates, c, from, weights)
}

// The same of the one with this number.
fn compare_from(
    list: &[Priced],
    i: usize,
    c: &[Inst],
    price: u128,
    from: usize,
    weights: [u8; 4],
) -> (Ordering, usize)
    requires within { i < length list.now }
    requires prices { ArePriced weights list.now }
    requires price { price ≡ cost weights c.now }
    requires same { take from (slice_index_or (circuits_of list.now) i []) ≡ take from c.now }
    ensures order { result.0 ≡ program_cmp weights (slice_index_or (circuits_of list.now) i []) c.now }
    ensures same { IsFront weights result.1 (slice_index_or (circuits_of list.now) i []) c.now }
{
    compare(&list[i], c, price, from, weights)
}

// In which order circuits are looked at, to find the place of another one.
#[derive(Clone, Copy)]
pub(crate) enum Seek {
    // The last one, the first one, and then one in the middle of those that are left. So there are soon circuits on both sides, and
    // what they have alike isn't compared again.
    Ends,
    // The one with this number, and then on from there one after the other: for circuits that come in order, each sought from where
    // the one before it is.
    From(usize),
}

// The next number to look at, from low on and below high.
fn probe(seek: Seek, low: usize, high: usize, count: usize) -> usize
    requires { low < high }
    ensures from { low ≤ result }
    ensures below { result < high }
{
    match seek {
        Seek::Ends => from_ends(low, high, count),
        Seek::From(n) => from_number(n, low, high),
    }
}

// The same from a number on.
fn from_number(n: usize, low: usize, high: usize) -> usize
    requires { low < high }
    ensures from { low ≤ result }
    ensures below { result < high }
{
    if n <= low {
        low
    } else if n < high {
        n
    } else {
        high - 1
    }
}

// The same from both ends on.
fn from_ends(low: usize, high: usize, count: usize) -> usize
    requires { low < high }
    ensures from { low ≤ result }
    ensures below { result < high }
{
    if high == count {
        high - 1
    } else if low == 0 {
        0
    } else {
        low + (high - low) / 2
    }
}

// How many of some circuits that are different and in order are before another one of this price, and whether it is among them.
// What is known to be the same as in the nearest ones on both sides is the same in those between, so that it isn't compared again.
pub(crate) fn find(
    list: &[Priced],
    c: &[Inst],
    price: u128,
    weights: [u8; 4],
    seek: Seek,
) -> (usize, bool)
    requires ordered { AreOrdered weights (circuits_of list.now) }
    requires prices { ArePriced weights list.now }
    requires price { price ≡ cost weights c.now }
    ensures place { result.0 ≡ place_of weights (circuits_of list.now) c.now }
    ensures bound { result.0 ≤ length list.now }
    ensures there { result.1 ≡ is_among (circuits_of list.now) c.now }
{
    let mut found = false;
    let mut low = 0;
    let mut high = list.len();
    let mut low_same = 0;
    let mut high_same = 0;
    while low < high {
        let middle = probe(seek, low, high, list.len());
        let (order, same) = compare_from(list, middle, c, price, low_same.min(high_same), weights);
        if order.is_lt() {
            low = middle + 1;
            low_same = same;
        } else {
            high = middle;
            high_same = same;
            found = order.is_eq();
        }
    }
    (low, found)
}
