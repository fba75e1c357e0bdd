//! What gates make of the entries of a matrix.
ghost use Rattle.std.specs.Prelude.{◌≡◌, ◌≢◌, ℕ, ◌*◌, ◌^◌, ◌<◌, ◌≤◌, ◌&&◌, nat_lt, length, IfSome, IfOk, OnOk, OnErr};
ghost use Rattle.qz_circ.specs.declared.circuit.Op.TheVariants.{H, X, Cx, Rz};
ghost use Rattle.qz_circ.specs.Circuit.{ActsBelow, HasBelow, AngleHasBelow};
ghost use Rattle.qz_ring.specs.Terms.{reach_times};
ghost use Rattle.qz_matrix.specs.Entries.{sum_at, WeightsAtMost, ReachesAtMost};
ghost use Rattle.qz_matrix.specs.AfterGate.{is_chosen as chosen, read_for, IsClosed, IsExchanged, IsShiftedWhere, IsNext, IsAfterGate};

use crate::angles::exponent_of_angle;
use crate::states::is_chosen;
use qz_circ::{Expr, Memory, Op, flipped_state, has_bit};
use qz_ring::{Elem, Exponent};
use std::alloc::Global;

// Exchanges the entries in two places, if that is wanted.
fn swap_where(entries: &mut [Elem], wanted: bool, i: usize, j: usize)
    requires first { i < length entries.old }
    requires second { j < length entries.old }
    ensures { (m : ℕ) → m < length entries.old → sum_at entries.new m ≡ sum_at entries.old (read_for wanted i j m) }
{
    if wanted {
        entries.swap(i, j);
    }
}

// Whether a place is the lower one of two that are to be exchanged.
fn is_first_chosen(control: Option<u8>, k: usize, flipped: usize) -> bool
    requires { IfSome control (λ c. c < 3) }
    ensures { result ≡ (nat_lt k flipped && chosen control k) }
{
    k < flipped && is_chosen(control, k)
}

// Exchanges each two entries whose places differ in the target, where the control is 1 or there is none.
fn exchange(entries: &mut [Elem], control: Option<u8>, target: u8)
    requires target { target < 3 }
    requires control { IfSome control (λ c. c < 3) }
    requires apart { IfSome control (λ c. c ≢ target) }
    requires closed { IsClosed target (length entries.old) }
    ensures { IsExchanged control target entries.old entries.new }
{
    for k in 0..entries.len() {
        let flipped = flipped_state(target, k);
        let wanted = is_first_chosen(control, k, flipped);
        swap_where(entries, wanted, k, flipped);
    }
}

// X on qubit t.
fn step_x(entries: &mut [Elem], t: u8)
    requires qubit { t < 3 }
    requires closed { IsClosed t (length entries.old) }
    ensures { IsAfterGate (X t) entries.old entries.new }
{
    exchange(entries, None, t);
}

// CX on the control c and the target t.
fn step_cx(entries: &mut [Elem], c: u8, t: u8)
    requires control { c < 3 }
    requires target { t < 3 }
    requires apart { c ≢ t }
    requires closed { IsClosed t (length entries.old) }
    ensures { IsAfterGate (Cx c t) entries.old entries.new }
{
    exchange(entries, Some(c), t);
}

// Multiplies by the monomial, if that is wanted.
fn shift_where(entry: &mut Elem, wanted: bool, by: Exponent)
    requires { reach_times entry.old by ≤ 2 ^ 40 }
    ensures { IsShiftedWhere wanted by entry.old entry.new }
{
    if wanted && !entry.is_zero() {
        entry.shift(by);
    }
}

// A rotation of qubit t: multiplies the entries whose place has the qubit at 1 by the angle's monomial.
fn step_rz(entries: &mut [Elem], t: u8, angle: Expr)
    requires qubit { t < 3 }
    requires parameters { AngleHasBelow 3 angle }
    requires reaches { ReachesAtMost 100 entries.old }
    ensures { IsAfterGate (Rz t angle) entries.old entries.new }
{
    let by = exponent_of_angle(angle);
    for k in 0..entries.len() {
        let wanted = has_bit(t, k);
        shift_where(&mut entries[k], wanted, by);
    }
}

// The entry in a place after H on qubit t.
fn mixed_entry(entries: &[Elem], t: u8, k: usize) -> Result<Elem, qz_ring::Memory>
    requires qubit { t < 3 }
    requires place { k < length entries.now }
    requires closed { IsClosed t (length entries.now) }
    requires weights { WeightsAtMost (2 ^ 100) entries.now }
    ensures { IfOk result (IsNext (H t) entries.now k) }
{
    let entry = &entries[k];
    let flipped = &entries[flipped_state(t, k)];
    if has_bit(t, k) {
        let difference = flipped.minus(entry)?;
        return Ok(difference);
    }
    let sum = entry.plus(flipped)?;
    Ok(sum)
}

// The entries after H on qubit t.
fn mixed(alloc: Global, entries: &[Elem], t: u8) -> Result<Vec<Elem>, Memory>
    requires qubit { t < 3 }
    requires closed { IsClosed t (length entries.now) }
    requires weights { WeightsAtMost (2 ^ 100) entries.now }
    ensures { IfOk result (λ v. IsAfterGate (H t) entries.now v.items) }
{
    let Ok(mut mixed) = Vec::with_capacity(alloc, entries.len()) else {
        return Err(Memory);
    };
    for k in 0..entries.len() {
        let Ok(entry) = mixed_entry(entries, t, k) else {
            return Err(Memory);
        };
        mixed.push_reserved(entry);
    }
    Ok(mixed)
}

// H on qubit t.
fn step_h(entries: &mut Vec<Elem>, t: u8) -> Result<(), Memory>
    requires qubit { t < 3 }
    requires closed { IsClosed t (length entries.old.items) }
    requires weights { WeightsAtMost (2 ^ 100) entries.old.items }
    ensures ok { OnOk result (IsAfterGate (H t) entries.old.items entries.new.items) }
    ensures err { OnErr result (entries.new.items ≡ entries.old.items) }
{
    let mixed = mixed(*entries.allocator(), entries, t)?;
    *entries = mixed;
    Ok(())
}

// One gate on the entries of a matrix on q qubits.
pub(crate) fn step(q: u64, entries: &mut Vec<Elem>, op: Op) -> Result<(), Memory>
    requires qubits { q ≤ 3 }
    requires size { length entries.old.items ≡ 2 ^ q * 2 ^ q }
    requires gate { ActsBelow q op }
    requires parameters { HasBelow 3 op }
    requires weights { WeightsAtMost (2 ^ 100) entries.old.items }
    requires reaches { ReachesAtMost 100 entries.old.items }
    ensures ok { OnOk result (IsAfterGate op entries.old.items entries.new.items) }
    ensures err { OnErr result (entries.new.items ≡ entries.old.items) }
{
    match op {
        Op::H(t) => step_h(entries, t),
        Op::X(t) => {
            step_x(entries.as_mut_slice(), t);
            Ok(())
        }
        Op::Cx(c, t) => {
            step_cx(entries.as_mut_slice(), c, t);
            Ok(())
        }
        Op::Rz(t, angle) => {
            step_rz(entries.as_mut_slice(), t, angle);
            Ok(())
        }
    }
}
