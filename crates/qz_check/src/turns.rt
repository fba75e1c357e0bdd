//! The turns that can take one matrix to another.
ghost use Rattle.std.specs.Prelude.{◌≡◌, ◌↔◌, ℕ, ◌<◌, length, IsTrue, IfOk};
ghost use Rattle.qz_check.specs.Columns.{flag, IsTurnedBy, AreTurnedBy};

use crate::turned::Turned;
use qz_circ::Memory;
use std::alloc::Global;

// All turns are possible.
pub(crate) fn all_turns(alloc: Global) -> Result<Vec<bool>, Memory>
    ensures size { IfOk result (λ v. length v.items ≡ 512) }
    ensures all { IfOk result (λ v. (t : ℕ) → t < 512 → IsTrue (flag v.items t)) }
{
    let Ok(mut possible) = Vec::with_capacity(alloc, 512) else {
        return Err(Memory);
    };
    for _ in 0..512usize {
        possible.push_reserved(true);
    }
    Ok(possible)
}

// Whether a turn that was possible takes y to x.
fn still_possible(possible: bool, x: &Turned, y: &Turned, turn: u16) -> bool
    requires { turn < 512 }
    ensures { IsTrue result ↔ (IsTrue possible × IsTurnedBy turn x.now y.now) }
{
    possible && x.is_turned(y, turn)
}

// Leaves only the turns that take y to x.
fn narrow(possible: &mut [bool], x: &Turned, y: &Turned)
    requires { length possible.old ≡ 512 }
    ensures { (t : ℕ) → t < 512 → (IsTrue (flag possible.new t) ↔ (IsTrue (flag possible.old t) × IsTurnedBy t x.now y.now)) }
{
    for turn in 0..512 {
        let still = still_possible(possible[turn as usize], x, y, turn);
        possible[turn as usize] = still;
    }
}

// Leaves only the turns that take the second column to the first.
pub(crate) fn narrow_column(possible: &mut [bool], x: &[Turned], y: &[Turned])
    requires size { length possible.old ≡ 512 }
    requires rows { length y.now ≡ length x.now }
    ensures { (t : ℕ) → t < 512 → (IsTrue (flag possible.new t) ↔ (IsTrue (flag possible.old t) × AreTurnedBy t x.now y.now)) }
{
    for i in 0..x.len() {
        narrow(possible, &x[i], &y[i]);
    }
}

// Whether a turn is left.
pub(crate) fn is_one_left(possible: &[bool]) -> bool
    ensures { IsTrue result ↔ ((t : ℕ) × (t < length possible.now) × IsTrue (flag possible.now t)) }
{
    for turn in 0..possible.len() {
        if possible[turn] {
            return true;
        }
    }
    false
}
