//! Circuits that a full queue refuses, told by their cost, their length and their first gates alone.
ghost use Rattle.std.specs.Prelude.{◌≡◌, List, ℕ, IfSome};
ghost use Rattle.qz_circ.specs.ProgramCircuits.{cost};
ghost use Rattle.qz_queue.specs.Bars.{IsBefore};

use qz_circ::Inst;

/// A queue refuses each circuit of at least this cost and at least this length that begins with as many gates of a program as
/// this, or more of them.
#[derive(Clone, Copy, Debug, PartialEq, Eq)]
pub struct Bar {
    /// The cost.
    pub cost: u128,
    /// The length: how many gates there are in all.
    pub long: u64,
    /// With how many gates of the program it begins.
    pub front: u64,
}

// Where a circuit of this price is before a program at their first different gate: its cost, its length, and the number of gates
// up to that one.
pub(crate) fn bar_of(last: &[Inst], price: u128, c: &[Inst]) -> Option<Bar>
    ensures { (weights : List ℕ) → price ≡ cost weights last.now → IfSome result (IsBefore weights last.now c.now) }
{
    let mut k = 0;
    while k < last.len() {
        if k >= c.len() {
            return None;
        }
        if last[k] == c[k] {
            k += 1;
            continue;
        }
        if last[k].cmp(&c[k]).is_ge() {
            return None;
        }
        return Some(Bar {
            cost: price,
            long: last.len() as u64,
            front: k as u64 + 1,
        });
    }
    None
}
