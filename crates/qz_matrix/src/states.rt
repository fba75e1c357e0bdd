//! Places of entries. A place is a state of twice as many qubits as the matrix has: the lower half of its bits is the
//! row, and the upper half the column.
ghost use Rattle.std.specs.Prelude.{◌≡◌, ◌*◌, ◌^◌, ◌<◌, ◌≤◌, IfSome};
ghost use Rattle.qz_matrix.specs.Entries.{place_of};
ghost use Rattle.qz_matrix.specs.AfterGate.{is_chosen as chosen};

use qz_circ::{has_bit, states_on};

// Whether there is no control, or it is 1.
pub(crate) fn is_chosen(control: Option<u8>, state: usize) -> bool
    requires { IfSome control (λ c. c < 3) }
    ensures { result ≡ chosen control state }
{
    match control {
        Some(c) => has_bit(c, state),
        None => true,
    }
}

// The place of row i of column j.
pub(crate) fn place(q: u64, i: u64, j: u64) -> usize
    requires qubits { q ≤ 3 }
    requires row { i < 2 ^ q }
    requires column { j < 2 ^ q }
    ensures value { result ≡ place_of q i j }
    ensures within { result < 2 ^ q * 2 ^ q }
{
    j as usize * states_on(q) + i as usize
}
