//! States of at most six qubits as numbers, in which qubit t is the bit of value 2^t. A state of twice as many qubits as a
//! matrix has is the place of one of its entries.
ghost use Rattle.std.specs.Prelude.{◌≡◌, ◌*◌, ◌^◌, ◌<◌, ◌≤◌};
ghost use Rattle.qz_circ.specs.Paths.{has_bit as bit_of, flipped_state as flip_of};

/// Whether a qubit of a state is 1.
pub fn has_bit(t: u8, state: usize) -> bool
    requires { t < 6 }
    ensures { result ≡ bit_of t state }
{
    (state / (1 << t)) % 2 == 1
}

/// The state with a qubit flipped.
pub fn flipped_state(t: u8, state: usize) -> usize
    requires { t < 6 }
    ensures { result ≡ flip_of t state }
{
    state ^ (1 << t)
}

/// How many states there are of q qubits: so many rows a matrix on them has, and so many columns.
pub fn states_on(q: u64) -> usize
    requires { q ≤ 3 }
    ensures value { result ≡ 2 ^ q }
    ensures few { result ≤ 8 }
{
    1 << q
}

/// How many entries a matrix on q qubits has.
pub fn entries_on(q: u64) -> usize
    requires { q ≤ 3 }
    ensures value { result ≡ 2 ^ q * 2 ^ q }
    ensures few { result ≤ 64 }
{
    states_on(q) * states_on(q)
}
