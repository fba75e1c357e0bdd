//! Sums over the places of each row and itself.
ghost use Rattle.std.specs.Prelude.{◌≡◌, ℕ, ◌%◌, ◌^◌, ◌<◌, ◌≤◌, slice_index};
ghost use Rattle.qz_circ.specs.Paths.{flipped_state as flip_of};
ghost use Rattle.qz_finger.specs.Actions.{AreBelow, value_after as after_step};
ghost use Rattle.qz_finger.specs.Modulo.{modulus, sum_below};
ghost use Rattle.qz_finger.specs.Weights.{place_of};

use crate::actions::{Step, value_after};
use crate::modulo::reduce;
use qz_circ::states_on;

// The numbers that a function gives for the places of each row and itself, added up.
fn diagonal<F: Fn(usize) -> u64>(q: u64, number: F) -> u64
    requires qubits { q ≤ 3 }
    requires callable { (k : ℕ) → k < 64 → F.pre number k }
    ensures { (f : ℕ → ℕ) → ((k x : ℕ) → k < 64 → F.post number k x → x ≡ f k) → result ≡ sum_below (λ i. f (place_of q i i)) (2 ^ q) % modulus }
{
    let rows = states_on(q);
    let mut total: u128 = 0;
    for i in 0..rows {
        total += number(i * rows + i) as u128;
    }
    reduce(total)
}

// The values in the places of each row and itself, added up.
pub(crate) fn trace(q: u64, values: &[u64; 64]) -> u64
    requires { q ≤ 3 }
    ensures { result ≡ sum_below (λ i. slice_index values.now (place_of q i i)) (2 ^ q) % modulus }
{
    diagonal(q, |k| values[k])
}

// The same of the values after a step.
pub(crate) fn trace_after(step: Step, q: u64, values: &[u64; 64]) -> u64
    requires qubits { q ≤ 3 }
    requires control { step.control < 3 }
    requires target { step.target < 3 }
    requires closed { (k : ℕ) → k < 64 → flip_of step.target k < 64 }
    requires below { AreBelow values.now }
    ensures { result ≡ sum_below (λ i. after_step step (slice_index values.now) (place_of q i i)) (2 ^ q) % modulus }
{
    diagonal(q, |k| value_after(step, values, k))
}
