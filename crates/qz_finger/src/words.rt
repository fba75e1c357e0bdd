//! Random numbers of a seed.
ghost use Rattle.std.specs.Prelude.{◌≡◌, ℕ, ◌+◌, ◌%◌, ◌≤◌, [], ◌∷◌};
ghost use Rattle.qz_random.specs.RandomWords.{generator_after, word};
ghost use Rattle.qz_finger.specs.Tables.{weights_after};

use crate::modulo::reduce;
use qz_random::next_word;
use rand_pcg::Pcg64;

// The next words modulo p, as many as the size says, and then zeros.
pub(crate) fn weights(rng: &mut Pcg64, size: usize) -> [u64; 64]
    requires { size ≤ 64 }
    ensures value { (seed k : ℕ) → rng.old ≡ generator_after seed k → result ≡ weights_after seed k size }
    ensures after { (seed k : ℕ) → rng.old ≡ generator_after seed k → rng.new ≡ generator_after seed (k + size) }
{
    let mut weights = [0; 64];
    for i in 0..size {
        weights[i] = reduce(next_word(rng) as u128);
    }
    weights
}

// The powers of 7 that the parameters stand for: the next three words modulo 2^16.
pub(crate) fn parameters(rng: &mut Pcg64) -> [u64; 3]
    ensures { (seed k : ℕ) → rng.old ≡ generator_after seed k → result ≡ word seed k % 65536 ∷ word seed (k + 1) % 65536 ∷ word seed (k + 2) % 65536 ∷ [] }
{
    let first = next_word(rng) % 65536;
    let second = next_word(rng) % 65536;
    let third = next_word(rng) % 65536;
    [first, second, third]
}
