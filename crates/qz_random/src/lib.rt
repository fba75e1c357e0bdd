//! The words of the generator Pcg64 that is made from a number.
#![tactic(auto)]

ghost use Rattle.std.specs.Prelude.{◌≡◌, ℕ, ◌+◌};
ghost use Rattle.rand_pcg.specs.Pcg.{pcg64};
ghost use Rattle.qz_random.specs.RandomWords.{generator_after, word};

use rand_core::SeedableRng;
use rand_core::utils::NextWord;
use rand_pcg::Pcg64;

/// The generator of a seed, before its first word.
#[tactic(auto, unfolding(crate::specs::RandomWords::generator_after))]
pub fn generator(seed: u64) -> Pcg64
    ensures { result ≡ generator_after seed 0 }
{
    Pcg64::seed_from_u64(seed)
}

/// The next word of a generator. Of one that is made from a seed, the words are counted from 0.
#[tactic(auto, unfolding(crate::specs::RandomWords::generator_after, crate::specs::RandomWords::word))]
pub fn next_word(generator: &mut Pcg64) -> u64
    ensures value { result ≡ (pcg64 generator.old).0 }
    ensures next { generator.new ≡ (pcg64 generator.old).1 }
    ensures word { (seed k : ℕ) → generator.old ≡ generator_after seed k → result ≡ word seed k }
    ensures moved { (seed k : ℕ) → generator.old ≡ generator_after seed k → generator.new ≡ generator_after seed (k + 1) }
{
    generator.next_word()
}
