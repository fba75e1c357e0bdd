//! Lists of numbers that are filled place by place.
ghost use Rattle.std.specs.Prelude.{ℕ, ◌<◌, ◌≤◌, slice_index};
ghost use Rattle.qz_finger.specs.Actions.{AreBelow};
ghost use Rattle.qz_finger.specs.Modulo.{modulus};

// The numbers that a function gives for the places below a size, and zeros behind them.
pub(crate) fn filled<F: Fn(usize) -> u64>(size: usize, number: F) -> [u64; 64]
    requires size { size ≤ 64 }
    requires callable { (k : ℕ) → k < size → F.pre number k }
    requires below { (k x : ℕ) → k < size → F.post number k x → x < modulus }
    ensures numbers { (k : ℕ) → k < size → F.post number k (slice_index result k) }
    ensures below { AreBelow result }
{
    let mut numbers = [0; 64];
    for k in 0..size {
        numbers[k] = number(k);
    }
    numbers
}
