//! Whole sums of turns, with one more turn that is still to be made, so that a rotation takes no time.
ghost use Rattle.std.specs.Prelude.{◌≡◌, ◌↔◌, ℕ, ◌+◌, ◌-◌, ◌^◌, ◌<◌, ◌≤◌, ◌-ℤ◌, ◌==◌, if◌then◌else◌, true, pos, length, unsigned_abs, IsTrue, IfOk};
ghost use Rattle.qz_circ.specs.Exponent.{turn_of};
ghost use Rattle.qz_circ.specs.Paths.{count as path_count, root2};
ghost use Rattle.qz_check.specs.Sums.{counted, counted_behind as behind, amount, AreAtMost, IsSmall, combine, IsCombined, IsNumber, one_if};

use qz_circ::Memory;
use std::alloc::Global;
use std::marker::Model;

// How often each turn below half a circle is counted, where all are turned on by one more turn, below 512.
//
// Turns are 512ths of a full circle. Half a circle further, a turn is counted as often, with the other sign.
#[derive(Drop)]
pub(crate) struct Turned {
    turn: u16,
    counts: Vec<i128>,
}

impl Model for Turned {
    ghost use Rattle.qz_check.specs.Sums.{TurnedSum, IsTurnedSum};

    ghost Value = { TurnedSum };

    ghost view = { λ a. record { turn = a.turn; counts = a.counts.items } };

    ghost invariant = { λ a. IsTurnedSum (record { turn = a.turn; counts = a.counts.items }) };
}

// How often a turn is counted.
fn count_at(counts: &[i128], turn: u16) -> i128
    requires size { length counts.now ≡ 256 }
    requires turn { turn < 512 }
    requires small { AreAtMost (2 ^ 120) counts.now }
    ensures { result ≡ counted counts.now turn }
{
    if turn < 256 {
        counts[turn as usize]
    } else {
        -counts[turn as usize - 256]
    }
}

// How often a turn is counted, where all are turned on by one more turn.
fn count_behind(counts: &[i128], by: u16, turn: u16) -> i128
    requires size { length counts.now ≡ 256 }
    requires by { by < 512 }
    requires turn { turn < 1024 }
    requires small { AreAtMost (2 ^ 120) counts.now }
    ensures { result ≡ behind counts.now by turn }
{
    count_at(counts, (turn + (512 - by)) % 512)
}

// The difference or the sum of two counts.
fn combined_counts(left: i128, right: i128, negated: bool) -> i128
    requires left { unsigned_abs left ≤ 2 ^ 120 }
    requires right { unsigned_abs right ≤ 2 ^ 120 }
    ensures { result ≡ combine negated left right }
{
    if negated { left - right } else { left + right }
}

// The difference or the sum of counts of which each is turned on.
fn combined(
    alloc: Global,
    left: &[i128],
    left_turn: u16,
    right: &[i128],
    right_turn: u16,
    negated: bool,
) -> Result<Vec<i128>, Memory>
    requires left_size { length left.now ≡ 256 }
    requires left_turn { left_turn < 512 }
    requires left_small { AreAtMost (2 ^ 120) left.now }
    requires right_size { length right.now ≡ 256 }
    requires right_turn { right_turn < 512 }
    requires right_small { AreAtMost (2 ^ 120) right.now }
    ensures { IfOk result (λ v. IsCombined negated left.now left_turn right.now right_turn v.items) }
{
    let Ok(mut counts) = Vec::with_capacity(alloc, 256) else {
        return Err(Memory);
    };
    for turn in 0..256 {
        let first = count_behind(left, left_turn, turn);
        let second = count_behind(right, right_turn, turn);
        counts.push_reserved(combined_counts(first, second, negated));
    }
    Ok(counts)
}

// The count of a turn in the number 1 or 0.
fn count_in_number(is_one: bool, turn: u16) -> i128
    ensures { result ≡ (if turn == 0 then (if is_one then pos 1 else pos 0) else pos 0) }
{
    if is_one && turn == 0 { 1 } else { 0 }
}

// The counts of the number 1 or 0.
fn number(alloc: Global, is_one: bool) -> Result<Vec<i128>, Memory>
    ensures { IfOk result (λ v. IsNumber (if is_one then pos 1 else pos 0) v.items) }
{
    let Ok(mut counts) = Vec::with_capacity(alloc, 256) else {
        return Err(Memory);
    };
    for turn in 0..256 {
        counts.push_reserved(count_in_number(is_one, turn));
    }
    Ok(counts)
}

impl Turned {
    // Nothing.
    pub(crate) fn zero(alloc: Global) -> Result<Turned, Memory>
        ensures counts { IfOk result (λ x. (n : ℕ) → amount x n ≡ pos 0) }
        ensures small { IfOk result (IsSmall 0) }
    {
        let counts = number(alloc, false)?;
        Ok(Turned { turn: 0, counts })
    }

    // The number 1.
    fn one(alloc: Global) -> Result<Turned, Memory>
        ensures counts { IfOk result (λ x. (n : ℕ) → amount x n ≡ path_count (one_if true) (turn_of n)) }
        ensures small { IfOk result (IsSmall 0) }
    {
        let counts = number(alloc, true)?;
        Ok(Turned { turn: 0, counts })
    }

    // Times √2, which is an eighth of a circle less three eighths of a circle.
    fn times_root2(&self) -> Result<Turned, Memory>
        requires { IsSmall 119 self.now }
        ensures counts { IfOk result (λ x. (n : ℕ) → amount x n ≡ amount self.now (n + (512 - 64)) -ℤ amount self.now (n + (512 - 192))) }
        ensures small { IfOk result (λ x. (h : ℕ) → IsSmall h self.now → IsSmall (h + 1) x) }
    {
        let alloc = *self.counts.allocator();
        let turn = self.turn;
        let counts = combined(
            alloc,
            &self.counts,
            (turn + 64) % 512,
            &self.counts,
            (turn + 192) % 512,
            true,
        )?;
        Ok(Turned { turn: 0, counts })
    }

    // A power of √2.
    pub(crate) fn power_of_root2(alloc: Global, roots: u64) -> Result<Turned, Memory>
        requires { roots ≤ 120 }
        ensures counts { IfOk result (λ x. (n : ℕ) → amount x n ≡ path_count (root2 roots (one_if true)) (turn_of n)) }
        ensures small { IfOk result (IsSmall roots) }
    {
        let mut power = Turned::one(alloc)?;
        for _ in 0..roots {
            let product = power.times_root2()?;
            power = product;
        }
        Ok(power)
    }

    // Turns on.
    #[tactic(auto, unfolding(crate::specs::Sums::amount, crate::specs::Sums::IsSmall), using(crate::proofs::SumLemmas::rotated))]
    pub(crate) fn rotate(&mut self, by: u16)
        requires { by < 512 }
        ensures counts { (n : ℕ) → amount self.new n ≡ amount self.old (n + (512 - by)) }
        ensures small { (h : ℕ) → IsSmall h self.old → IsSmall h self.new }
    {
        self.turn = (self.turn + by) % 512;
    }

    // The difference of two, or their sum.
    pub(crate) fn combined(&self, other: &Turned, negated: bool) -> Result<Turned, Memory>
        requires first { IsSmall 119 self.now }
        requires second { IsSmall 119 other.now }
        ensures counts { IfOk result (λ x. (n : ℕ) → amount x n ≡ combine negated (amount self.now n) (amount other.now n)) }
        ensures small { IfOk result (λ x. (h : ℕ) → IsSmall h self.now → IsSmall h other.now → IsSmall (h + 1) x) }
    {
        let alloc = *self.counts.allocator();
        let counts = combined(
            alloc,
            &self.counts,
            self.turn,
            &other.counts,
            other.turn,
            negated,
        )?;
        Ok(Turned { turn: 0, counts })
    }

    // How often a turn is counted.
    #[tactic(auto, unfolding(crate::specs::Sums::amount, crate::specs::Sums::IsSmall))]
    fn count(&self, turn: u16) -> i128
        requires { turn < 1024 }
        ensures { result ≡ amount self.now turn }
    {
        count_behind(&self.counts, self.turn, turn)
    }

    // Whether this is the other one, turned on.
    pub(crate) fn is_turned(&self, other: &Turned, by: u16) -> bool
        requires { by < 512 }
        ensures { IsTrue result ↔ ((n : ℕ) → amount self.now n ≡ amount other.now (n + (512 - by))) }
    {
        for turn in 0..256 {
            if self.count(turn) != other.count(turn + (512 - by)) {
                return false;
            }
        }
        true
    }
}
