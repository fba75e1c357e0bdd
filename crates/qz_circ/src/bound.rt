//! The bounds of a generation: how many gates, qubits and parameters its circuits may have, and which constants.
ghost use Rattle.std.specs.Prelude.{◌≡◌, ℕ, ◌<◌, ◌≤◌, ◌+◌, ◌*◌, ◌↔◌, true, IsOk, IfOk, Some, length};
ghost use Rattle.qz_circ.specs.Circuit.{angles};
ghost use Rattle.qz_circ.specs.Bounds.{is_grain, refusal, gate_count, IsLawful};
ghost use Rattle.qz_circ.specs.Order.{all_circuits};

use crate::fault::LimitFault;
use std::marker::Model;

/// At most n gates on q qubits with m parameters, and with the multiples of π/grain as constants: q is 1, 2 or 3, n is at most 6 and
/// m at most 3, the grain is 4, 8 or 16, and there are at most 8,000,000 circuits of n gates.
#[derive(Clone, Copy, Debug, PartialEq, Eq)]
pub struct Bounds {
    n: u64,
    q: u64,
    m: u64,
    grain: u64,
}

impl Model for Bounds {
    ghost use Rattle.qz_circ.specs.Circuit.{Limits};
    ghost use Rattle.qz_circ.specs.Bounds.{IsLawful};

    ghost Value = { Limits };

    ghost view = { λ b. record { n = b.n; q = b.q; m = b.m; grain = b.grain } };

    ghost invariant = { λ b. IsLawful (record { n = b.n; q = b.q; m = b.m; grain = b.grain }) };

    ghost inverse = { λ b. record { n = b.n; q = b.q; m = b.m; grain = b.grain } };
}

// The constants may be multiples of π/grain.
fn is_grain(grain: u64) -> bool
    ensures { result ≡ is_grain grain }
{
    grain == 4 || grain == 8 || grain == 16
}

// How many angles there are with m parameters.
pub(crate) fn count_angles(m: u64, grain: u64) -> u64
    requires params { m ≤ 3 }
    requires grain { is_grain grain ≡ true }
    ensures count { result ≡ length (angles m grain) }
    ensures some { 7 ≤ result }
    ensures few { result ≤ 40 }
{
    2 * grain - 1 + 2 * m + m * m.saturating_sub(1) / 2
}

// How many gates there are on q qubits with m parameters.
fn count_gates(q: u64, m: u64, grain: u64) -> u64
    requires qubits { q ≤ 3 }
    requires params { m ≤ 3 }
    requires grain { is_grain grain ≡ true }
    ensures count { (n : ℕ) → result ≡ gate_count (record { n = n; q = q; m = m; grain = grain }) }
    ensures few { result ≤ 132 }
{
    q * (1 + q + count_angles(m, grain))
}

// The first of these numbers that is refused, if any.
#[tactic(auto, using(std::proofs::lemmas::Bool::Decides::nat_tests), unfolding(crate::specs::Bounds::refusal, crate::specs::Bounds::refusal_where))]
fn refused(n: u64, q: u64, m: u64, grain: u64) -> Option<LimitFault>
    ensures { result ≡ refusal (record { n = n; q = q; m = m; grain = grain }) }
{
    if q < 1 || q > 3 {
        return Some(LimitFault::Qubits);
    }
    if n > 6 {
        return Some(LimitFault::Gates);
    }
    if m > 3 {
        return Some(LimitFault::Params);
    }
    if !is_grain(grain) {
        return Some(LimitFault::Grain);
    }
    if count_gates(q, m, grain).pow(n as u32) > 8_000_000 {
        return Some(LimitFault::Circuits);
    }
    None
}

impl Bounds {
    /// The bounds with these numbers and the multiples of π/4 as constants, or the first of the numbers that is refused.
    pub fn new(n: u64, q: u64, m: u64) -> Result<Bounds, LimitFault>
        ensures accepted { IfOk result (λ b. b ≡ record { n = n; q = q; m = m; grain = 4 }) }
        ensures lawful { IsOk result ↔ IsLawful (record { n = n; q = q; m = m; grain = 4 }) }
        ensures refused { (fault : LimitFault) → (result ≡ Err fault) ↔ (refusal (record { n = n; q = q; m = m; grain = 4 }) ≡ Some fault) }
    {
        Bounds::with_grain(n, q, m, 4)
    }

    /// The bounds with these numbers, or the first of them that is refused. The constants are the multiples of π/grain.
    pub fn with_grain(n: u64, q: u64, m: u64, grain: u64) -> Result<Bounds, LimitFault>
        ensures accepted { IfOk result (λ b. b ≡ record { n = n; q = q; m = m; grain = grain }) }
        ensures lawful { IsOk result ↔ IsLawful (record { n = n; q = q; m = m; grain = grain }) }
        ensures refused { (fault : LimitFault) → (result ≡ Err fault) ↔ (refusal (record { n = n; q = q; m = m; grain = grain }) ≡ Some fault) }
    {
        match refused(n, q, m, grain) {
            Some(fault) => Err(fault),
            None => Ok(Bounds { n, q, m, grain }),
        }
    }

    /// The greatest number of gates of a circuit, from 0 to 6.
    pub fn n(&self) -> u64
        ensures value { result ≡ self.now.n }
        ensures lawful { IsLawful self.now }
    {
        self.n
    }

    /// The number of qubits, from 1 to 3.
    pub fn q(&self) -> u64
        ensures value { result ≡ self.now.q }
        ensures lawful { IsLawful self.now }
    {
        self.q
    }

    /// The number of parameters, from 0 to 3.
    pub fn m(&self) -> u64
        ensures value { result ≡ self.now.m }
        ensures lawful { IsLawful self.now }
    {
        self.m
    }

    /// The grain, 4, 8 or 16: constants are the multiples of π/grain.
    pub fn grain(&self) -> u64
        ensures value { result ≡ self.now.grain }
        ensures allowed { is_grain result ≡ true }
        ensures lawful { IsLawful self.now }
    {
        self.grain
    }

    /// The number of gates within the bounds, from 9 to 132.
    pub fn gates(&self) -> u64
        ensures value { result ≡ gate_count self.now }
        ensures few { result ≤ 132 }
        ensures lawful { IsLawful self.now }
    {
        count_gates(self.q, self.m, self.grain)
    }

    /// The number of circuits within the bounds, fewer than 9,000,000.
    pub fn circuits(&self) -> u64
        ensures value { result ≡ length (all_circuits self.now) }
        ensures few { result < 9000000 }
        ensures lawful { IsLawful self.now }
    {
        let gates = self.gates();
        let mut longest = 1;
        let mut all = 1;
        for _ in 0..self.n {
            longest *= gates;
            all += longest;
        }
        all
    }
}
