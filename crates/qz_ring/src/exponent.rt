//! The exponents of monomials, and their order.

ghost use Rattle.std.specs.Prelude.{◌≡◌, ◌^◌, ◌≤◌};
ghost use Rattle.std.specs.Ordering.{MatchOrdering};
ghost use Rattle.qz_ring.specs.Exponent.{ExponentBefore, plus, reach_of};
ghost use Rattle.qz_ring.specs.Shifting.{below_half_turn};

use std::cmp::Ordering;
use std::marker::Model;

/// The exponent of a monomial: a turn in 512ths of a full circle, always below 512, and the powers
/// of the three unknowns, from the first to the last.
#[derive(Clone, Copy, Debug, PartialEq, Eq)]
pub struct Exponent {
    pub turn: u16,
    pub powers: [i64; 3],
}

impl Model for Exponent {
    ghost use Rattle.std.specs.Prelude.{◌≡◌, ◌<◌, ℤ, List, [], ◌∷◌, pos, length, slice_index_or};
    ghost use Rattle.std.proofs.Common.{ap};
    ghost use Rattle.qz_ring.specs.Exponent.{Exponent as Monomial};
    ghost use Rattle.qz_ring.specs.Places.{three_places};

    ghost Value = { Monomial };

    ghost view = { λ a. record { turn = a.turn; x0 = slice_index_or a.powers 0 (pos 0); x1 = slice_index_or a.powers 1 (pos 0); x2 = slice_index_or a.powers 2 (pos 0) } };

    ghost invariant = { λ a. (a.turn < 512) × (length a.powers ≡ 3) };

    ghost inverse = { λ e. record { turn = e.turn; powers = e.x0 ∷ (e.x1 ∷ (e.x2 ∷ [])) } };

    ghost inverse_ok = { λ a h. ap (λ (places : List ℤ). record a { powers = places }) (three_places a.powers h.1) };
}

// The order by turn, and at the same turn by the powers from first to last.
pub(crate) fn compare(a: Exponent, b: Exponent) -> Ordering
    ensures { MatchOrdering result (ExponentBefore a b) (a ≡ b) (ExponentBefore b a) }
{
    if a.turn < b.turn {
        return Ordering::Less;
    }
    if b.turn < a.turn {
        return Ordering::Greater;
    }
    compare_powers(a, b)
}

// The order by the powers from first to last, of two exponents with the same turn.
fn compare_powers(a: Exponent, b: Exponent) -> Ordering
    requires { a.turn ≡ b.turn }
    ensures { MatchOrdering result (ExponentBefore a b) (a ≡ b) (ExponentBefore b a) }
{
    let (p, q) = (a.powers, b.powers);
    if p[0] != q[0] {
        p[0].cmp(&q[0])
    } else if p[1] != q[1] {
        p[1].cmp(&q[1])
    } else {
        p[2].cmp(&q[2])
    }
}

// The exponent of the product of two monomials.
pub(crate) fn product_of(a: Exponent, b: Exponent) -> Exponent
    requires factor { reach_of a ≤ 2 ^ 40 }
    requires product { reach_of (plus a b) ≤ 2 ^ 40 }
    ensures { result ≡ plus a b }
{
    let (p, q) = (a.powers, b.powers);
    Exponent {
        turn: (a.turn + b.turn) % 512,
        powers: [p[0] + q[0], p[1] + q[1], p[2] + q[2]],
    }
}

// The exponent with its turn brought below half a circle.
pub(crate) fn below_half(e: Exponent) -> Exponent
    ensures { result ≡ below_half_turn e }
{
    let powers = e.powers;
    Exponent {
        turn: e.turn % 256,
        powers,
    }
}
