//! Computes with values of angles.
ghost use Rattle.std.specs.Prelude.{◌≡◌, ◌+◌, ◌<◌, ◌≤◌, ◌^◌, ◌+ℤ◌, neg_ℤ, IfOk, not, ◌&&◌, ◌*ℤ◌, pos};
ghost use Rattle.qz_circ.specs.Angle as spec;
ghost use Rattle.qz_circ.specs.Angle.{negative_if, greatest_divisor, whole_value, pi_value};
ghost use Rattle.qz_lex.specs.Values.{view, meaning_of};

use crate::fraction::Fraction;
use qz_circ::AngleFault;

// The greatest denominator, and the greatest numerator that an operator may give.
const LARGEST: u64 = 1_000_000_000_000_000_000;

/// A plain whole number.
pub(crate) fn whole(n: u64) -> Fraction
    ensures { view result ≡ whole_value n }
{
    Fraction {
        is_negative: false,
        size: n,
        denominator: 1,
        is_angle: false,
    }
}

/// Pi.
pub(crate) fn pi() -> Fraction
    ensures { view result ≡ pi_value }
{
    Fraction {
        is_negative: false,
        size: 1,
        denominator: 1,
        is_angle: true,
    }
}

// The greatest number that divides both.
fn gcd(a: u128, b: u128) -> u128
    requires { 0 < b }
    ensures value { result ≡ greatest_divisor a b }
    ensures positive { 0 < result }
    ensures below { result ≤ b }
{
    let mut x = a;
    let mut y = b;
    while y != 0 {
        let rest = x % y;
        x = y;
        y = rest;
    }
    x
}

// The fraction in lowest terms, unless it is too large.
#[tactic(auto, using(std::proofs::lemmas::Bool::Decides::nat_tests), unfolding(qz_circ::specs::Angle::in_range, qz_circ::specs::Angle::largest))]
fn in_range(
    place: u64,
    is_negative: bool,
    size: u128,
    denominator: u128,
    is_angle: bool,
) -> Result<Fraction, AngleFault>
    requires { 0 < denominator }
    ensures { meaning_of result ≡ spec.in_range place (negative_if is_negative size) denominator is_angle }
{
    let divisor = gcd(size, denominator);
    let reduced = size / divisor;
    let below = denominator / divisor;
    if reduced > u128::from(LARGEST) || below > u128::from(LARGEST) {
        return Err(AngleFault::Range { place });
    }
    Ok(Fraction {
        is_negative,
        size: reduced as u64,
        denominator: below as u64,
        is_angle: is_angle && size != 0,
    })
}

// The sum of two numbers with signs.
fn added(is_negative: bool, x: u128, other_is_negative: bool, y: u128) -> (bool, u128)
    requires { x + y < 2 ^ 128 }
    ensures { negative_if result.0 result.1 ≡ negative_if is_negative x +ℤ negative_if other_is_negative y }
{
    if is_negative == other_is_negative {
        (is_negative, x + y)
    } else if x < y {
        (other_is_negative, y - x)
    } else {
        (is_negative, x - y)
    }
}

fn is_zero(a: Fraction) -> bool
    ensures { result ≡ spec.is_zero (view a) }
{
    a.size == 0
}

fn negative(a: Fraction) -> Fraction
    ensures { view result ≡ spec.negative (view a) }
{
    Fraction {
        is_negative: !a.is_negative,
        size: a.size,
        denominator: a.denominator,
        is_angle: a.is_angle,
    }
}

// The numerator of the sum over the product of the denominators.
fn numerator_of_sum(a: Fraction, b: Fraction) -> (bool, u128)
    ensures { negative_if result.0 result.1 ≡ ((view a).numerator *ℤ pos b.denominator) +ℤ ((view b).numerator *ℤ pos a.denominator) }
{
    let x = u128::from(a.size) * u128::from(b.denominator);
    let y = u128::from(b.size) * u128::from(a.denominator);
    added(a.is_negative, x, b.is_negative, y)
}

// Neither is 0, and one of them is a multiple of pi.
fn cannot_add(a: Fraction, b: Fraction) -> bool
    ensures { result ≡ (not (spec.is_zero (view a)) && not (spec.is_zero (view b)) && spec.is_one_only a.is_angle b.is_angle) }
{
    !is_zero(a) && !is_zero(b) && a.is_angle != b.is_angle
}

// Neither is 0, and both are multiples of pi.
fn cannot_multiply(a: Fraction, b: Fraction) -> bool
    ensures { result ≡ (not (spec.is_zero (view a)) && not (spec.is_zero (view b)) && a.is_angle && b.is_angle) }
{
    !is_zero(a) && !is_zero(b) && a.is_angle && b.is_angle
}

/// The negative of a value, by a sign at this place.
pub(crate) fn negated(place: u64, a: Fraction) -> Result<Fraction, AngleFault>
    ensures { meaning_of result ≡ spec.in_range place (neg_ℤ (view a).numerator) (view a).denominator (view a).is_angle }
{
    in_range(
        place,
        !a.is_negative,
        u128::from(a.size),
        u128::from(a.denominator),
        a.is_angle,
    )
}

/// The sum of two values, by an operator at this place.
#[tactic(auto, using(std::proofs::lemmas::Bool::Decides::nat_tests), unfolding(qz_circ::specs::Angle::sum_of))]
pub(crate) fn sum(place: u64, a: Fraction, b: Fraction) -> Result<Fraction, AngleFault>
    ensures { meaning_of result ≡ spec.sum_of place (view a) (view b) }
{
    if cannot_add(a, b) {
        return Err(AngleFault::Kind { place });
    }
    let (is_negative, size) = numerator_of_sum(a, b);
    let denominator = u128::from(a.denominator) * u128::from(b.denominator);
    in_range(
        place,
        is_negative,
        size,
        denominator,
        a.is_angle || b.is_angle,
    )
}

/// The difference of two values, by an operator at this place.
pub(crate) fn difference(place: u64, a: Fraction, b: Fraction) -> Result<Fraction, AngleFault>
    ensures { meaning_of result ≡ spec.sum_of place (view a) (spec.negative (view b)) }
{
    sum(place, a, negative(b))
}

/// The product of two values, by an operator at this place.
#[tactic(auto, using(std::proofs::lemmas::Bool::Decides::nat_tests), unfolding(qz_circ::specs::Angle::product_of))]
pub(crate) fn product(place: u64, a: Fraction, b: Fraction) -> Result<Fraction, AngleFault>
    ensures { meaning_of result ≡ spec.product_of place (view a) (view b) }
{
    if cannot_multiply(a, b) {
        return Err(AngleFault::Kind { place });
    }
    let size = u128::from(a.size) * u128::from(b.size);
    let denominator = u128::from(a.denominator) * u128::from(b.denominator);
    in_range(
        place,
        a.is_negative != b.is_negative,
        size,
        denominator,
        a.is_angle || b.is_angle,
    )
}

/// The quotient of two values, by an operator at this place.
#[tactic(auto, using(std::proofs::lemmas::Bool::Decides::nat_tests), unfolding(qz_circ::specs::Angle::quotient_of))]
pub(crate) fn quotient(place: u64, a: Fraction, b: Fraction) -> Result<Fraction, AngleFault>
    ensures { meaning_of result ≡ spec.quotient_of place (view a) (view b) }
{
    if is_zero(b) {
        return Err(AngleFault::ZeroDivisor { place });
    }
    if !is_zero(a) && !a.is_angle && b.is_angle {
        return Err(AngleFault::Kind { place });
    }
    let size = u128::from(a.size) * u128::from(b.denominator);
    let denominator = u128::from(a.denominator) * u128::from(b.size);
    in_range(
        place,
        a.is_negative != b.is_negative,
        size,
        denominator,
        a.is_angle && !b.is_angle,
    )
}

/// How many 256ths of pi a value is, modulo 512.
#[tactic(auto, using(std::proofs::lemmas::Bool::Decides::nat_tests), unfolding(qz_circ::specs::Angle::turns_of))]
pub(crate) fn turns(place: u64, a: Fraction) -> Result<u16, AngleFault>
    ensures value { result ≡ spec.turns_of place (view a) }
    ensures below { IfOk result (λ k. k < 512) }
{
    if !is_zero(a) && !a.is_angle {
        return Err(AngleFault::Kind { place });
    }
    let size = 256 * u128::from(a.size);
    let denominator = u128::from(a.denominator);
    if size % denominator != 0 {
        return Err(AngleFault::NotMultiple { place });
    }
    let turns = (size / denominator % 512) as u16;
    if a.is_negative && turns != 0 {
        Ok(512 - turns)
    } else {
        Ok(turns)
    }
}
