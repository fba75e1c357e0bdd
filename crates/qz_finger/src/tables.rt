//! Tables of a probe.
ghost use Rattle.std.specs.Prelude.{◌≡◌, ◌^◌, ◌%◌, slice_index};
ghost use Rattle.qz_circ.specs.Circuit.{AngleHasBelow};
ghost use Rattle.qz_circ.specs.Exponent.{angle_exponent};
ghost use Rattle.qz_finger.specs.Modulo.{modulus};
ghost use Rattle.qz_finger.specs.Fingerprint.{Bases, value};
ghost use Rattle.qz_finger.specs.Tables.{powers_of, three_of, tables_of};

use crate::modulo::{multiply, multiply_where};
use qz_circ::Expr;

/// The weights of one kind of values, and what angles are worth by it: the powers of the root, and the parameters with the
/// positive and the negative sign.
#[derive(Clone, Copy)]
pub(crate) struct Tables {
    pub(crate) weights: [u64; 64],
    pub(crate) constants: [u64; 32],
    pub(crate) up: [u64; 3],
    pub(crate) down: [u64; 3],
}

// The first 32 powers.
pub(crate) fn powers(base: u64) -> [u64; 32]
    ensures { result ≡ powers_of base }
{
    let mut powers = [0; 32];
    let mut power = 1;
    for k in 0..32 {
        powers[k] = power;
        power = multiply(power, base);
    }
    powers
}

// The power, by squares.
fn raised(base: u64, exponent: u64) -> u64
    ensures { result ≡ base ^ exponent % modulus }
{
    let mut power = 1;
    let mut square = base;
    let mut rest = exponent;
    while rest > 0 {
        power = multiply_where(rest % 2 == 1, power, square);
        square = multiply(square, square);
        rest /= 2;
    }
    power
}

// A number to three powers.
pub(crate) fn raised_to(base: u64, powers: &[u64; 3]) -> [u64; 3]
    ensures { result ≡ three_of (base ^ slice_index powers.now 0) (base ^ slice_index powers.now 1) (base ^ slice_index powers.now 2) }
{
    [
        raised(base, powers[0]),
        raised(base, powers[1]),
        raised(base, powers[2]),
    ]
}

// What an angle is worth.
pub(crate) fn value_of_angle(tables: &Tables, angle: Expr) -> u64
    requires { AngleHasBelow 3 angle }
    ensures { (b : Bases) → tables.now ≡ tables_of tables.now.weights b → result ≡ value b (angle_exponent angle) % modulus }
{
    match angle {
        Expr::Const(t) => tables.constants[(t % 32) as usize],
        Expr::Plus(i) => tables.up[i as usize],
        Expr::Minus(i) => tables.down[i as usize],
        Expr::Sum(i, j) => multiply(tables.up[i as usize], tables.up[j as usize]),
    }
}
