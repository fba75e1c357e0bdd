//! The exponents of angles.
ghost use Rattle.std.specs.Prelude.{◌≡◌, ◌≤◌, pos, ◌+ℤ◌, ◌≤ℤ◌};
ghost use Rattle.qz_circ.specs.Circuit.{AngleHasBelow};
ghost use Rattle.qz_circ.specs.Exponent.{angle_exponent, unit_at};
ghost use Rattle.qz_ring.specs.Exponent.{reach_of};
ghost use Rattle.qz_matrix.specs.AfterGate.{monomial_of};

use qz_circ::{Expr, constant_turn};
use qz_ring::Exponent;

// The power of parameter k in parameter i: 1 where they are the same, and else 0.
fn power_at(i: u8, k: u8) -> i64
    ensures value { result ≡ unit_at i k }
    ensures least { pos 0 ≤ℤ result }
    ensures most { result ≤ℤ pos 1 }
{
    if i == k { 1 } else { 0 }
}

// The power of parameter k in the sum of parameters i and j.
fn power_in_sum(i: u8, j: u8, k: u8) -> i64
    ensures { result ≡ unit_at i k +ℤ unit_at j k }
{
    power_at(i, k) + power_at(j, k)
}

// The exponent of an angle.
pub(crate) fn exponent_of_angle(angle: Expr) -> Exponent
    requires { AngleHasBelow 3 angle }
    ensures value { result ≡ monomial_of (angle_exponent angle) }
    ensures reach { reach_of result ≤ 1 }
{
    match angle {
        Expr::Const(t) => Exponent {
            turn: constant_turn(t),
            powers: [0; 3],
        },
        Expr::Plus(i) => Exponent {
            turn: 0,
            powers: [power_at(i, 0), power_at(i, 1), power_at(i, 2)],
        },
        Expr::Minus(i) => Exponent {
            turn: 0,
            powers: [-power_at(i, 0), -power_at(i, 1), -power_at(i, 2)],
        },
        Expr::Sum(i, j) => Exponent {
            turn: 0,
            powers: [
                power_in_sum(i, j, 0),
                power_in_sum(i, j, 1),
                power_in_sum(i, j, 2),
            ],
        },
    }
}
