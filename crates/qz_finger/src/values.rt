//! Weighed values of the rows of circuits, modulo p.
ghost use Rattle.std.specs.Prelude.{◌≡◌, ◌*◌, ◌%◌, ◌<◌, if◌then◌else◌};
ghost use Rattle.qz_circ.specs.Paths.{is_h};
ghost use Rattle.qz_finger.specs.Modulo.{modulus, half};

use crate::modulo::multiply;
use qz_circ::Op;
use std::marker::Model;

// The inverse of 2 modulo p.
const HALF: u64 = 9223372034707292161;

/// For each two rows of a circuit's matrix, the weights of a probe in the one times the values of the entries in the other, added up
/// modulo p; and so with its other weights and the inverse values. So the fingerprint is made of the places of each row and itself,
/// and a gate more acts on the second row alone, without any weight.
#[derive(Drop)]
pub struct Values {
    pub(crate) values: [u64; 64],
    pub(crate) inverses: [u64; 64],
    pub(crate) scale: u64,
}

impl Model for Values {
    ghost use Rattle.qz_finger.specs.Stands.{ValueLists, AreValueLists};

    ghost Value = { ValueLists };

    ghost view = { λ s. record { values = s.values; inverses = s.inverses; scale = s.scale } };

    ghost invariant = { λ s. AreValueLists (record { values = s.values; inverses = s.inverses; scale = s.scale }) };
}

// A scale, halved where the gate is H.
pub(crate) fn halved(scale: u64, op: Op) -> u64
    requires { scale < modulus }
    ensures { result ≡ (if is_h op then scale * half else scale) % modulus }
{
    match op {
        Op::H(_) => multiply(scale, HALF),
        _ => scale,
    }
}
