//! What circuits of programs cost: the sum of what their gates weigh, by four weights, of H, X, CX and rotations in this order.
ghost use Rattle.std.specs.Prelude.{◌≡◌, ◌≤◌, IsTrue, length};
ghost use Rattle.qz_circ.specs.ProgramCircuits.{AreWeights, ones, weight, cost};

use crate::circuit::Inst;

/// What a gate weighs.
pub fn weight(weights: [u8; 4], g: Inst) -> u8
    ensures { result ≡ weight weights g }
{
    match g {
        Inst::H(_) => weights[0],
        Inst::X(_) => weights[1],
        Inst::Cx(_, _) => weights[2],
        Inst::Rz(_, _) => weights[3],
    }
}

/// Whether each gate weighs 1, so that a circuit costs as much as it has gates.
pub fn are_ones(weights: [u8; 4]) -> bool
    ensures { IsTrue result → weights ≡ ones }
{
    weights[0] == 1 && weights[1] == 1 && weights[2] == 1 && weights[3] == 1
}

/// What a circuit of any length costs.
pub fn price(c: &[Inst], weights: [u8; 4]) -> u128
    ensures { result ≡ cost weights c.now }
{
    if are_ones(weights) {
        return c.len() as u128;
    }
    let mut sum = 0;
    let mut k = 0;
    while k < c.len() {
        sum += weight(weights, c[k]) as u128;
        k += 1;
    }
    sum
}

/// What a circuit of at most 30,000 gates costs, where each weight is from 1 to 100.
pub fn cost(c: &[Inst], weights: [u8; 4]) -> u64
    requires few { length c.now ≤ 30000 }
    requires weights { AreWeights weights }
    ensures { result ≡ cost weights c.now }
{
    price(c, weights) as u64
}
