//! The order of circuits: a shorter one is earlier, and of two that are equally long the first different gate decides.
ghost use Rattle.std.specs.Prelude.{◌≡◌, length};
ghost use Rattle.std.specs.Ordering.{nat_cmp, ordering_then};
ghost use Rattle.std.specs.Cmp.Lexicographic.{slice_cmp};
ghost use Rattle.qz_circ.specs.Order.{circuit_cmp};
ghost use Rattle.qz_circ.specs.ProgramCircuits.{ones, program_cmp};

use crate::circuit::{Inst, Op};
use crate::costs::price;
use std::cmp::Ordering;

// A shorter slice is earlier, and of two that are equally long the first different element decides.
fn by_length<T: Ord>(a: &[T], c: &[T]) -> Ordering
    ensures { result ≡ ordering_then (nat_cmp (length a.now) (length c.now)) (slice_cmp T.cmp a.now c.now) }
{
    a.len().cmp(&c.len()).then_with(|| a.cmp(c))
}

/// How two circuits of rules compare.
pub fn prec(a: &[Op], c: &[Op]) -> Ordering
    ensures { result ≡ circuit_cmp a.now c.now }
{
    by_length(a, c)
}

/// How two circuits of programs compare where each gate weighs 1: by their lengths, and then by their gates.
pub fn prec_insts(a: &[Inst], c: &[Inst]) -> Ordering
    ensures { result ≡ program_cmp ones a.now c.now }
{
    by_length(a, c)
}

/// How two circuits of programs compare by the weights of H, X, CX and rotations: by their costs, then by their lengths, and then
/// by their gates.
pub fn prec_by(a: &[Inst], c: &[Inst], weights: [u8; 4]) -> Ordering
    ensures { result ≡ program_cmp weights a.now c.now }
{
    let order = price(a, weights).cmp(&price(c, weights));
    if order.is_ne() {
        return order;
    }
    prec_insts(a, c)
}
