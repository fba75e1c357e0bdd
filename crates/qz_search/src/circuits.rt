//! Circuits of rules with numbers: a circuit that is met again has the number that it got first.
ghost use Rattle.std.specs.Prelude.{◌≡◌, ◌≤◌, [], length, IsTrue, IfOk, IfSome};
ghost use Rattle.std.specs.List.{slice_get};
ghost use Rattle.qz_circ.specs.Replacement.{numbered};
ghost use Rattle.qz_circ.specs.Vectors.{lists_of};
ghost use Rattle.qz_search.specs.Circuits.{HasNumber};

use qz_circ::{Memory, Op, prec};
use std::alloc::Global;
use std::marker::Model;

// Circuits by their numbers, and the numbers in the order of the circuits.
#[derive(Drop)]
pub(crate) struct Circuits {
    list: Vec<Vec<Op>>,
    order: Vec<usize>,
}

impl Model for Circuits {
    ghost use Rattle.std.specs.Prelude.{List};
    ghost use Rattle.qz_circ.specs.Circuit.{Circuit};
    ghost use Rattle.qz_circ.specs.Vectors.{lists_of};

    ghost Value = { List Circuit };

    ghost view = { λ p. lists_of p.list.items };
}

// The circuits are the same.
#[tactic(auto, using(crate::proofs::SameCircuits::circuit_cmp_exact))]
pub(crate) fn are_same(a: &[Op], c: &[Op]) -> bool
    ensures { IsTrue result → a.now ≡ c.now }
{
    prec(a, c).is_eq()
}

// The circuit with this number; one without gates where there is none.
fn circuit_at(list: &[Vec<Op>], k: usize) -> &[Op]
    ensures { result.now ≡ numbered (lists_of list.now) k }
{
    match list.get(k) {
        Some(c) => c,
        None => &[],
    }
}

// How many numbers stand before that of a circuit, or would.
fn position(list: &[Vec<Op>], order: &[usize], c: &[Op]) -> usize
    ensures { result ≤ length order.now }
{
    match order.binary_search_by(|k| prec(circuit_at(list, *k), c)) {
        Ok(at) => at,
        Err(at) => at,
    }
}

// The number at this position, where it is that of a circuit.
fn number_at(list: &[Vec<Op>], order: &[usize], at: usize, c: &[Op]) -> Option<usize>
    ensures { IfSome result (λ k. slice_get (lists_of list.now) k ≡ Some c.now) }
{
    let k = *order.get(at)?;
    let known = list.get(k)?;
    if are_same(known, c) { Some(k) } else { None }
}

impl Circuits {
    // No circuits.
    pub(crate) fn new(alloc: Global) -> Circuits
        ensures { result ≡ [] }
    {
        Circuits {
            list: Vec::new(alloc),
            order: Vec::new(alloc),
        }
    }

    // The number of a circuit, which gets one where it has none.
    pub(crate) fn number(&mut self, c: Vec<Op>) -> Result<usize, Memory>
        ensures { IfOk result (λ k. HasNumber self.old self.new k c.items) }
    {
        let at = position(&self.list, &self.order, &c);
        if let Some(k) = number_at(&self.list, &self.order, at, &c) {
            return Ok(k);
        }
        let k = self.list.len();
        if self.list.push(c).is_err() {
            return Err(Memory);
        }
        if self.order.insert(at, k).is_err() {
            return Err(Memory);
        }
        Ok(k)
    }

    // The circuit with this number.
    pub(crate) fn at(&self, k: usize) -> &[Op]
        ensures { result.now ≡ numbered self.now k }
    {
        circuit_at(&self.list, k)
    }
}
