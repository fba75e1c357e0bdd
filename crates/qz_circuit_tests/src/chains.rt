//! Chains of equivalent circuits, and pruned class lists.

use qz_circ::{Bounds, Expr, Memory, Op, rank};
use qz_derive::{Chain, derive};
use qz_prune::prune;
use qz_repgen::generate_one;
use std::alloc::Global;
use std::process::Abort;
use std::test::Fail;

// The ranks of the chain of two circuits within the bounds, or nothing where they aren't equivalent.
fn chain_of(alloc: Global, b: Bounds, a: &[Op], c: &[Op]) -> Result<Option<Vec<u64>>, Memory> {
    let Some(first) = rank(a, b) else {
        return Ok(None);
    };
    let Some(second) = rank(c, b) else {
        return Ok(None);
    };
    let (classes, _) = generate_one(alloc, b, 0)?;
    let Chain::Joined(ranks) = derive(alloc, &classes, first, second)? else {
        return Ok(None);
    };
    match Vec::from_slice(alloc, ranks.items()) {
        Ok(ranks) => Ok(Some(ranks)),
        Err(_) => Err(Memory),
    }
}

// How many pairs are left of the class list.
fn pairs_left(alloc: Global, b: Bounds) -> Result<u64, Memory> {
    let (classes, _) = generate_one(alloc, b, 0)?;
    let left = prune(alloc, &classes)?;
    Ok(left.len())
}

// Two flips around a rotation turn it back: the flips meet, and go.
#[test]
fn flips_around_a_rotation_are_taken_out(rt: HostRuntime) -> Result<(), Fail> {
    let b = Bounds::new(3, 1, 0)?;
    let (flip, turn, back) = (
        Op::X(0),
        Op::Rz(0, Expr::Const(4)),
        Op::Rz(0, Expr::Const(28)),
    );
    let chain = chain_of(rt.alloc(), b, &[flip, turn, flip], &[back])?.unwrap_or(Vec::new(
        rt.alloc(),
    ));
    assert!(rt; chain.len() == 3, "three circuits");
    assert!(rt;
        Some(chain[0]) == rank(&[flip, turn, flip], b),
        "the first circuit"
    );
    assert!(rt;
        Some(chain[1]) == rank(&[flip, flip, back], b),
        "the flips meet"
    );
    assert!(rt; Some(chain[2]) == rank(&[back], b), "the second circuit");
    Ok(())
}

#[test]
fn a_flip_and_a_hadamard_gate_are_different(rt: HostRuntime) -> Result<(), Fail> {
    let chain = chain_of(rt.alloc(), Bounds::new(2, 1, 0)?, &[Op::H(0)], &[Op::X(0)])?;
    assert!(rt; chain.is_none());
    Ok(())
}

// On one qubit and with at most one parameter nothing can be renamed; of the 219 pairs on two qubits 114 are left.
#[test]
fn pairs_that_others_give_are_left_out(rt: HostRuntime) -> Result<(), Fail> {
    for (n, q, m, wanted) in [(2, 1, 0, 60), (2, 1, 1, 78), (2, 2, 0, 114)] {
        let left = pairs_left(rt.alloc(), Bounds::new(n, q, m)?)?;
        assert!(rt; left == wanted);
    }
    Ok(())
}
