//! Bounds, ranks and lists of classes.

use qz_circ::{
    Bounds, Classes, Expr, LimitFault, Memory, Op, drop_first_rank, drop_last_rank, length_of,
    op_number, op_of, rank, unrank,
};
use std::alloc::Global;
use std::process::Abort;
use std::test::Fail;

// The first functions hide the clauses of what is tested: a test that knows less is proved sooner.
fn bounds(n: u64, q: u64, m: u64) -> Result<Bounds, LimitFault> {
    Bounds::new(n, q, m)
}

// The limit that refuses these bounds, if one does.
fn refusal(n: u64, q: u64, m: u64) -> Option<LimitFault> {
    Bounds::new(n, q, m).err()
}

fn sizes(b: Bounds) -> [u64; 5] {
    [b.n(), b.q(), b.m(), b.gates(), b.circuits()]
}

fn rank_of(circuit: &[Op], b: Bounds) -> Option<u64> {
    rank(circuit, b)
}

fn length_at(r: u64, b: Bounds) -> Option<u64> {
    if r < b.circuits() {
        Some(length_of(r, b))
    } else {
        None
    }
}

// The ranks without the first and without the last gate.
fn parts_at(r: u64, b: Bounds) -> Option<[u64; 2]> {
    if 0 < r && r < b.circuits() {
        Some([drop_first_rank(r, b), drop_last_rank(r, b)])
    } else {
        None
    }
}

fn circuit_at(alloc: Global, r: u64, b: Bounds) -> Option<Vec<Op>> {
    if r < b.circuits() {
        unrank(alloc, r, b).ok()
    } else {
        None
    }
}

fn is_circuit_at(alloc: Global, r: u64, b: Bounds, wanted: &[Op]) -> bool {
    match circuit_at(alloc, r, b) {
        Some(circuit) => circuit.as_slice() == wanted,
        None => false,
    }
}

fn gate_at(number: u64, b: Bounds) -> Option<Op> {
    op_of(number, b)
}

fn number_of(gate: Op, b: Bounds) -> Option<u64> {
    op_number(gate, b)
}

#[test]
fn ranks_two_gates_on_one_qubit(rt: HostRuntime) -> Result<(), Fail> {
    let b = bounds(2, 1, 0)?;
    assert!(rt; sizes(b) == [2, 1, 0, 9, 91]);
    let first = Op::Rz(0, Expr::Const(4));
    let last = Op::Rz(0, Expr::Const(28));
    assert!(rt; rank_of(&[Op::X(0), first], b) == Some(21));
    assert!(rt; rank_of(&[first, first, first], b).is_none());
    assert!(rt; length_at(21, b) == Some(2));
    assert!(rt; parts_at(21, b) == Some([3, 2]));
    assert!(rt; parts_at(9, b) == Some([0, 0]));
    assert!(rt; is_circuit_at(rt.alloc(), 90, b, &[last, last]));
    assert!(rt; gate_at(8, b) == Some(last));
    assert!(rt; gate_at(9, b).is_none());
    assert!(rt; number_of(last, b) == Some(8));
    assert!(rt; number_of(Op::H(1), b).is_none());
    for finer in [1, 2, 5, 30] {
        assert!(rt; number_of(Op::Rz(0, Expr::Const(finer)), b).is_none());
    }
    Ok(())
}

#[test]
fn bounds_are_refused_in_order(rt: HostRuntime) {
    let rows = [
        ([4, 3, 2], None),
        ([6, 1, 2], None),
        ([5, 2, 2], Some(LimitFault::Circuits)),
        ([7, 1, 0], Some(LimitFault::Gates)),
        ([1, 1, 4], Some(LimitFault::Params)),
        ([9, 4, 9], Some(LimitFault::Qubits)),
    ];
    for ([n, q, m], fault) in rows {
        assert!(rt; refusal(n, q, m) == fault);
    }
}

fn refusal_with_grain(n: u64, q: u64, m: u64, grain: u64) -> Option<LimitFault> {
    Bounds::with_grain(n, q, m, grain).err()
}

// A grain that isn't allowed comes after the number of parameters, and before that of circuits.
#[test]
fn grains_are_refused_in_order(rt: HostRuntime) {
    let rows = [
        ([5, 1, 0, 8], None),
        ([4, 1, 3, 16], None),
        ([6, 1, 0, 8], Some(LimitFault::Circuits)),
        ([1, 1, 0, 5], Some(LimitFault::Grain)),
        ([6, 3, 3, 32], Some(LimitFault::Grain)),
        ([1, 1, 4, 5], Some(LimitFault::Params)),
    ];
    for ([n, q, m, grain], fault) in rows {
        assert!(rt; refusal_with_grain(n, q, m, grain) == fault);
    }
}

// The constants are the multiples of π/8: there are 17 gates on one qubit, and the angle of number 5 is 4·π/8.
#[test]
fn ranks_with_finer_constants(rt: HostRuntime) -> Result<(), Fail> {
    let b = Bounds::with_grain(2, 1, 0, 8)?;
    assert!(rt; sizes(b) == [2, 1, 0, 17, 307]);
    assert!(rt; gate_at(5, b) == Some(Op::Rz(0, Expr::Const(8))));
    assert!(rt; number_of(Op::Rz(0, Expr::Const(30)), b) == Some(16));
    assert!(rt; number_of(Op::Rz(0, Expr::Const(3)), b).is_none());
    Ok(())
}

fn no_classes(alloc: Global, b: Bounds) -> Classes {
    Classes::empty(alloc, b)
}

// Appends the list of this rank alone.
fn push_one(rt: &impl Abort, classes: &mut Classes, rank: u64) -> Result<(), Memory> {
    assert!(rt; rank < classes.bounds().circuits());
    classes.push(&[rank])
}

fn push_none(classes: &mut Classes) -> Result<(), Memory> {
    classes.push(&[])
}

fn is_class(classes: &Classes, i: u64, wanted: &[u64]) -> bool {
    i < classes.len() && classes.class(i) == wanted
}

#[test]
fn classes_keep_their_lists(rt: HostRuntime) -> Result<(), Fail> {
    let b = bounds(2, 1, 0)?;
    let mut classes = no_classes(rt.alloc(), b);
    assert!(rt; classes.len() == 0);
    push_one(&rt, &mut classes, 90)?;
    push_none(&mut classes)?;
    assert!(rt; classes.len() == 2);
    assert!(rt; is_class(&classes, 0, &[90]));
    assert!(rt; is_class(&classes, 1, &[]));
    assert!(rt; classes.bounds() == b);
    Ok(())
}
