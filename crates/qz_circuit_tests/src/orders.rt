//! How circuits of rules and of programs compare.

use qz_circ::{Expr, Inst, Op, prec, prec_insts};
use std::cmp::Ordering;

// Whether the first circuit is the earlier one, and neither is earlier than itself.
fn is_before(a: &[Op], c: &[Op]) -> bool {
    prec(a, c) == Ordering::Less
        && prec(c, a) == Ordering::Greater
        && prec(a, a) == Ordering::Equal
        && prec(c, c) == Ordering::Equal
}

// Whether each of the gates alone is before the next one.
fn gates_rise(gates: &[Op]) -> bool {
    for i in 1..gates.len() {
        if !is_before(&gates[i - 1..i], &gates[i..i + 1]) {
            return false;
        }
    }
    true
}

// Whether the first circuit of a program is the earlier one, and neither is earlier than itself.
fn is_before_insts(a: &[Inst], c: &[Inst]) -> bool {
    prec_insts(a, c) == Ordering::Less
        && prec_insts(c, a) == Ordering::Greater
        && prec_insts(a, a) == Ordering::Equal
        && prec_insts(c, c) == Ordering::Equal
}

// Whether each of the gates of a program alone is before the next one.
fn insts_rise(gates: &[Inst]) -> bool {
    for i in 1..gates.len() {
        if !is_before_insts(&gates[i - 1..i], &gates[i..i + 1]) {
            return false;
        }
    }
    true
}

// By length, then by the first gate that differs; gates by kind, qubits and angle.
#[test]
fn circuits_of_rules_rise(rt: HostRuntime) {
    let gates = [
        Op::H(0),
        Op::H(1),
        Op::X(0),
        Op::Cx(0, 1),
        Op::Cx(0, 2),
        Op::Cx(1, 0),
        Op::Rz(0, Expr::Const(4)),
        Op::Rz(0, Expr::Const(28)),
        Op::Rz(0, Expr::Plus(0)),
        Op::Rz(0, Expr::Plus(2)),
        Op::Rz(0, Expr::Minus(0)),
        Op::Rz(0, Expr::Sum(0, 1)),
        Op::Rz(0, Expr::Sum(0, 2)),
        Op::Rz(0, Expr::Sum(1, 2)),
        Op::Rz(1, Expr::Const(4)),
    ];
    assert!(rt; gates_rise(&gates), "gates");
    let last = Op::Rz(2, Expr::Sum(1, 2));
    assert!(rt; is_before(&[], &[Op::H(0)]));
    assert!(rt; is_before(&[last], &[Op::H(0), Op::H(0)]));
    assert!(rt; is_before(&[Op::H(0), last], &[Op::X(0), Op::H(0)]));
    assert!(rt; is_before(&[Op::X(0), Op::H(0)], &[Op::X(0), Op::H(1)]));
}

#[test]
fn circuits_of_programs_rise(rt: HostRuntime) {
    let gates = [
        Inst::H(0),
        Inst::H(63),
        Inst::X(0),
        Inst::Cx(0, 1),
        Inst::Cx(0, 2),
        Inst::Cx(1, 0),
        Inst::Rz(0, 1),
        Inst::Rz(0, 511),
        Inst::Rz(1, 1),
    ];
    assert!(rt; insts_rise(&gates), "gates");
    let last = Inst::Rz(63, 511);
    assert!(rt; is_before_insts(&[], &[Inst::H(0)]));
    assert!(rt; is_before_insts(&[last], &[Inst::H(0), Inst::H(0)]));
    assert!(rt; is_before_insts(&[Inst::H(0), last], &[Inst::X(0), Inst::H(0)]));
    assert!(rt; is_before_insts(&[Inst::X(0), Inst::H(0)], &[Inst::X(0), Inst::H(1)]));
}
