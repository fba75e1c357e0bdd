//! Instances of rules, their places, and rewritten programs.
ghost use Rattle.std.specs.Prelude.{◌≤◌, length};
ghost use Rattle.std.specs.List.{AllByRecursion};
ghost use Rattle.qz_circ.specs.Circuit.{IsOn};
ghost use Rattle.qz_circ.specs.Instances.{IsBoundCircuit};
ghost use Rattle.qz_circ.specs.ProgramCircuits.{IsProgramGate};

use qz_circ::{Binding, Expr, Inst, Memory, Op};
use qz_match::places;
use qz_rewrite::replace;
use qz_subst::instance;
use std::alloc::Global;
use std::process::Abort;
use std::test::Fail;

// Whether the gates are these.
fn are_gates(gates: Result<Vec<Inst>, Memory>, expected: &[Inst]) -> bool {
    match gates {
        Ok(gates) => gates.as_slice() == expected,
        Err(_) => false,
    }
}

// The instance of a rotation by the sum of two parameters, with these values and on qubit 3.
fn rotation_by_sum(alloc: Global, first: u16, second: u16) -> Result<Vec<Inst>, Memory> {
    let bind = Binding {
        qubits: [Some(3), None, None],
        params: [Some(first), Some(second), None],
    };
    instance(alloc, &[Op::Rz(0, Expr::Sum(0, 1))], &bind)
}

// The instance of a circuit, of which nothing is told.
fn placed(alloc: Global, c: &[Op], bind: &Binding) -> Result<Vec<Inst>, Memory>
    requires { IsBoundCircuit 256 bind.now c.now }
{
    instance(alloc, c, bind)
}

// Gates of each kind, and angles of each kind; a rotation by a full circle is left out.
#[test]
fn instances_of_each_kind(rt: HostRuntime) -> Result<(), Fail> {
    assert!(rt; are_gates(rotation_by_sum(rt.alloc(), 5, 507), &[]));
    assert!(rt; are_gates(rotation_by_sum(rt.alloc(), 5, 6), &[Inst::Rz(3, 11)]));
    let bind = Binding {
        qubits: [Some(63), Some(0), Some(7)],
        params: [Some(1), Some(511), Some(0)],
    };
    let gates = placed(
        rt.alloc(),
        &[Op::H(0), Op::X(1), Op::Cx(1, 2), Op::Cx(2, 0)],
        &bind,
    );
    let expected = [Inst::H(63), Inst::X(0), Inst::Cx(0, 7), Inst::Cx(7, 63)];
    assert!(rt; are_gates(gates, &expected));
    let turns = placed(
        rt.alloc(),
        &[
            Op::Rz(2, Expr::Const(28)),
            Op::Rz(0, Expr::Minus(1)),
            Op::Rz(1, Expr::Plus(0)),
            Op::Rz(0, Expr::Minus(2)),
            Op::Rz(1, Expr::Sum(1, 2)),
            Op::Rz(1, Expr::Sum(0, 1)),
        ],
        &bind,
    );
    let expected = [
        Inst::Rz(7, 448),
        Inst::Rz(63, 1),
        Inst::Rz(0, 1),
        Inst::Rz(0, 511),
    ];
    assert!(rt; are_gates(turns, &expected));
    Ok(())
}

// The program by a rule at its one place, if it has just one and the place has these positions.
fn rewritten(
    alloc: Global,
    left: &[Op],
    right: &[Op],
    c: &[Inst],
    positions: &[u64],
) -> Result<Option<Vec<Inst>>, Memory>
    requires left { (length left.now ≤ 6) × IsOn 3 3 left.now }
    requires right { (length right.now ≤ 6) × IsOn 3 3 right.now }
    requires program { (length c.now ≤ 20) × AllByRecursion (IsProgramGate 64) c.now }
{
    let found = places(alloc, left, right, c)?;
    let [place] = found.as_slice() else {
        return Ok(None);
    };
    if place.positions() != positions {
        return Ok(None);
    }
    let out = replace(alloc, c, left, right, place)?;
    Ok(Some(out))
}

// Whether the program is this one.
fn is_rewritten(out: Result<Option<Vec<Inst>>, Memory>, expected: &[Inst]) -> bool {
    match out {
        Ok(Some(gates)) => gates.as_slice() == expected,
        _ => false,
    }
}

// Two H around a CX on other qubits are taken out. The gates between go to their sides, and a parameter is bound by the left
// side's angle.
#[test]
fn gates_keep_their_sides(rt: HostRuntime) -> Result<(), Fail> {
    let c = [Inst::H(0), Inst::Cx(1, 2), Inst::H(0)];
    let out = rewritten(rt.alloc(), &[Op::H(0), Op::H(0)], &[], &c, &[0, 2]);
    assert!(rt; is_rewritten(out, &[Inst::Cx(1, 2)]));
    let left = [Op::Cx(0, 1), Op::X(1)];
    let right = [Op::X(1), Op::Cx(0, 1)];
    let c = [
        Inst::H(3),
        Inst::Cx(2, 5),
        Inst::H(2),
        Inst::Rz(7, 9),
        Inst::X(5),
        Inst::H(5),
    ];
    let expected = [
        Inst::H(3),
        Inst::Rz(7, 9),
        Inst::X(5),
        Inst::Cx(2, 5),
        Inst::H(2),
        Inst::H(5),
    ];
    assert!(rt; is_rewritten(rewritten(rt.alloc(), &left, &right, &c, &[1, 4]), &expected));
    let left = [Op::X(0), Op::Rz(0, Expr::Plus(0))];
    let right = [Op::Rz(0, Expr::Minus(0)), Op::X(0)];
    let c = [
        Inst::H(4),
        Inst::X(1),
        Inst::H(2),
        Inst::Rz(1, 200),
        Inst::X(1),
    ];
    let expected = [
        Inst::H(4),
        Inst::H(2),
        Inst::Rz(1, 312),
        Inst::X(1),
        Inst::X(1),
    ];
    assert!(rt; is_rewritten(rewritten(rt.alloc(), &left, &right, &c, &[1, 3]), &expected));
    Ok(())
}
