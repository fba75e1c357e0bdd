//! Which circuits are equivalent.
ghost use Rattle.std.specs.Prelude.{◌≡◌, ◌+◌, ◌<◌, ◌≤◌, length};
ghost use Rattle.qz_circ.specs.Circuit.{IsOn};

use qz_circ::{Expr, Memory, Op, Steps};
use qz_equiv::decide;
use std::alloc::Global;
use std::marker::Brand;
use std::sync::ledger::{Blank, Ledger};
use std::test::Fail;

// The decision, with its steps counted in a new ledger.
fn counted<L: Ledger>(
    alloc: Global,
    a: &[Op],
    c: &[Op],
    q: u64,
    blank: Blank,
) -> Result<bool, Memory>
    requires name { blank.name ≡ L.name }
    requires parts { blank.parts ≡ L.parts }
    requires shared { 0 < L.parts }
    requires qubits { (1 ≤ q) × (q ≤ 3) }
    requires first { IsOn q 3 a.now }
    requires second { IsOn q 3 c.now }
    requires short { length a.now + length c.now ≤ 100 }
{
    let mut steps = Steps::<L>::new(blank);
    decide(alloc, a, c, q, &mut steps)
}

// The decision on q qubits.
fn decision(alloc: Global, a: &[Op], c: &[Op], q: u64) -> Result<bool, Memory>
    requires qubits { (1 ≤ q) × (q ≤ 3) }
    requires first { IsOn q 3 a.now }
    requires second { IsOn q 3 c.now }
    requires short { length a.now + length c.now ≤ 100 }
{
    counted::<Brand>(alloc, a, c, q, Blank::new(1))
}

const H: Op = Op::H(0);

const X: Op = Op::X(0);

// Circuits that are equal, or equal up to a phase.
#[test]
fn equivalent_circuits(rt: HostRuntime) -> Result<(), Fail> {
    let half_turn = Op::Rz(0, Expr::Const(16));
    let alloc = rt.alloc();
    assert!(rt; decision(alloc, &[H, H], &[], 1)?, "two H are none");
    assert!(rt; decision(alloc, &[X, X], &[], 1)?, "two X are none");
    assert!(rt;
        decision(alloc, &[H, X], &[half_turn, H], 1)?,
        "X after H is half a circle before H"
    );
    assert!(rt;
        decision(alloc, &[X, half_turn, X], &[half_turn], 1)?,
        "a phase of -1"
    );
    let forwards = Op::Rz(0, Expr::Plus(0));
    let backwards = Op::Rz(0, Expr::Minus(0));
    assert!(rt;
        decision(alloc, &[X, forwards], &[backwards, X], 1)?,
        "a phase that is a parameter"
    );
    let sixteenth = Op::Rz(0, Expr::Const(1));
    assert!(rt;
        decision(
            alloc,
            &[sixteenth, Op::Rz(0, Expr::Const(15))],
            &[half_turn],
            1
        )?,
        "sixteen sixteenths of π"
    );
    let over = [Op::Cx(0, 1), Op::Cx(1, 2), Op::Cx(0, 1), Op::Cx(1, 2)];
    assert!(rt;
        decision(alloc, &over, &[Op::Cx(0, 2)], 3)?,
        "a CX over the qubit between"
    );
    Ok(())
}

// Circuits that are different up to any phase.
#[test]
fn different_circuits(rt: HostRuntime) -> Result<(), Fail> {
    let eighth = Op::Rz(0, Expr::Const(4));
    let quarter = Op::Rz(0, Expr::Const(8));
    let alloc = rt.alloc();
    assert!(rt;
        !decision(alloc, &[eighth], &[quarter], 1)?,
        "one and two eighths"
    );
    assert!(rt;
        !decision(alloc, &[eighth], &[Op::Rz(0, Expr::Const(5))], 1)?,
        "four and five sixteenths of π"
    );
    assert!(rt; !decision(alloc, &[H], &[], 1)?, "H and none");
    assert!(rt; !decision(alloc, &[X], &[eighth], 1)?, "X and an eighth");
    let first = Op::Rz(0, Expr::Plus(0));
    let second = Op::Rz(0, Expr::Plus(1));
    assert!(rt; !decision(alloc, &[first], &[second], 1)?, "two parameters");
    assert!(rt;
        !decision(alloc, &[Op::Cx(0, 2)], &[Op::Cx(2, 0)], 3)?,
        "control and target exchanged"
    );
    Ok(())
}
