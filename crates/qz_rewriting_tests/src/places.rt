//! Where the left sides of rules stand in programs.
ghost use Rattle.std.specs.Prelude.{◌≤◌, length};
ghost use Rattle.std.specs.List.{AllByRecursion};
ghost use Rattle.qz_circ.specs.Circuit.{IsOn};
ghost use Rattle.qz_circ.specs.ProgramCircuits.{IsProgramGate};

use qz_circ::{Expr, Inst, Op};
use qz_match::{Place, places};
use std::alloc::{AllocError, Global};
use std::test::Fail;

// A number, or a dash for none.
fn push_slot(alloc: Global, text: &mut String, slot: Option<u16>) -> Result<(), AllocError> {
    match slot {
        Some(n) => text.push_str(&format!(in alloc; " {n}")?),
        None => text.push_str(" -"),
    }
}

// The positions of a place, what stands for the three qubits, and the values of the three parameters.
fn push_place(alloc: Global, text: &mut String, place: &Place) -> Result<(), AllocError> {
    for p in place.positions() {
        text.push_str(&format!(in alloc; "{p} ")?)?;
    }
    text.push_str("|")?;
    let binding = place.binding();
    for w in binding.qubits {
        let number = match w {
            Some(w) => Some(u16::from(w)),
            None => None,
        };
        push_slot(alloc, text, number)?;
    }
    text.push_str(" |")?;
    for v in binding.params {
        push_slot(alloc, text, v)?;
    }
    text.push_str("; ")
}

// All places are these.
fn are_places(
    alloc: Global,
    left: &[Op],
    right: &[Op],
    c: &[Inst],
    wanted: &str,
) -> Result<bool, Fail>
    requires left_short { length left.now ≤ 6 }
    requires left_on { IsOn 3 3 left.now }
    requires right_short { length right.now ≤ 6 }
    requires right_on { IsOn 3 3 right.now }
    requires short { length c.now ≤ 20004 }
    requires lawful { AllByRecursion (IsProgramGate 64) c.now }
{
    let mut text = String::new(alloc);
    for place in &places(alloc, left, right, c)? {
        push_place(alloc, &mut text, place)?;
    }
    Ok(text.as_str() == wanted)
}

// Where a left side stands, in order.
#[test]
fn places_in_order(rt: HostRuntime) -> Result<(), Fail> {
    let alloc = rt.alloc();
    assert!(rt;
        are_places(
            alloc,
            &[Op::H(0), Op::H(0)],
            &[],
            &[Inst::H(0), Inst::H(0), Inst::H(0)],
            "0 1 | 0 - - | - - -; 1 2 | 0 - - | - - -; "
        )?,
        "overlapping"
    );
    assert!(rt;
        are_places(
            alloc,
            &[Op::H(0), Op::H(0)],
            &[],
            &[Inst::H(0), Inst::H(1), Inst::H(0), Inst::H(1)],
            "0 2 | 0 - - | - - -; 1 3 | 1 - - | - - -; "
        )?,
        "on two qubits in turn"
    );
    assert!(rt;
        are_places(
            alloc,
            &[Op::H(0), Op::H(0)],
            &[],
            &[Inst::H(0), Inst::Cx(1, 2), Inst::H(0)],
            "0 2 | 0 - - | - - -; "
        )?,
        "past a gate on other qubits"
    );
    assert!(rt;
        are_places(
            alloc,
            &[Op::H(0), Op::H(0)],
            &[],
            &[Inst::H(0), Inst::Cx(0, 1), Inst::H(0)],
            ""
        )?,
        "a gate between on the qubit"
    );
    assert!(rt;
        are_places(
            alloc,
            &[Op::Cx(0, 1), Op::X(1)],
            &[],
            &[Inst::Cx(0, 1), Inst::H(2), Inst::H(0), Inst::X(1)],
            "0 3 | 0 1 - | - - -; "
        )?,
        "one gate before and one after"
    );
    assert!(rt;
        are_places(
            alloc,
            &[Op::X(0), Op::X(0)],
            &[],
            &[Inst::H(0), Inst::Cx(0, 1), Inst::X(1), Inst::X(1)],
            "2 3 | 1 - - | - - -; "
        )?,
        "at the end"
    );
    assert!(rt;
        are_places(
            alloc,
            &[Op::X(0)],
            &[],
            &[Inst::X(3), Inst::H(3), Inst::X(63)],
            "0 | 3 - - | - - -; 2 | 63 - - | - - -; "
        )?,
        "one gate"
    );
    assert!(rt;
        are_places(alloc, &[Op::X(0)], &[], &[], "")?,
        "none in an empty program"
    );
    assert!(rt;
        are_places(
            alloc,
            &[Op::H(1), Op::Cx(0, 1), Op::H(0)],
            &[],
            &[
                Inst::H(5),
                Inst::H(4),
                Inst::Cx(4, 5),
                Inst::H(4),
                Inst::H(5)
            ],
            "0 2 3 | 4 5 - | - - -; "
        )?,
        "three gates, walked back and forth"
    );
    Ok(())
}

// Gates that can't be brought together, and rules that aren't usable.
#[test]
fn places_that_gather(rt: HostRuntime) -> Result<(), Fail> {
    let alloc = rt.alloc();
    assert!(rt;
        are_places(
            alloc,
            &[Op::Cx(0, 1), Op::Cx(1, 2)],
            &[],
            &[
                Inst::Cx(0, 1),
                Inst::Cx(0, 3),
                Inst::Cx(2, 3),
                Inst::Cx(1, 2)
            ],
            ""
        )?,
        "apart by two gates"
    );
    assert!(rt;
        are_places(
            alloc,
            &[Op::Cx(0, 1), Op::Cx(1, 2)],
            &[],
            &[Inst::Cx(0, 1), Inst::Cx(0, 3), Inst::Cx(1, 2)],
            "0 2 | 0 1 2 | - - -; "
        )?,
        "apart by one of them"
    );
    assert!(rt;
        are_places(
            alloc,
            &[Op::H(0), Op::X(1)],
            &[],
            &[Inst::H(0), Inst::X(1), Inst::X(0)],
            ""
        )?,
        "not connected"
    );
    assert!(rt;
        are_places(alloc, &[], &[], &[Inst::H(0), Inst::H(0)], "")?,
        "an empty left side"
    );
    assert!(rt;
        are_places(alloc, &[Op::H(0)], &[Op::X(1)], &[Inst::H(0)], "")?,
        "a qubit of the right side alone"
    );
    assert!(rt;
        are_places(
            alloc,
            &[Op::Rz(0, Expr::Plus(0))],
            &[Op::Rz(0, Expr::Plus(1))],
            &[Inst::Rz(0, 9)],
            ""
        )?,
        "a parameter of the right side alone"
    );
    assert!(rt;
        are_places(
            alloc,
            &[Op::Rz(0, Expr::Plus(1))],
            &[Op::Rz(0, Expr::Minus(1))],
            &[Inst::Rz(0, 9)],
            "0 | 0 - - | - 9 -; "
        )?,
        "a parameter of both sides"
    );
    Ok(())
}

// What qubits stand for.
#[test]
fn qubits_bound(rt: HostRuntime) -> Result<(), Fail> {
    let alloc = rt.alloc();
    assert!(rt;
        are_places(
            alloc,
            &[Op::Cx(0, 1), Op::Cx(1, 0)],
            &[],
            &[Inst::Cx(3, 5), Inst::Cx(5, 3), Inst::Cx(5, 3)],
            "0 1 | 3 5 - | - - -; "
        )?,
        "the other way round"
    );
    assert!(rt;
        are_places(
            alloc,
            &[Op::Cx(0, 1), Op::Cx(1, 0)],
            &[],
            &[Inst::Cx(3, 5), Inst::Cx(3, 5)],
            ""
        )?,
        "not the same way"
    );
    assert!(rt;
        are_places(
            alloc,
            &[Op::Cx(0, 1), Op::Cx(0, 2)],
            &[],
            &[Inst::Cx(3, 5), Inst::Cx(3, 5)],
            ""
        )?,
        "two for one"
    );
    assert!(rt;
        are_places(
            alloc,
            &[Op::Cx(0, 1), Op::Cx(0, 2)],
            &[],
            &[Inst::Cx(3, 5), Inst::Cx(3, 4)],
            "0 1 | 3 5 4 | - - -; "
        )?,
        "one for each"
    );
    assert!(rt;
        are_places(
            alloc,
            &[Op::X(0), Op::X(0)],
            &[],
            &[Inst::X(3), Inst::X(4)],
            ""
        )?,
        "one for two"
    );
    Ok(())
}

// What parameters stand for.
#[test]
fn parameters_bound(rt: HostRuntime) -> Result<(), Fail> {
    let alloc = rt.alloc();
    assert!(rt;
        are_places(
            alloc,
            &[
                Op::Rz(0, Expr::Plus(0)),
                Op::Cx(0, 1),
                Op::Rz(1, Expr::Plus(0))
            ],
            &[],
            &[Inst::Rz(0, 5), Inst::Cx(0, 1), Inst::Rz(1, 5)],
            "0 1 2 | 0 1 - | 5 - -; "
        )?,
        "twice the same"
    );
    assert!(rt;
        are_places(
            alloc,
            &[
                Op::Rz(0, Expr::Plus(0)),
                Op::Cx(0, 1),
                Op::Rz(1, Expr::Plus(0))
            ],
            &[],
            &[Inst::Rz(0, 5), Inst::Cx(0, 1), Inst::Rz(1, 6)],
            ""
        )?,
        "twice different"
    );
    assert!(rt;
        are_places(
            alloc,
            &[Op::Rz(0, Expr::Sum(0, 1)), Op::X(0)],
            &[],
            &[Inst::Rz(0, 5), Inst::X(0)],
            ""
        )?,
        "a sum of two free ones"
    );
    assert!(rt;
        are_places(
            alloc,
            &[
                Op::Rz(0, Expr::Plus(0)),
                Op::X(0),
                Op::Rz(0, Expr::Sum(0, 1))
            ],
            &[],
            &[Inst::Rz(0, 100), Inst::X(0), Inst::Rz(0, 5)],
            "0 1 2 | 0 - - | 100 417 -; "
        )?,
        "the second of a sum"
    );
    assert!(rt;
        are_places(
            alloc,
            &[
                Op::Rz(0, Expr::Plus(2)),
                Op::X(0),
                Op::Rz(0, Expr::Sum(1, 2))
            ],
            &[],
            &[Inst::Rz(0, 5), Inst::X(0), Inst::Rz(0, 100)],
            "0 1 2 | 0 - - | - 95 5; "
        )?,
        "the first of a sum"
    );
    assert!(rt;
        are_places(
            alloc,
            &[
                Op::Rz(0, Expr::Plus(0)),
                Op::Rz(0, Expr::Plus(1)),
                Op::Rz(0, Expr::Sum(0, 1))
            ],
            &[],
            &[Inst::Rz(0, 300), Inst::Rz(0, 300), Inst::Rz(0, 88)],
            "0 1 2 | 0 - - | 300 300 -; "
        )?,
        "both of a sum"
    );
    assert!(rt;
        are_places(
            alloc,
            &[
                Op::Rz(0, Expr::Plus(0)),
                Op::Rz(0, Expr::Plus(1)),
                Op::Rz(0, Expr::Sum(0, 1))
            ],
            &[],
            &[Inst::Rz(0, 300), Inst::Rz(0, 300), Inst::Rz(0, 89)],
            ""
        )?,
        "both of another sum"
    );
    assert!(rt;
        are_places(
            alloc,
            &[Op::Rz(0, Expr::Minus(0)), Op::Rz(0, Expr::Plus(0))],
            &[],
            &[Inst::Rz(7, 5), Inst::Rz(7, 507), Inst::Rz(7, 5)],
            "0 1 | 7 - - | 507 - -; 1 2 | 7 - - | 5 - -; "
        )?,
        "a negative"
    );
    assert!(rt;
        are_places(
            alloc,
            &[Op::Rz(0, Expr::Const(4)), Op::Rz(0, Expr::Const(28))],
            &[],
            &[Inst::Rz(0, 64), Inst::Rz(0, 448), Inst::Rz(0, 64)],
            "0 1 | 0 - - | - - -; "
        )?,
        "constants"
    );
    assert!(rt;
        are_places(
            alloc,
            &[Op::Rz(0, Expr::Const(1)), Op::Rz(0, Expr::Const(31))],
            &[],
            &[Inst::Rz(0, 16), Inst::Rz(0, 496), Inst::Rz(0, 17)],
            "0 1 | 0 - - | - - -; "
        )?,
        "finer constants"
    );
    assert!(rt;
        are_places(
            alloc,
            &[
                Op::Rz(0, Expr::Plus(0)),
                Op::X(0),
                Op::Rz(0, Expr::Sum(0, 1))
            ],
            &[],
            &[Inst::Rz(0, 5), Inst::X(0), Inst::Rz(0, 5)],
            "0 1 2 | 0 - - | 5 0 -; "
        )?,
        "a sum that is none"
    );
    Ok(())
}
