//! Which rules are usable, and the places of a rule.
ghost use Rattle.std.specs.Prelude.{◌≡◌, ◌<◌, ◌≤◌, ◌&&◌, length, IfOk};
ghost use Rattle.std.specs.List.{AllByRecursion, list_all, list_any, flat_map};
ghost use Rattle.qz_circ.specs.Circuit.{IsOn};
ghost use Rattle.qz_circ.specs.ProgramCircuits.{IsProgramGate};
ghost use Rattle.qz_circ.specs.Places.{rule_qubits_of, params_of, is_listed, is_usable, places};
ghost use Rattle.qz_match.specs.Occurring.{qubits_occur, params_occur, gate_params_occur, occur_in};
ghost use Rattle.qz_circ.specs.ProgramLimits.{most_qubits};

use crate::neighbours::Neighbours;
use crate::place::Place;
use crate::start::places_of;
use crate::walk::{Walk, acts};
use qz_circ::{Expr, Inst, Memory, Op};
use std::alloc::Global;

// The gate has the parameter.
fn has_param(f: Op, i: u8) -> bool
    ensures { result ≡ is_listed (params_of f) i }
{
    match f {
        Op::H(_) | Op::X(_) | Op::Cx(_, _) | Op::Rz(_, Expr::Const(_)) => false,
        Op::Rz(_, Expr::Plus(j)) | Op::Rz(_, Expr::Minus(j)) => j == i,
        Op::Rz(_, Expr::Sum(j, k)) => j == i || k == i,
    }
}

// Some gate is on the qubit.
fn any_acts(left: &[Op], s: u8) -> bool
    ensures { result ≡ list_any (λ f. is_listed (rule_qubits_of f) s) left.now }
{
    left.iter().any(|f| acts(*f, s))
}

// Some gate has the parameter.
fn any_has(left: &[Op], i: u8) -> bool
    ensures { result ≡ list_any (λ f. is_listed (params_of f) i) left.now }
{
    left.iter().any(|f| has_param(*f, i))
}

// Each qubit of the gate occurs in the left side.
fn has_qubits(left: &[Op], f: Op) -> bool
    ensures { result ≡ qubits_occur left.now f }
{
    match f {
        Op::H(t) | Op::X(t) | Op::Rz(t, _) => any_acts(left, t),
        Op::Cx(c, t) => any_acts(left, c) && any_acts(left, t),
    }
}

// Each parameter of the angle occurs in the left side.
fn has_angle(left: &[Op], e: Expr) -> bool
    ensures { result ≡ params_occur left.now e }
{
    match e {
        Expr::Const(_) => true,
        Expr::Plus(i) | Expr::Minus(i) => any_has(left, i),
        Expr::Sum(i, j) => any_has(left, i) && any_has(left, j),
    }
}

// Each parameter of the gate occurs in the left side.
fn has_params(left: &[Op], f: Op) -> bool
    ensures { result ≡ gate_params_occur left.now f }
{
    match f {
        Op::H(_) | Op::X(_) | Op::Cx(_, _) => true,
        Op::Rz(_, e) => has_angle(left, e),
    }
}

// Each qubit of right occurs in left.
fn covers_qubits(left: &[Op], right: &[Op]) -> bool
    ensures { result ≡ list_all (λ f. qubits_occur left.now f) right.now }
{
    right.iter().all(|f| has_qubits(left, *f))
}

// Each parameter of right occurs in left.
fn covers_params(left: &[Op], right: &[Op]) -> bool
    ensures { result ≡ list_all (λ f. gate_params_occur left.now f) right.now }
{
    right.iter().all(|f| has_params(left, *f))
}

/// Each qubit and each parameter of right occurs in left. Where there is a walk over left, the rule is usable just then.
pub fn covers(left: &[Op], right: &[Op]) -> bool
    ensures { result ≡ occur_in left.now right.now }
{
    covers_qubits(left, right) && covers_params(left, right)
}

/// Whether a rule is usable: left isn't empty, its gates are connected, and each qubit and each parameter of right occurs in it.
pub fn is_usable(left: &[Op], right: &[Op]) -> bool
    requires { length left.now ≤ 6 }
    ensures { result ≡ is_usable left.now right.now }
{
    let walk = Walk::of(left);
    walk.is_some() && covers(left, right)
}

/// The places of a rule in a program of at most 20,004 gates, by their positions in rising order; a rule that isn't usable has
/// none. What serves several rules or programs, the walk over left and the links of the program, is made anew at each call.
pub fn places(alloc: Global, left: &[Op], right: &[Op], c: &[Inst]) -> Result<Vec<Place>, Memory>
    requires left_short { length left.now ≤ 6 }
    requires left_on { IsOn 3 3 left.now }
    requires right_short { length right.now ≤ 6 }
    requires right_on { IsOn 3 3 right.now }
    requires short { length c.now ≤ 20004 }
    requires lawful { AllByRecursion (IsProgramGate most_qubits) c.now }
    ensures { IfOk result (λ found. found.items ≡ places left.now right.now c.now) }
{
    let walk = match Walk::of(left) {
        Some(walk) => walk,
        None => return Ok(Vec::new(alloc)),
    };
    if !covers(left, right) {
        return Ok(Vec::new(alloc));
    }
    let neighbours = Neighbours::of(alloc, c)?;
    places_of(alloc, left, &walk, c, &neighbours)
}
