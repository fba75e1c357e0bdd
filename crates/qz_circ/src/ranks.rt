//! The numbers of gates and circuits within bounds: their places in the order of all of them.
ghost use Rattle.std.specs.Prelude.{◌≡◌, ℕ, ◌+◌, ◌*◌, ◌<◌, ◌≤◌, ◌↔◌, true, length, slice_get, IsSome, IfSome, IfOk, Some, Contains};
ghost use Rattle.qz_circ.specs.Circuit.{Within, gates_of, angles};
ghost use Rattle.qz_circ.specs.Bounds.{is_grain, gate_count};
ghost use Rattle.qz_circ.specs.Order.{all_circuits, rank, circuit_at};
ghost use Rattle.qz_circ.specs.Classes.{without_first, without_last};

use crate::bound::{Bounds, count_angles};
use crate::circuit::{Expr, Op};
use crate::constant::{constant_of, multiple_of};
use crate::fault::Memory;
use std::alloc::Global;

// The angle with this number among those with m parameters.
#[tactic(auto, using(std::proofs::lemmas::Bool::Decides::nat_tests, crate::proofs::GateNumbers::angle_listed))]
fn angle_of(number: u64, m: u64, grain: u64) -> Option<Expr>
    requires params { m ≤ 3 }
    requires grain { is_grain grain ≡ true }
    ensures { result ≡ slice_get (angles m grain) number }
{
    if number >= count_angles(m, grain) {
        return None;
    }
    let constants = 2 * grain - 1;
    if number < constants {
        return Some(Expr::Const(constant_of(number as u8 + 1, grain)));
    }
    let parameter = (number - constants) as u8;
    let params = m as u8;
    if parameter < params {
        return Some(Expr::Plus(parameter));
    }
    if parameter < 2 * params {
        return Some(Expr::Minus(parameter - params));
    }
    match parameter - 2 * params {
        0 => Some(Expr::Sum(0, 1)),
        1 => Some(Expr::Sum(0, 2)),
        _ => Some(Expr::Sum(1, 2)),
    }
}

// The number of an angle among those with m parameters, if it is one of them.
fn angle_place(angle: Expr, m: u64, grain: u64) -> u64
    requires params { m ≤ 3 }
    requires grain { is_grain grain ≡ true }
    ensures place { (k : ℕ) → slice_get (angles m grain) k ≡ Some angle → result ≡ k }
    ensures few { result ≤ 546 }
{
    match angle {
        Expr::Const(t) => multiple_of(t, grain).saturating_sub(1),
        Expr::Plus(i) => 2 * grain - 1 + u64::from(i),
        Expr::Minus(i) => 2 * grain - 1 + m + u64::from(i),
        Expr::Sum(i, j) => 2 * grain - 2 + 2 * m + u64::from(i) + u64::from(j),
    }
}

// The number of a gate among those on q qubits with m parameters, if it is one of them.
fn op_place(op: Op, q: u64, m: u64, grain: u64) -> u64
    requires some_qubit { 0 < q }
    requires qubits { q ≤ 3 }
    requires params { m ≤ 3 }
    requires grain { is_grain grain ≡ true }
    ensures { (n k : ℕ) → slice_get (gates_of (record { n = n; q = q; m = m; grain = grain })) k ≡ Some op → result ≡ k }
{
    match op {
        Op::H(t) => u64::from(t),
        Op::X(t) => q + u64::from(t),
        Op::Cx(c, t) => {
            let others = u64::from(if c < t { t - 1 } else { t });
            2 * q + u64::from(c) * (q - 1) + others
        }
        Op::Rz(t, angle) => q
            + q * q
            + u64::from(t) * count_angles(m, grain)
            + angle_place(angle, m, grain),
    }
}

// The gate of two qubits with this number among those on q qubits.
fn pair_of(number: u64, q: u64) -> Op
    requires several { 2 ≤ q }
    requires qubits { q ≤ 3 }
    requires pairs { 2 * q + number < q + q * q }
    ensures { (n m grain : ℕ) → m ≤ 3 → is_grain grain ≡ true → slice_get (gates_of (record { n = n; q = q; m = m; grain = grain })) (2 * q + number) ≡ Some result }
{
    let control = (number / (q - 1)) as u8;
    let other = (number % (q - 1)) as u8;
    if other < control {
        Op::Cx(control, other)
    } else {
        Op::Cx(control, other + 1)
    }
}

// The rotation with this number among those on q qubits with m parameters.
fn rotation_of(number: u64, q: u64, m: u64, grain: u64) -> Option<Op>
    requires some_qubit { 0 < q }
    requires qubits { q ≤ 3 }
    requires params { m ≤ 3 }
    requires grain { is_grain grain ≡ true }
    ensures { (n : ℕ) → result ≡ slice_get (gates_of (record { n = n; q = q; m = m; grain = grain })) (q + q * q + number) }
{
    let angles = count_angles(m, grain);
    if number >= q * angles {
        return None;
    }
    match angle_of(number % angles, m, grain) {
        Some(angle) => Some(Op::Rz((number / angles) as u8, angle)),
        None => None,
    }
}

// The gate with this number among those on q qubits with m parameters.
fn gate_of(number: u64, q: u64, m: u64, grain: u64) -> Option<Op>
    requires some_qubit { 0 < q }
    requires qubits { q ≤ 3 }
    requires params { m ≤ 3 }
    requires grain { is_grain grain ≡ true }
    ensures { (n : ℕ) → result ≡ slice_get (gates_of (record { n = n; q = q; m = m; grain = grain })) number }
{
    if number < q {
        return Some(Op::H(number as u8));
    }
    if number < 2 * q {
        return Some(Op::X((number - q) as u8));
    }
    if number < q + q * q {
        return Some(pair_of(number - 2 * q, q));
    }
    rotation_of(number - (q + q * q), q, m, grain)
}

/// The gate with this number among those within the bounds, counted from 0.
pub fn op_of(number: u64, b: Bounds) -> Option<Op>
    ensures within { IsSome result ↔ number < gate_count b }
    ensures gate { result ≡ slice_get (gates_of b) number }
{
    gate_of(number, b.q(), b.m(), b.grain())
}

/// The gate's number among those within the bounds, or nothing where it isn't one of them.
pub fn op_number(op: Op, b: Bounds) -> Option<u64>
    ensures within { IsSome result ↔ Contains (gates_of b) op }
    ensures number { IfSome result (λ k. slice_get (gates_of b) k ≡ Some op) }
{
    let number = op_place(op, b.q(), b.m(), b.grain());
    match op_of(number, b) {
        Some(found) if found == op => Some(number),
        _ => None,
    }
}

/// How many circuits within the bounds come before the circuit, or nothing where it isn't one of them.
pub fn rank(c: &[Op], b: Bounds) -> Option<u64>
    ensures within { IsSome result ↔ Within b c.now }
    ensures rank { IfSome result (λ r. r ≡ rank b c.now) }
    ensures listed { IfSome result (λ r. r < length (all_circuits b)) }
{
    if c.len() as u64 > b.n() {
        return None;
    }
    let gates = b.gates();
    let mut earlier = 0;
    for op in c {
        let Some(number) = op_number(*op, b) else {
            return None;
        };
        earlier = earlier * gates + number + 1;
    }
    Some(earlier)
}

/// How many gates the circuit with this rank has.
pub fn length_of(r: u64, b: Bounds) -> u64
    requires { r < length (all_circuits b) }
    ensures length { result ≡ length (circuit_at b r) }
    ensures short { result ≤ b.n }
{
    let gates = b.gates();
    let mut rest = r;
    let mut len = 0;
    while rest > 0 {
        rest = (rest - 1) / gates;
        len += 1;
    }
    len
}

/// The rank, without its first gate, of the circuit with rank r.
pub fn drop_first_rank(r: u64, b: Bounds) -> u64
    requires some_gate { 0 < r }
    requires listed { r < length (all_circuits b) }
    ensures rank { result ≡ rank b (without_first (circuit_at b r)) }
    ensures circuit { circuit_at b result ≡ without_first (circuit_at b r) }
    ensures listed { result < length (all_circuits b) }
    ensures earlier { result < r }
{
    let gates = b.gates();
    // The rank of the gates in front, and what a gate at their end is worth in r.
    let mut first = r;
    let mut place_value = 1;
    while first > gates {
        first = (first - 1) / gates;
        place_value *= gates;
    }
    r - first * place_value
}

/// The rank, without its last gate, of the circuit with rank r.
pub fn drop_last_rank(r: u64, b: Bounds) -> u64
    requires some_gate { 0 < r }
    requires listed { r < length (all_circuits b) }
    ensures rank { result ≡ rank b (without_last (circuit_at b r)) }
    ensures circuit { circuit_at b result ≡ without_last (circuit_at b r) }
    ensures listed { result < length (all_circuits b) }
    ensures earlier { result < r }
{
    (r - 1) / b.gates()
}

/// The circuit with this rank.
pub fn unrank(alloc: Global, r: u64, b: Bounds) -> Result<Vec<Op>, Memory>
    requires { r < length (all_circuits b) }
    ensures circuit { IfOk result (λ c. c.items ≡ circuit_at b r) }
    ensures within { IfOk result (λ c. Within b c.items) }
    ensures rank { IfOk result (λ c. rank b c.items ≡ r) }
{
    let Ok(mut circuit) = Vec::with_capacity(alloc, length_of(r, b) as usize) else {
        return Err(Memory);
    };
    let gates = b.gates();
    let mut rest = r;
    while rest > 0 {
        let last = (rest - 1) % gates;
        rest = (rest - 1) / gates;
        circuit.push_reserved(op_of(last, b).unwrap());
    }
    circuit.reverse();
    Ok(circuit)
}
