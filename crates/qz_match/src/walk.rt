//! Walks over the gates of a left side along its qubits, and which rules are usable.
ghost use Rattle.std.specs.Prelude.{◌≡◌, ℕ, ◌+◌, ◌<◌, ◌≤◌, ◌&&◌, Bool, true, false, [], ◌∷◌, length, nat_lt, Option, Some, IfSome, MatchOption, slice_index_or, take};
ghost use Rattle.std.specs.List.{list_all, list_any, flat_map, slice_get};
ghost use Rattle.std.specs.Option.{is_some};
ghost use Rattle.qz_circ.specs.Circuit.{IsOn};
ghost use Rattle.qz_circ.specs.Places.{rule_qubits_of, params_of, is_listed, is_connected, is_usable};
ghost use Rattle.qz_match.specs.Neighbours.{AreNeighbours};
ghost use Rattle.qz_match.specs.Walks.{acts_on, acts_at, rule_gate_at, IsStep, IsWalk, AgreesUpTo, AgreesAt, LeadsOn};

use qz_circ::{Expr, Op};
use std::marker::Model;

/// A step of a walk: from a gate of a left side to the nearest one on one of its qubits.
#[derive(Clone, Copy, Debug, PartialEq, Eq)]
pub struct Step {
    /// The position that it starts at.
    pub from: usize,
    /// Which operand of the gate there has the qubit, from 0 on; a control is the first.
    pub operand: usize,
    /// It leads to a later gate.
    pub forward: bool,
    /// The position that it leads to.
    pub to: usize,
}

/// A walk from the first gate of a left side to all others. It is made once for a rule and serves all programs.
#[derive(Drop)]
pub struct Walk {
    found: [Step; 5],
    count: usize,
}

impl Model for Walk {
    ghost use Rattle.std.specs.Prelude.{List, take, ◌≤◌};
    ghost use Rattle.qz_match.specs.declared.walk.Step.{Step};

    ghost Value = { List Step };

    ghost view = { λ w. take w.count w.found };

    ghost invariant = { λ w. w.count ≤ 5 };
}

impl Walk {
    /// A walk, where there is one: where left isn't empty and is connected.
    pub fn of(left: &[Op]) -> Option<Walk>
        requires short { length left.now ≤ 6 }
        ensures walk { IfSome result (λ w. IsWalk left.now w) }
        ensures connected { is_some result ≡ (nat_lt 0 (length left.now) && is_connected left.now) }
    {
        if left.is_empty() {
            return None;
        }
        let mut seen = [true, false, false, false, false, false];
        let mut found = [Step {
            from: 0,
            operand: 0,
            forward: true,
            to: 0,
        }; 5];
        let mut count = 0;
        while !are_seen(&seen, left.len()) {
            let step = next_step(left, &seen)?;
            found[count] = step;
            count += 1;
            seen[step.to] = true;
        }
        Some(Walk { found, count })
    }

    // The steps in order.
    pub(crate) fn steps(&self) -> &[Step]
        ensures same { result.now ≡ self.now }
        ensures few { length result.now ≤ 5 }
    {
        &self.found[..self.count]
    }
}

// The first n gates are seen.
fn are_seen(seen: &[bool; 6], n: usize) -> bool
    requires { n ≤ 6 }
    ensures { result ≡ list_all (λ b. b) (take n seen.now) }
{
    seen[..n].iter().all(|b| *b)
}

// The gate of a rule is on the qubit.
pub(crate) fn acts(f: Op, s: u8) -> bool
    ensures { result ≡ acts_on s f }
{
    match f {
        Op::H(t) | Op::X(t) | Op::Rz(t, _) => t == s,
        Op::Cx(c, t) => c == s || t == s,
    }
}

// The qubit of an operand, if the gate has it.
fn qubit(f: Op, operand: usize) -> Option<u8>
    ensures { result ≡ slice_get (rule_qubits_of f) operand }
{
    match f {
        Op::H(t) | Op::X(t) | Op::Rz(t, _) => { if operand == 0 { Some(t) } else { None } }
        Op::Cx(c, t) => {
            if operand == 0 {
                Some(c)
            } else if operand == 1 {
                Some(t)
            } else {
                None
            }
        }
    }
}

// The operand of a gate that has the qubit.
fn operand_on(f: Op, s: u8) -> usize
    requires { acts_on s f ≡ true }
    ensures { slice_get (rule_qubits_of f) result ≡ Some s }
{
    match f {
        Op::H(_) | Op::X(_) | Op::Rz(_, _) => 0,
        Op::Cx(c, _) => if c == s { 0 } else { 1 },
    }
}

// The last gate before j that is on the qubit.
fn last_before(left: &[Op], j: usize, s: u8) -> Option<usize>
    requires within { j < length left.now }
    requires on { acts_at left.now s j ≡ true }
    ensures { MatchOption result ((i : ℕ) → AreNeighbours (acts_at left.now s) (length left.now) i j → ⊥) (λ i. AreNeighbours (acts_at left.now s) (length left.now) i j) }
{
    let mut i = j;
    while i > 0 {
        i -= 1;
        if acts(left[i], s) {
            return Some(i);
        }
    }
    None
}

// A step between the gate at j and the one before it on the qubit of an operand, where only one of the two is seen.
fn step_on(left: &[Op], seen: &[bool; 6], j: usize, operand: usize) -> Option<Step>
    requires short { length left.now ≤ 6 }
    requires within { j < length left.now }
    ensures { MatchOption result (AgreesAt left.now seen.now j operand) (λ step. LeadsOn left.now seen.now step) }
{
    let s = qubit(left[j], operand)?;
    let i = last_before(left, j, s)?;
    if seen[i] == seen[j] {
        return None;
    }
    if seen[i] {
        Some(Step {
            from: i,
            operand: operand_on(left[i], s),
            forward: true,
            to: j,
        })
    } else {
        Some(Step {
            from: j,
            operand,
            forward: false,
            to: i,
        })
    }
}

// A step between the gate at j and one before it, where only one of the two is seen.
fn step_at(left: &[Op], seen: &[bool; 6], j: usize) -> Option<Step>
    requires short { length left.now ≤ 6 }
    requires within { j < length left.now }
    ensures { MatchOption result (AgreesAt left.now seen.now j 0 × AgreesAt left.now seen.now j 1) (λ step. LeadsOn left.now seen.now step) }
{
    match step_on(left, seen, j, 0) {
        Some(step) => Some(step),
        None => step_on(left, seen, j, 1),
    }
}

// A step from a gate that is seen to one that isn't.
fn next_step(left: &[Op], seen: &[bool; 6]) -> Option<Step>
    requires { length left.now ≤ 6 }
    ensures { MatchOption result (AgreesUpTo left.now seen.now (length left.now)) (λ step. LeadsOn left.now seen.now step) }
{
    for j in 0..left.len() {
        match step_at(left, seen, j) {
            Some(step) => return Some(step),
            None => {}
        }
    }
    None
}
