//! The places of a left side, by their first positions.
ghost use Rattle.std.specs.Prelude.{◌≡◌, ◌≢◌, ◌+◌, ◌<◌, ◌≤◌, false, [], ◌∷◌, ◌++◌, length, take, Option, Some, None, IfOk, OnOk, if◌then◌else◌};
ghost use Rattle.std.specs.List.{AllByRecursion, flat_map};
ghost use Rattle.std.specs.Option.{option_to_list};
ghost use Rattle.qz_circ.specs.Circuit.{ActsBelow, HasBelow, IsOn, below};
ghost use Rattle.qz_circ.specs.ProgramCircuits.{IsProgramGate};
ghost use Rattle.qz_circ.specs.Places.{all_places, places};
ghost use Rattle.qz_match.specs.Neighbours.{AreLinksOf, AreNeighboursOf};
ghost use Rattle.qz_match.specs.Walks.{IsWalk};
ghost use Rattle.qz_match.specs.Starts.{may_have, is_alike, rises, tested, starting, AreOnly};
ghost use Rattle.qz_match.specs.Words.{AreReached};
ghost use Rattle.qz_circ.specs.ProgramLimits.{most_qubits};

use crate::bind::bound_at;
use crate::gather::gather_at;
use crate::neighbours::Neighbours;
use crate::place::Place;
use crate::rows::Cursor;
use crate::walk::Walk;
use qz_circ::{Expr, Inst, Memory, Op, constant_turn};
use std::alloc::Global;

// The angle may have the value k.
#[inline(always)]
fn may_have(e: Expr, k: u16) -> bool
    ensures { result ≡ may_have e k }
{
    match e {
        Expr::Const(t) => constant_turn(t) == k,
        Expr::Plus(_) | Expr::Minus(_) | Expr::Sum(_, _) => true,
    }
}

// The gates are of one kind, and the angle of a rotation may be that of the other.
#[inline(always)]
pub(crate) fn are_alike(f: Op, g: Inst) -> bool
    ensures { result ≡ is_alike f g }
{
    match (f, g) {
        (Op::H(_), Inst::H(_)) | (Op::X(_), Inst::X(_)) | (Op::Cx(_, _), Inst::Cx(_, _)) => true,
        (Op::Rz(_, e), Inst::Rz(_, k)) => may_have(e, k),
        _ => false,
    }
}

// The only positions from p on at which the left side may stand, found along the qubits from its first gate.
fn candidate(
    left: &[Op],
    c: &[Inst],
    walk: &Walk,
    neighbours: &Neighbours,
    p: usize,
) -> Option<[usize; 6]>
    requires short { length left.now ≤ 6 }
    requires some { 0 < length left.now }
    requires on { IsOn 3 3 left.now }
    requires lawful { AllByRecursion (IsProgramGate most_qubits) c.now }
    requires walk { IsWalk left.now walk.now }
    requires links { AreLinksOf c.now neighbours.now.links }
    requires within { p < length c.now }
    ensures { AreOnly left.now c.now p result }
{
    let mut found = [p; 6];
    let steps = walk.steps();
    for step in steps {
        let next = neighbours.beside(found[step.from], step.operand, step.forward)?;
        if next >= c.len() {
            return None;
        }
        if !are_alike(left[step.to], c[next]) {
            return None;
        }
        found[step.to] = next;
    }
    Some(found)
}

// The positions rise and are below m.
fn are_rising(positions: &[usize], m: usize) -> bool
    ensures { result ≡ rises 0 m positions.now }
{
    let mut low = 0;
    for p in positions {
        if *p < low {
            return false;
        }
        if *p >= m {
            return false;
        }
        low = *p + 1;
    }
    true
}

// The place at the first positions, if they are one.
fn tested_at(left: &[Op], c: &[Inst], found: &[usize; 6]) -> Option<Place>
    requires short { length left.now ≤ 6 }
    requires some { 0 < length left.now }
    requires on { IsOn 3 3 left.now }
    requires lawful { AllByRecursion (IsProgramGate most_qubits) c.now }
    ensures { result ≡ tested left.now c.now (take (length left.now) found.now) }
{
    let count = left.len();
    if !are_rising(&found[..count], c.len()) {
        return None;
    }
    let binding = bound_at(left, c, found)?;
    if !gather_at(c, found, count) {
        return None;
    }
    Some(Place::new(found, count, binding))
}

// The only positions from the first one on at which the left side may stand, by those to which its words lead.
fn arranged(left: &[Op], walk: &Walk, c: &[Inst], cursor: &Cursor) -> [usize; 6]
    requires short { length left.now ≤ 6 }
    requires some { 0 < length left.now }
    requires on { IsOn 3 3 left.now }
    requires lawful { AllByRecursion (IsProgramGate most_qubits) c.now }
    requires walk { IsWalk left.now walk.now }
    requires reached { AreReached left.now walk.now c.now cursor.now.first cursor.now.found }
    ensures { AreOnly left.now c.now cursor.now.first (Some result) }
{
    let mut positions = [cursor.first; 6];
    let steps = walk.steps();
    for k in 0..steps.len() {
        positions[steps[k].to] = cursor.found[k + 1];
    }
    positions
}

/// The place that begins where a table of left sides is asked, of one whose words all lead somewhere, if there is one.
pub fn place_found(left: &[Op], walk: &Walk, c: &[Inst], cursor: &Cursor) -> Option<Place>
    requires short { length left.now ≤ 6 }
    requires some { 0 < length left.now }
    requires on { IsOn 3 3 left.now }
    requires lawful { AllByRecursion (IsProgramGate most_qubits) c.now }
    requires walk { IsWalk left.now walk.now }
    requires reached { AreReached left.now walk.now c.now cursor.now.first cursor.now.found }
    requires within { cursor.now.first < length c.now }
    ensures { option_to_list result ≡ starting left.now c.now cursor.now.first }
{
    tested_at(left, c, &arranged(left, walk, c, cursor))
}

// The place that begins at p, if there is one.
#[inline(never)]
fn place_from(
    left: &[Op],
    c: &[Inst],
    walk: &Walk,
    neighbours: &Neighbours,
    p: usize,
) -> Option<Place>
    requires short { length left.now ≤ 6 }
    requires some { 0 < length left.now }
    requires on { IsOn 3 3 left.now }
    requires lawful { AllByRecursion (IsProgramGate most_qubits) c.now }
    requires walk { IsWalk left.now walk.now }
    requires links { AreLinksOf c.now neighbours.now.links }
    requires within { p < length c.now }
    ensures { option_to_list result ≡ starting left.now c.now p }
{
    let found = candidate(left, c, walk, neighbours, p)?;
    tested_at(left, c, &found)
}

// Adds the place that begins at p, if there is one. Most gates are no first gate of the left side, so this is tested before all
// else.
#[inline(always)]
fn add_from(
    found: &mut Vec<Place>,
    left: &[Op],
    c: &[Inst],
    walk: &Walk,
    neighbours: &Neighbours,
    p: usize,
) -> Result<(), Memory>
    requires short { length left.now ≤ 6 }
    requires some { 0 < length left.now }
    requires on { IsOn 3 3 left.now }
    requires lawful { AllByRecursion (IsProgramGate most_qubits) c.now }
    requires walk { IsWalk left.now walk.now }
    requires links { AreLinksOf c.now neighbours.now.links }
    requires within { p < length c.now }
    ensures { OnOk result (found.new.items ≡ found.old.items ++ starting left.now c.now p) }
{
    if !are_alike(left[0], c[p]) {
        return Ok(());
    }
    match place_from(left, c, walk, neighbours, p) {
        Some(place) => found.push(place).map_err(|_| Memory),
        None => Ok(()),
    }
}

/// The places of a left side alone, by their positions in rising order, from a walk over it and the links of the program. It
/// takes a time about linear in the number of gates, and no memory but for the list.
pub fn places_of(
    alloc: Global,
    left: &[Op],
    walk: &Walk,
    c: &[Inst],
    neighbours: &Neighbours,
) -> Result<Vec<Place>, Memory>
    requires short { length left.now ≤ 6 }
    requires some { 0 < length left.now }
    requires on { IsOn 3 3 left.now }
    requires lawful { AllByRecursion (IsProgramGate most_qubits) c.now }
    requires walk { IsWalk left.now walk.now }
    requires links { AreNeighboursOf c.now neighbours.now }
    ensures { IfOk result (λ found. found.items ≡ all_places left.now c.now) }
{
    if neighbours.lack_some(left) {
        return Ok(Vec::new(alloc));
    }
    let mut found = Vec::new(alloc);
    for p in 0..c.len() {
        add_from(&mut found, left, c, walk, neighbours, p)?;
    }
    Ok(found)
}
