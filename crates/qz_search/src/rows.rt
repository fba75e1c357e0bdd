//! The rules of a class as left sides with their right sides, their qubits renamed.
ghost use Rattle.std.specs.Prelude.{◌≡◌, ℕ, ◌<◌, ◌≤◌, [], ◌++◌, ◌&&◌, true, nat_lt, List, length, IfOk, OnOk};
ghost use Rattle.qz_circ.specs.Circuit.{IsOn, below};
ghost use Rattle.qz_circ.specs.Places.{is_connected};
ghost use Rattle.qz_circ.specs.ProgramCircuits.{ProgramCircuit};
ghost use Rattle.qz_circ.specs.Replacement.{numbered, children_in};
ghost use Rattle.qz_circ.specs.Vectors.{lists_of};
ghost use Rattle.qz_search.specs.Circuits.{IsLonger};
ghost use Rattle.qz_search.specs.Classes.{AreRuleSides, children_of_some, children_with};
ghost use Rattle.qz_search.specs.Renamings.{circuit_by};
ghost use Rattle.qz_search.specs.Tables.{IsTable, AreRights, IsRightAdded};

use crate::circuits::Circuits;
use crate::renaming::Renaming;
use crate::table::Side;
use qz_circ::{Memory, Op};
use qz_match::{Walk, covers};
use std::alloc::Global;

// Circuits with numbers, and left sides with the numbers of their right sides.
#[derive(Drop)]
pub(crate) struct Rows {
    pub(crate) circuits: Circuits,
    pub(crate) sides: Vec<Side>,
}

// Adds the number of a right side, where it is usable with a left side over which there is a walk.
fn add_right(
    left: &[Op],
    right: Vec<Op>,
    circuits: &mut Circuits,
    rights: &mut Vec<usize>,
) -> Result<(), Memory>
    requires left_on { IsOn 3 3 left.now }
    requires left_short { length left.now ≤ 6 }
    requires walked { true ≡ (nat_lt 0 (length left.now) && is_connected left.now) }
    requires right_on { IsOn 3 3 right.items }
    requires right_short { length right.items ≤ 6 }
    ensures { OnOk result (IsRightAdded left.now right.items circuits.old circuits.new rights.old.items rights.new.items) }
{
    if !covers(left, &right) {
        return Ok(());
    }
    let k = circuits.number(right)?;
    if rights.push(k).is_err() {
        return Err(Memory);
    }
    Ok(())
}

// The right sides of the member with number i, with the same renaming as that.
fn rights_of(
    alloc: Global,
    members: &[Vec<Op>],
    i: usize,
    names: Renaming,
    left: &[Op],
    circuits: &mut Circuits,
) -> Result<Vec<usize>, Memory>
    requires within { i < length members.now }
    requires fit { AreRuleSides (lists_of members.now) }
    requires left { left.now ≡ circuit_by names (numbered (lists_of members.now) i) }
    requires walked { true ≡ (nat_lt 0 (length left.now) && is_connected left.now) }
    ensures longer { OnOk result (IsLonger circuits.old circuits.new) }
    ensures rights { IfOk result (λ rights. AreRights circuits.new left.now rights.items (children_of_some (lists_of members.now) i (below (length members.now)))) }
{
    let mut rights = Vec::new(alloc);
    for j in 0..members.len() {
        if j != i {
            let right = names.circuit(alloc, &members[j])?;
            add_right(left, right, circuits, &mut rights)?;
        }
    }
    Ok(rights)
}

impl Rows {
    // No rules.
    pub(crate) fn new(alloc: Global) -> Rows
        ensures { IsTable result.circuits result.sides.items (λ c. []) }
    {
        Rows {
            circuits: Circuits::new(alloc),
            sides: Vec::new(alloc),
        }
    }

    // Adds the rules with the member with number i as their left side.
    fn add_row(&mut self, alloc: Global, members: &[Vec<Op>], i: usize) -> Result<(), Memory>
        requires within { i < length members.now }
        requires fit { AreRuleSides (lists_of members.now) }
        ensures { (before : ProgramCircuit → List ProgramCircuit) → IsTable self.old.circuits self.old.sides.items before → OnOk result (IsTable self.new.circuits self.new.sides.items (λ c. before c ++ children_with (lists_of members.now) i c)) }
    {
        let names = Renaming::of(&members[i]);
        let left = names.circuit(alloc, &members[i])?;
        let walk = match Walk::of(&left) {
            Some(walk) => walk,
            None => return Ok(()),
        };
        let rights = rights_of(alloc, members, i, names, &left, &mut self.circuits)?;
        let side = Side { left, walk, rights };
        if self.sides.push(side).is_err() {
            return Err(Memory);
        }
        Ok(())
    }

    // Adds the rules of a class.
    pub(crate) fn add_class(&mut self, alloc: Global, members: &[Vec<Op>]) -> Result<(), Memory>
        requires { AreRuleSides (lists_of members.now) }
        ensures { (before : ProgramCircuit → List ProgramCircuit) → IsTable self.old.circuits self.old.sides.items before → OnOk result (IsTable self.new.circuits self.new.sides.items (λ c. before c ++ children_in (lists_of members.now) c)) }
    {
        for i in 0..members.len() {
            self.add_row(alloc, members, i)?;
        }
        Ok(())
    }
}
