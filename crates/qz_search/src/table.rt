//! A table of the rules whose children differ: of rules that differ in the names of their qubits alone there is one. Rules with
//! the same left side stand together, so that its places are looked for once.
ghost use Rattle.std.specs.Prelude.{◌≡◌, ℕ, ◌≤◌, ◌↔◌, ◌++◌, ◌∷◌, [], List, length, Contains, IsTrue, IfOk, OnOk, MatchOption};
ghost use Rattle.std.specs.List.{AllByRecursion};
ghost use Rattle.qz_circ.specs.Circuit.{Circuit};
ghost use Rattle.qz_circ.specs.ProgramCircuits.{ProgramCircuit};
ghost use Rattle.qz_search.specs.declared.table.Side.{Side};
ghost use Rattle.qz_search.specs.Tables.{IsTable, IsSide, IsTwinTaken, AreTwinsTaken, AreAlike, children_of_all, children_of};

use crate::circuits::are_same;
use qz_circ::{Memory, Op, prec};
use qz_match::Walk;
use std::alloc::Global;

// A left side: a walk over it, and the numbers of its right sides.
#[derive(Drop)]
pub(crate) struct Side {
    pub(crate) left: Vec<Op>,
    pub(crate) walk: Walk,
    pub(crate) rights: Vec<usize>,
}

// The last side has this left side.
fn ends_with(sides: &[Side], left: &[Op]) -> bool
    ensures { IsTrue result → (rest : List Side) (side : Side) → sides.now ≡ rest ++ side ∷ [] → side.left.items ≡ left.now }
{
    match sides.last() {
        Some(side) => are_same(&side.left, left),
        None => false,
    }
}

// Takes the last side, where that has this left side, and gives its right sides.
fn take_twin(sides: &mut Vec<Side>, left: &[Op]) -> Option<Vec<usize>>
    ensures { MatchOption result (sides.new.items ≡ sides.old.items) (λ rights. IsTwinTaken left.now rights.items sides.old.items sides.new.items) }
{
    if !ends_with(sides, left) {
        return None;
    }
    let side = sides.pop()?;
    Some(side.rights)
}

// Moves the right sides of the last sides with this left side behind others.
fn take_twins(sides: &mut Vec<Side>, left: &[Op], rights: &mut Vec<usize>) -> Result<(), Memory>
    ensures { OnOk result (AreTwinsTaken left.now rights.old.items rights.new.items sides.old.items sides.new.items) }
{
    for _ in 0..sides.len() {
        match take_twin(sides, left) {
            Some(more) => add_all(rights, more)?,
            None => return Ok(()),
        }
    }
    Ok(())
}

// Puts numbers behind others.
fn add_all(rights: &mut Vec<usize>, more: Vec<usize>) -> Result<(), Memory>
    ensures { OnOk result (rights.new.items ≡ rights.old.items ++ more.items) }
{
    let mut last = more;
    rights.append(&mut last).map_err(|_| Memory)
}

// The numbers in order, each once.
fn sorted(rights: Vec<usize>) -> Vec<usize>
    ensures { (k : ℕ) → Contains result.items k ↔ Contains rights.items k }
{
    let mut once = rights;
    once.sort_unstable();
    once.dedup();
    once
}

// The side with the right sides of the last ones that have its left side too.
fn joined(side: Side, sides: &mut Vec<Side>) -> Result<Side, Memory>
    ensures rest { (circuits : List Circuit) → AllByRecursion (IsSide circuits) (sides.old.items ++ side ∷ []) → OnOk result (AllByRecursion (IsSide circuits) sides.new.items) }
    ensures side { (circuits : List Circuit) → AllByRecursion (IsSide circuits) (sides.old.items ++ side ∷ []) → IfOk result (λ whole. IsSide circuits whole) }
    ensures alike { (circuits : List Circuit) → IfOk result (λ whole. AreAlike (λ c. children_of_all circuits sides.old.items c ++ children_of circuits side c) (λ c. children_of_all circuits sides.new.items c ++ children_of circuits whole c)) }
    ensures fewer { OnOk result (length sides.new.items ≤ length sides.old.items) }
{
    let left = side.left;
    let mut rights = side.rights;
    take_twins(sides, &left, &mut rights)?;
    Ok(Side {
        left,
        walk: side.walk,
        rights: sorted(rights),
    })
}

// Sides by which programs become the same ones, no two with one left side.
pub(crate) fn table_of(alloc: Global, sides: Vec<Side>) -> Result<Vec<Side>, Memory>
    ensures { (circuits : List Circuit) (children : ProgramCircuit → List ProgramCircuit) → IsTable circuits sides.items children → IfOk result (λ table. IsTable circuits table.items children) }
{
    let mut rest = sides;
    rest.sort_unstable_by(|a, b| prec(&a.left, &b.left));
    let mut table = Vec::new(alloc);
    while let Some(side) = rest.pop() {
        if table.push(joined(side, &mut rest)?).is_err() {
            return Err(Memory);
        }
    }
    Ok(table)
}
