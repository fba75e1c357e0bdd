//! Replacing gates of a program by the instance of a rule's right side.
ghost use Rattle.std.specs.Prelude.{◌≡◌, ℕ, ◌≤◌, [], ◌∷◌, length, Contains, List, IfOk};
ghost use Rattle.std.specs.List.{AllByRecursion};
ghost use Rattle.qz_circ.specs.Circuit.{IsOn};
ghost use Rattle.qz_circ.specs.Equivalence.{Equivalent};
ghost use Rattle.qz_circ.specs.Gathering.{replaced_at};
ghost use Rattle.qz_circ.specs.Places.{places};
ghost use Rattle.qz_circ.specs.ProgramCircuits.{IsProgramGate, IsProgramCircuit, EquivalentProgramCircuits};
ghost use Rattle.qz_circ.specs.Replacement.{replaced};

use crate::sides::Sides;
use qz_circ::{Inst, Memory, Op};
use qz_match::Place;
use qz_subst::instance;
use std::alloc::{AllocError, Global};

// The first position, or the end of the program if it comes before it; 0 where there is none.
fn first_position(c: &[Inst], positions: &[u64]) -> usize
    ensures within { result ≤ length c.now }
    ensures none { positions.now ≡ [] → result ≡ 0 }
    ensures first { (p : ℕ) (rest : List ℕ) → positions.now ≡ p ∷ rest → result ≤ p }
{
    match positions.first() {
        Some(p) => c.len().min(*p as usize),
        None => 0,
    }
}

// The program with new gates in place of those at the positions.
fn replaced_at(
    alloc: Global,
    c: &[Inst],
    positions: &[u64],
    new: &[Inst],
) -> Result<Vec<Inst>, AllocError>
    requires { AllByRecursion (IsProgramGate 64) c.now }
    ensures { IfOk result (λ out. out.items ≡ replaced_at positions.now new.now c.now) }
{
    let first = first_position(c, positions);
    let mut sides = Sides::start(alloc, &c[..first], c.len() + new.len(), c.len() - first)?;
    let end = sides.sort(c, positions, first)?;
    let out = sides.join(new, &c[end..])?;
    Ok(out)
}

/// The program with the instance of a rule's right side in place of the gates at one of the rule's places: the gates before the
/// first position, those that come before the left side, the instance, the gates that come after the left side, and those behind
/// the last position.
pub fn replace(
    alloc: Global,
    c: &[Inst],
    left: &[Op],
    right: &[Op],
    place: &Place,
) -> Result<Vec<Inst>, Memory>
    requires gates { AllByRecursion (IsProgramGate 64) c.now }
    requires left { IsOn 3 3 left.now }
    requires right { IsOn 3 3 right.now }
    requires place { Contains (places left.now right.now c.now) place.now }
    ensures replaced { IfOk result (λ out. out.items ≡ replaced c.now right.now place.now) }
    ensures gates { IfOk result (λ out. (q : ℕ) → IsProgramCircuit q c.now → IsProgramCircuit q out.items) }
    ensures equivalent { IfOk result (λ out. (q : ℕ) → IsProgramCircuit q c.now → Equivalent 3 left.now right.now → EquivalentProgramCircuits q c.now out.items) }
{
    let new = instance(alloc, right, &place.binding())?;
    match replaced_at(alloc, c, place.positions(), new.as_slice()) {
        Ok(out) => Ok(out),
        Err(_) => Err(Memory),
    }
}
