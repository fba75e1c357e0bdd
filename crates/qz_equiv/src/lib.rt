//! Exact equivalence of circuits, with up to three parameters.
//!
//! Two circuits are equivalent when their matrices are equal up to a monomial of absolute value 1. A matrix owes a
//! factor 1/√2 for each H, so the one with fewer H is multiplied by √2 for each H that it has fewer. A monomial that
//! takes one matrix to the other takes an exponent of one entry to an exponent of the same entry, up to a sign, so
//! there are few to try.
#![tactic(auto)]

ghost use Rattle.std.specs.Prelude.{◌≡◌, ◌↔◌, ◌+◌, ◌≤◌, length, IsTrue, IfOk};
ghost use Rattle.qz_circ.specs.Circuit.{Circuit, IsOn};
ghost use Rattle.qz_circ.specs.Equivalence.{Equivalent};
ghost use Rattle.qz_matrix.specs.Entries.{StandsFor};

use crate::phase::same_up_to_phase;
use qz_circ::{Memory, Op, Steps};
use qz_matrix::Matrix;
use std::alloc::Global;
use std::sync::ledger::Ledger;

mod phase;
mod roots;
pub mod worked_values;
mod zeros;

// Whether the circuits that two matrices stand for are equivalent. The matrix with fewer H is the one that is multiplied.
fn same_in_order(x: &Matrix, y: &Matrix) -> Result<bool, qz_ring::Memory>
    requires qubits { y.now.q ≡ x.now.q }
    requires few { x.now.gates + y.now.gates ≤ 100 }
    ensures { IfOk result (λ same. (a c : Circuit) → StandsFor x.now a → StandsFor y.now c → (IsTrue same ↔ Equivalent x.now.q a c)) }
{
    if x.halves() < y.halves() {
        let same = same_up_to_phase(y, x)?;
        return Ok(same);
    }
    let same = same_up_to_phase(x, y)?;
    Ok(same)
}

/// Whether the circuits that two matrices on the same qubits stand for are equivalent, up to a phase that may hold
/// parameters. They have at most 100 gates together. Counts one step, also where memory runs out.
pub fn decide_matrices<L: Ledger>(
    x: &Matrix,
    y: &Matrix,
    steps: &mut Steps<L>,
) -> Result<bool, Memory>
    requires qubits { y.now.q ≡ x.now.q }
    requires few { x.now.gates + y.now.gates ≤ 100 }
    ensures exact { IfOk result (λ same. (a c : Circuit) → StandsFor x.now a → StandsFor y.now c → (IsTrue same ↔ Equivalent x.now.q a c)) }
    ensures ticks { steps.new ≡ steps.old + 1 }
{
    steps.tick();
    match same_in_order(x, y) {
        Ok(same) => Ok(same),
        Err(_) => Err(Memory),
    }
}

/// Whether two circuits are equivalent on q qubits, with q from 1 to 3, up to a phase that may hold parameters. They have at
/// most 100 gates together. These are on qubits below q, the two of a CX different, and have no parameters but 0, 1 and 2,
/// the two of a sum different. Counts one step, also where memory runs out.
pub fn decide<L: Ledger>(
    alloc: Global,
    a: &[Op],
    c: &[Op],
    q: u64,
    steps: &mut Steps<L>,
) -> Result<bool, Memory>
    requires qubits { (1 ≤ q) × (q ≤ 3) }
    requires first { IsOn q 3 a.now }
    requires second { IsOn q 3 c.now }
    requires short { length a.now + length c.now ≤ 100 }
    ensures exact { IfOk result (λ same. IsTrue same ↔ Equivalent q a.now c.now) }
    ensures ticks { steps.new ≡ steps.old + 1 }
{
    let Ok(first) = Matrix::of(alloc, a, q) else {
        steps.tick();
        return Err(Memory);
    };
    let Ok(second) = Matrix::of(alloc, c, q) else {
        steps.tick();
        return Err(Memory);
    };
    decide_matrices(&first, &second, steps)
}
