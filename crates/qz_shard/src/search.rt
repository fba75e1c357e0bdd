//! The class of a circuit among those with its fingerprint.
ghost use Rattle.std.specs.Prelude.{◌≡◌, ◌↔◌, ◌+◌, ◌<◌, ◌≤◌, ◌==◌, nat_eq, length, count_by, take, slice_index, All, IsTrue, IfOk};
ghost use Rattle.indexmap.specs.IndexMap.{get};
ghost use Rattle.qz_circ.specs.Circuit.{Circuit};
ghost use Rattle.qz_circ.specs.Equivalence.{Equivalent};
ghost use Rattle.qz_circ.specs.Order.{all_circuits, circuit_at};
ghost use Rattle.qz_matrix.specs.Entries.{StandsFor};
ghost use Rattle.qz_shard.specs.Held.{prints_in, members_in, AreLinked, HasMembers, IsLastBelow, IsClassUpTo, IsClassWith};

use crate::class::{Arrival, Class};
use indexmap::IndexMap;
use qz_circ::{Bounds, Memory, Steps, unrank};
use qz_equiv::decide_matrices;
use qz_matrix::Matrix;
use std::alloc::Global;
use std::sync::ledger::Ledger;

// The matrix of the circuit with this rank.
fn matrix_of(alloc: Global, b: Bounds, r: u64) -> Result<Matrix, Memory>
    requires { r < length (all_circuits b) }
    ensures qubits { IfOk result (λ m. m.q ≡ b.q) }
    ensures few { IfOk result (λ m. m.gates ≤ 6) }
    ensures stands { IfOk result (λ m. StandsFor m (circuit_at b r)) }
{
    let circuit = unrank(alloc, r, b)?;
    let matrix = Matrix::of(alloc, &circuit, b.q())?;
    Ok(matrix)
}

// Whether a circuit, of which this is the matrix, is equivalent to the one with this rank. Counts at most one step.
fn is_equivalent_to<L: Ledger>(
    alloc: Global,
    b: Bounds,
    candidate: &Matrix,
    r: u64,
    steps: &mut Steps<L>,
) -> Result<bool, Memory>
    requires qubits { candidate.now.q ≡ b.q }
    requires few { candidate.now.gates ≤ 6 }
    requires rank { r < length (all_circuits b) }
    ensures exact { IfOk result (λ same. (c : Circuit) → StandsFor candidate.now c → (IsTrue same ↔ Equivalent b.q c (circuit_at b r))) }
    ensures kept { steps.old ≤ steps.new }
    ensures counted { steps.new ≤ steps.old + 1 }
{
    let other = matrix_of(alloc, b, r)?;
    decide_matrices(candidate, &other, steps)
}

// The class whose circuits are equivalent to the one with rank r, among a class and the earlier ones with its fingerprint. The
// last ones are asked first, each at most once.
fn find_from<L: Ledger>(
    alloc: Global,
    b: Bounds,
    classes: &[Class],
    last: usize,
    r: u64,
    steps: &mut Steps<L>,
) -> Result<Option<usize>, Memory>
    requires rank { r < length (all_circuits b) }
    requires members { All (HasMembers b) (members_in classes.now) }
    requires linked { AreLinked classes.now }
    requires within { last < length classes.now }
    ensures found { IfOk result (IsClassUpTo b classes.now last r) }
    ensures kept { steps.old ≤ steps.new }
    ensures counted { steps.new ≤ steps.old + count_by (λ p. p == slice_index (prints_in classes.now) last) (take (last + 1) (prints_in classes.now)) }
{
    let candidate = matrix_of(alloc, b, r)?;
    let mut at = Some(last);
    while let Some(k) = at {
        let class = &classes[k];
        let same = is_equivalent_to(alloc, b, &candidate, class.first(), steps)?;
        if same {
            return Ok(Some(k));
        }
        at = class.before;
    }
    Ok(None)
}

// The class whose circuits are equivalent to the one that comes, among those with its fingerprint. No class is asked twice, and
// none with another fingerprint.
pub(crate) fn find_class<L: Ledger>(
    alloc: Global,
    b: Bounds,
    classes: &[Class],
    newest: &IndexMap<u64, usize>,
    new: Arrival,
    steps: &mut Steps<L>,
) -> Result<Option<usize>, Memory>
    requires rank { new.rank < length (all_circuits b) }
    requires members { All (HasMembers b) (members_in classes.now) }
    requires linked { AreLinked classes.now }
    requires newest { IsLastBelow (prints_in classes.now) new.print (length classes.now) (get nat_eq newest.now new.print) }
    ensures found { IfOk result (IsClassWith b classes.now new.print new.rank) }
    ensures kept { steps.old ≤ steps.new }
    ensures counted { steps.new ≤ steps.old + count_by (λ p. p == new.print) (prints_in classes.now) }
{
    match newest.get(&new.print) {
        Some(last) => find_from(alloc, b, classes, *last, new.rank, steps),
        None => Ok(None),
    }
}
