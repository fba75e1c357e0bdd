//! Whether the members of classes are equivalent to the first ones.
ghost use Rattle.std.specs.Prelude.{◌≡◌, ◌<◌, ◌≤◌, length, IfOk, IfSome};
ghost use Rattle.qz_circ.specs.RuleFiles.{IsUnsoundness, numbered_class, numbered_member};
ghost use Rattle.qz_matrix.specs.Entries.{StandsFor};
ghost use Rattle.qz_rulefile.specs.Soundness.{IsUnsoundIn};

use crate::rank_lists::RankLists;
use qz_circ::{Memory, Steps};
use qz_equiv::decide_matrices;
use qz_matrix::Matrix;
use std::alloc::Global;
use std::marker::Brand;
use std::sync::ledger::{Blank, Ledger};

// The matrix of the member with number k of the class with number c. Both are counted from 0.
fn matrix_of(alloc: Global, lists: &RankLists, c: u64, k: u64) -> Result<Matrix, Memory>
    requires in_classes { c < length lists.now.classes }
    requires in_class { k < length (numbered_class lists.now.classes c) }
    ensures qubits { IfOk result (λ m. m.q ≡ lists.now.bounds.q) }
    ensures few { IfOk result (λ m. m.gates ≤ 6) }
    ensures stands { IfOk result (λ m. StandsFor m (numbered_member lists.now.classes c k)) }
{
    let circuit = lists.member(c, k)?;
    let matrix = Matrix::of(alloc, &circuit, lists.bounds().q())?;
    Ok(matrix)
}

// The first member of the class with this number that isn't equivalent to the first one. Both are counted from 0.
fn unsound_in_class<L: Ledger>(
    alloc: Global,
    lists: &RankLists,
    c: u64,
    steps: &mut Steps<L>,
) -> Result<Option<u64>, Memory>
    requires { c < length lists.now.classes }
    ensures found { IfOk result (IsUnsoundIn lists.now.bounds.q lists.now.classes c) }
    ensures small { IfOk result (λ found. IfSome found (λ k. k < 1000000000)) }
{
    let members = lists.class_len(c);
    let first = matrix_of(alloc, lists, c, 0)?;
    for k in 1..members {
        let other = matrix_of(alloc, lists, c, k)?;
        let same = decide_matrices(&other, &first, steps)?;
        if !same {
            return Ok(Some(k));
        }
    }
    Ok(None)
}

// The same for all classes, with a number for the class and for the member, counted from 1.
fn unsound_in_classes<L: Ledger>(
    alloc: Global,
    lists: &RankLists,
    blank: Blank,
) -> Result<Option<(u64, u64)>, Memory>
    requires name { blank.name ≡ L.name }
    requires parts { blank.parts ≡ L.parts }
    requires shared { 0 < L.parts }
    ensures { IfOk result (IsUnsoundness lists.now.bounds.q lists.now.classes) }
{
    let mut steps = Steps::<L>::new(blank);
    for c in 0..lists.len() {
        let found = unsound_in_class(alloc, lists, c, &mut steps)?;
        if let Some(k) = found {
            return Ok(Some((c + 1, k + 1)));
        }
    }
    Ok(None)
}

/// The first member that isn't equivalent to the first one of its class: the class and the member in it, counted from 1.
/// Nothing where each member is.
pub(crate) fn first_unsound(alloc: Global, lists: &RankLists) -> Result<Option<(u64, u64)>, Memory>
    ensures { IfOk result (IsUnsoundness lists.now.bounds.q lists.now.classes) }
{
    unsound_in_classes::<Brand>(alloc, lists, Blank::new(1))
}
