//! Entries that are zero, and the first one that isn't.
ghost use Rattle.std.specs.Prelude.{◌≡◌, ◌↔◌, ◌^◌, ◌<◌, IsTrue, MatchOption};
ghost use Rattle.qz_ring.specs.Counts.{CountsNothing};
ghost use Rattle.qz_equiv.specs.Phases.{AreAlike, AreAlikeColumns, AreAlikeMatrices, IsCountedExponent, IsZeroColumn, IsPivotOfColumn, IsZeroMatrix, IsPivot};

use qz_circ::states_on;
use qz_matrix::Matrix;
use qz_ring::{Elem, Exponent};

// How many rows a matrix has, and how many columns.
pub(crate) fn rows_of(x: &Matrix) -> u64
    ensures { result ≡ 2 ^ x.now.q }
{
    states_on(x.q()) as u64
}

// Whether both sums are zero, or neither is.
#[tactic(auto, unfolding(crate::specs::Phases::AreAlike))]
fn are_alike(x: &Elem, y: &Elem) -> bool
    ensures { IsTrue result ↔ AreAlike x.now y.now }
{
    x.is_zero() == y.is_zero()
}

// Whether both sums are zero.
pub(crate) fn are_zero(x: &Elem, y: &Elem) -> bool
    ensures first { IsTrue result → CountsNothing x.now }
    ensures second { IsTrue result → CountsNothing y.now }
{
    x.is_zero() && y.is_zero()
}

// Whether two columns have zeros in the same rows.
fn are_alike_columns(x: &Matrix, y: &Matrix, j: u64) -> bool
    requires qubits { y.now.q ≡ x.now.q }
    requires column { j < 2 ^ x.now.q }
    ensures { IsTrue result ↔ AreAlikeColumns x.now y.now j }
{
    for i in 0..rows_of(x) {
        if !are_alike(x.entry(i, j), y.entry(i, j)) {
            return false;
        }
    }
    true
}

// Whether two matrices have zeros in the same places.
pub(crate) fn are_alike_matrices(x: &Matrix, y: &Matrix) -> bool
    requires qubits { y.now.q ≡ x.now.q }
    ensures { IsTrue result ↔ AreAlikeMatrices x.now y.now }
{
    for j in 0..rows_of(x) {
        if !are_alike_columns(x, y, j) {
            return false;
        }
    }
    true
}

// The first exponent of an entry that isn't zero.
fn lead_of(entry: &Elem) -> Option<Exponent>
    ensures { MatchOption result (CountsNothing entry.now) (IsCountedExponent entry.now) }
{
    match entry.leading() {
        Some(term) => Some(term.0),
        None => None,
    }
}

// The first row whose entry in the column isn't zero, and its first exponent.
fn lead_in_column(x: &Matrix, j: u64) -> Option<(u64, Exponent)>
    requires { j < 2 ^ x.now.q }
    ensures { MatchOption result (IsZeroColumn x.now j) (IsPivotOfColumn x.now j) }
{
    for i in 0..rows_of(x) {
        if let Some(lead) = lead_of(x.entry(i, j)) {
            return Some((i, lead));
        }
    }
    None
}

// The first column with an entry that isn't zero, the first row of it, and its first exponent.
pub(crate) fn pivot(x: &Matrix) -> Option<(u64, u64, Exponent)>
    ensures { MatchOption result (IsZeroMatrix x.now) (IsPivot x.now) }
{
    for j in 0..rows_of(x) {
        if let Some((i, lead)) = lead_in_column(x, j) {
            return Some((j, i, lead));
        }
    }
    None
}
