//! Whether one matrix is a monomial and a power of √2 times another.
ghost use Rattle.std.specs.Prelude.{◌≡◌, ◌≢◌, ◌↔◌, ◌+◌, ◌-◌, ◌^◌, ◌<◌, ◌≤◌, ◌⊎◌, pos, IsTrue, IfOk};
ghost use Rattle.qz_ring.specs.Exponent.{Exponent as Monomial, IsExponent as IsMonomial, minus, with_turns, reach_of};
ghost use Rattle.qz_ring.specs.Terms.{count, weight_of, largest_reach};
ghost use Rattle.qz_equiv.specs.Phases.{IsMultiple, IsMultipleColumn, IsMultipleMatrix, HasPhase, IsPivot};

use crate::roots::times_roots;
use crate::zeros::{are_alike_matrices, are_zero, pivot, rows_of};
use qz_matrix::Matrix;
use qz_ring::{Elem, Exponent, Memory};

// Whether x is y times the monomial, and times √2 as often as the number says. Most entries are zero, and mostly there is no √2, so
// that no product is made.
fn same_entry(x: &Elem, y: &Elem, roots: u64, by: Exponent) -> Result<bool, Memory>
    requires few { roots ≤ 100 }
    requires weight { weight_of y.now ≤ 2 ^ (100 - roots) }
    requires powers { largest_reach y.now ≤ 100 }
    requires reach { reach_of by ≤ 200 }
    ensures { IfOk result (λ same. IsTrue same ↔ IsMultiple roots by x.now y.now) }
{
    if are_zero(x, y) {
        return Ok(true);
    }
    if roots == 0 {
        return Ok(x.is_product(y, by));
    }
    let product = times_roots(y, roots)?;
    Ok(x.is_product(&product, by))
}

// Whether each entry in the column of x is that of y times the monomial, and times √2 as often as the number says.
fn same_column(x: &Matrix, y: &Matrix, roots: u64, by: Exponent, j: u64) -> Result<bool, Memory>
    requires qubits { y.now.q ≡ x.now.q }
    requires few { roots + y.now.gates ≤ 100 }
    requires reach { reach_of by ≤ 200 }
    requires column { j < 2 ^ x.now.q }
    ensures { IfOk result (λ same. IsTrue same ↔ IsMultipleColumn roots by x.now y.now j) }
{
    for i in 0..rows_of(x) {
        if !same_entry(x.entry(i, j), y.entry(i, j), roots, by)? {
            return Ok(false);
        }
    }
    Ok(true)
}

// Whether x is y times the monomial, and times √2 as often as the number says.
fn same_matrix(x: &Matrix, y: &Matrix, roots: u64, by: Exponent) -> Result<bool, Memory>
    requires qubits { y.now.q ≡ x.now.q }
    requires few { roots + y.now.gates ≤ 100 }
    requires reach { reach_of by ≤ 200 }
    ensures { IfOk result (λ same. IsTrue same ↔ IsMultipleMatrix roots by x.now y.now) }
{
    for j in 0..rows_of(x) {
        if !same_column(x, y, roots, by, j)? {
            return Ok(false);
        }
    }
    Ok(true)
}

// The exponent of the quotient of two monomials.
fn quotient_of(a: Exponent, b: Exponent) -> Exponent
    requires first { reach_of a ≤ 100 }
    requires second { reach_of b ≤ 100 }
    ensures value { result ≡ minus a b }
    ensures reach { reach_of result ≤ 200 }
{
    let (p, q) = (a.powers, b.powers);
    Exponent {
        turn: (a.turn + (512 - b.turn)) % 512,
        powers: [p[0] - q[0], p[1] - q[1], p[2] - q[2]],
    }
}

// The exponent with half a circle more.
fn half_turn_more(e: Exponent) -> Exponent
    ensures value { result ≡ with_turns e 256 }
    ensures reach { reach_of result ≡ reach_of e }
{
    let powers = e.powers;
    Exponent {
        turn: (e.turn + 256) % 512,
        powers,
    }
}

// Whether x is y times the monomial and √2 as often as the number says, or is so with half a circle more.
fn same_either_way(x: &Matrix, y: &Matrix, roots: u64, by: Exponent) -> Result<bool, Memory>
    requires qubits { y.now.q ≡ x.now.q }
    requires few { roots + y.now.gates ≤ 100 }
    requires reach { reach_of by ≤ 200 }
    ensures { IfOk result (λ same. IsTrue same ↔ (IsMultipleMatrix roots by x.now y.now ⊎ IsMultipleMatrix roots (with_turns by 256) x.now y.now)) }
{
    if same_matrix(x, y, roots, by)? {
        return Ok(true);
    }
    let same = same_matrix(x, y, roots, half_turn_more(by))?;
    Ok(same)
}

// Whether x is y times √2 as often as the number says, and times a monomial that takes one of the other entry's
// exponents to the lead, up to a sign.
fn has_candidate(
    x: &Matrix,
    y: &Matrix,
    roots: u64,
    lead: Exponent,
    other: &Elem,
) -> Result<bool, Memory>
    requires qubits { y.now.q ≡ x.now.q }
    requires few { roots + y.now.gates ≤ 100 }
    requires lead_proper { IsMonomial lead }
    requires lead_powers { reach_of lead ≤ 100 }
    requires other_powers { largest_reach other.now ≤ 100 }
    requires counted { (u : Monomial) → IsMonomial u → IsMultipleMatrix roots u x.now y.now → count other.now (minus lead u) ≢ pos 0 }
    ensures { IfOk result (λ found. IsTrue found ↔ HasPhase roots x.now y.now) }
{
    for k in 0..other.terms() {
        let term = other.term(k);
        if same_either_way(x, y, roots, quotient_of(lead, term.0))? {
            return Ok(true);
        }
    }
    Ok(false)
}

// Whether x is y times √2 as often as the number says, and times some monomial. The pivot is an exponent that x counts.
fn has_phase_at(
    x: &Matrix,
    y: &Matrix,
    roots: u64,
    pivot: (u64, u64, Exponent),
) -> Result<bool, Memory>
    requires qubits { y.now.q ≡ x.now.q }
    requires few { roots + y.now.gates ≤ 100 }
    requires few_gates { x.now.gates ≤ 100 }
    requires pivot { IsPivot x.now pivot }
    ensures { IfOk result (λ same. IsTrue same ↔ HasPhase roots x.now y.now) }
{
    let (j, i, lead) = pivot;
    let other = times_roots(y.entry(i, j), roots)?;
    has_candidate(x, y, roots, lead, &other)
}

// Whether some monomial takes y, times √2 for each H that it has fewer, to x.
pub(crate) fn same_up_to_phase(x: &Matrix, y: &Matrix) -> Result<bool, Memory>
    requires qubits { y.now.q ≡ x.now.q }
    requires few { x.now.gates + y.now.gates ≤ 100 }
    requires halves { y.now.halves ≤ x.now.halves }
    ensures { IfOk result (λ same. IsTrue same ↔ HasPhase (x.now.halves - y.now.halves) x.now y.now) }
{
    if !are_alike_matrices(x, y) {
        return Ok(false);
    }
    match pivot(x) {
        None => Ok(true),
        Some(found) => has_phase_at(x, y, x.halves() - y.halves(), found),
    }
}
