//! A sorted list of terms times a monomial, in place, and whether it is another list.

ghost use Rattle.std.specs.Prelude.{◌≡◌, ◌↔◌, ◌-◌, ◌%◌, ◌^◌, ◌<◌, ◌≤◌, ◌++◌, map, length, take, drop, unsigned_abs, IsTrue};
ghost use Rattle.std.specs.List.{All};
ghost use Rattle.qz_ring.specs.Counts.{IsTimesMonomial};
ghost use Rattle.qz_ring.specs.Exponent.{plus, reach_of};
ghost use Rattle.qz_ring.specs.Terms.{weight_of, largest_reach, reach_times, IsCanonical};
ghost use Rattle.qz_ring.specs.Shifting.{shifted_term, IsShifted};

use crate::exponent::Exponent;
use crate::term::{Term, same_term, shifted};

// Multiplies by the monomial: the terms that pass half a circle come to the front.
pub(crate) fn shift_terms(terms: &mut [Term], by: Exponent)
    requires canonical { IsCanonical terms.old }
    requires weight { weight_of terms.old ≤ 2 ^ 120 }
    requires reach { largest_reach terms.old ≤ 2 ^ 40 }
    requires products { reach_times terms.old by ≤ 2 ^ 40 }
    ensures { IsShifted by terms.old terms.new }
{
    let passing = first_passing(terms, 256 - by.turn % 256);
    terms.rotate_left(passing);
    shift_each(terms, by);
}

// The place of the first term whose turn is not below the limit.
fn first_passing(terms: &[Term], limit: u16) -> usize
    requires { IsCanonical terms.now }
    ensures within { result ≤ length terms.now }
    ensures below { All (λ t. t.exponent.turn < limit) (take result terms.now) }
    ensures passing { All (λ t. limit ≤ t.exponent.turn) (drop result terms.now) }
{
    for (i, term) in terms.iter().enumerate() {
        if term.exponent.turn >= limit {
            return i;
        }
    }
    terms.len()
}

// Multiplies each term by the monomial, in its place.
fn shift_each(terms: &mut [Term], by: Exponent)
    requires weight { weight_of terms.old ≤ 2 ^ 120 }
    requires reach { largest_reach terms.old ≤ 2 ^ 40 }
    requires products { reach_times terms.old by ≤ 2 ^ 40 }
    ensures { terms.new ≡ map (shifted_term by) terms.old }
{
    for term in terms.iter_mut() {
        *term = shifted(*term, by);
    }
}

// Whether the list is the other one times the monomial.
pub(crate) fn is_times(terms: &[Term], other: &[Term], by: Exponent) -> bool
    requires canonical { IsCanonical terms.now }
    requires other_canonical { IsCanonical other.now }
    requires weight { weight_of other.now ≤ 2 ^ 120 }
    requires reach { largest_reach other.now ≤ 2 ^ 40 }
    requires products { reach_times other.now by ≤ 2 ^ 40 }
    ensures { IsTrue result ↔ IsTimesMonomial by other.now terms.now }
{
    let passing = first_passing(other, 256 - by.turn % 256);
    is_turned(terms, other, passing, by)
}

// Whether the list is the other one, turned round at a place, with each term multiplied by the monomial.
fn is_turned(terms: &[Term], other: &[Term], place: usize, by: Exponent) -> bool
    requires within { place ≤ length other.now }
    requires weight { weight_of other.now ≤ 2 ^ 120 }
    requires reach { largest_reach other.now ≤ 2 ^ 40 }
    requires products { reach_times other.now by ≤ 2 ^ 40 }
    ensures { IsTrue result ↔ (terms.now ≡ map (shifted_term by) (drop place other.now ++ take place other.now)) }
{
    if terms.len() != other.len() {
        return false;
    }
    let (front, back) = other.split_at(place);
    let (first, second) = terms.split_at(back.len());
    are_products(first, back, by) && are_products(second, front, by)
}

// Whether each term is the one in its place of the other list times the monomial.
fn are_products(terms: &[Term], other: &[Term], by: Exponent) -> bool
    requires alike { length terms.now ≡ length other.now }
    requires weight { weight_of other.now ≤ 2 ^ 120 }
    requires reach { largest_reach other.now ≤ 2 ^ 40 }
    requires products { reach_times other.now by ≤ 2 ^ 40 }
    ensures { IsTrue result ↔ (terms.now ≡ map (shifted_term by) other.now) }
{
    for k in 0..terms.len() {
        if !is_product(terms[k], other[k], by) {
            return false;
        }
    }
    true
}

// Whether the term is the other one times the monomial.
fn is_product(term: Term, other: Term, by: Exponent) -> bool
    requires weight { unsigned_abs other.coefficient ≤ 2 ^ 120 }
    requires factor { reach_of other.exponent ≤ 2 ^ 40 }
    requires product { reach_of (plus other.exponent by) ≤ 2 ^ 40 }
    ensures { IsTrue result ↔ (term ≡ shifted_term by other) }
{
    same_term(term, shifted(other, by))
}
