//! Sums of monomials with whole coefficients.

ghost use Rattle.std.specs.Prelude.{◌≡◌, ◌≢◌, ◌↔◌, ◌+◌, ◌*◌, ◌^◌, ◌<◌, ◌≤◌, max, pos, [], ◌∷◌, length, slice_get, Some, IsTrue, IfSome, IsNone, IfOk, OnOk, OnErr};
ghost use Rattle.qz_ring.specs.Exponent.{zero_exponent, reach_of, turn_alone};
ghost use Rattle.qz_ring.specs.Terms.{count, weight_of, largest_reach, reach_times, IsCanonical};
ghost use Rattle.qz_ring.specs.Merging.{IsMerged};
ghost use Rattle.qz_ring.specs.Counts.{SameCounts, CountsNothing, IsLeast, IsSum, IsDifference, IsTimesMonomial, IsTimesRoot2};

use crate::Memory;
use crate::exponent::Exponent;
use crate::merge::merge;
use crate::shift::{is_times, shift_terms};
use crate::term::Term;
use smallvec::SmallVec;
use std::alloc::Global;
use std::marker::Model;

/// A sum of monomials with whole coefficients, in its one form: the list of its terms, with turns
/// below 256, no coefficient 0, and exponents that rise by turn and then by the powers.
///
/// The absolute coefficients sum to at most 2^120, and the powers lie from -2^40 to 2^40. A sum of one term takes no memory of its
/// own.
#[derive(Debug, Drop)]
pub struct Elem {
    terms: SmallVec<Term, 1>,
}

impl Model for Elem {
    ghost use Rattle.std.specs.Prelude.{◌^◌, ◌≤◌};
    ghost use Rattle.qz_ring.specs.Terms.{Terms, IsCanonical, weight_of, largest_reach};

    ghost Value = { Terms };

    ghost view = { λ a. a.terms.items };

    ghost invariant = { λ a. IsCanonical a.terms.items × (weight_of a.terms.items ≤ 2 ^ 120) × (largest_reach a.terms.items ≤ 2 ^ 40) };
}

impl Elem {
    /// The empty sum. Takes no memory.
    pub fn zero(alloc: Global) -> Elem
        ensures { result ≡ [] }
    {
        Elem {
            terms: SmallVec::new(alloc),
        }
    }

    /// The sum of one term: no turn, no powers, coefficient 1.
    pub fn one(alloc: Global) -> Result<Elem, Memory>
        ensures { IfOk result (λ one. one ≡ record { exponent = zero_exponent; coefficient = pos 1 } ∷ []) }
    {
        let mut terms = SmallVec::new(alloc);
        terms.push_reserved(Term {
            exponent: Exponent {
                turn: 0,
                powers: [0; 3],
            },
            coefficient: 1,
        });
        Ok(Elem { terms })
    }

    /// A copy of the sum.
    pub fn copy(&self) -> Result<Elem, Memory>
        ensures { IfOk result (λ copy. copy ≡ self.now) }
    {
        match SmallVec::from_slice(*self.terms.allocator(), self.terms.as_slice()) {
            Ok(terms) => Ok(Elem { terms }),
            Err(_) => Err(Memory),
        }
    }

    /// The sum of the two, where both weights are together at most 2^120.
    pub fn plus(&self, other: &Elem) -> Result<Elem, Memory>
        requires { weight_of self.now + weight_of other.now ≤ 2 ^ 120 }
        ensures counts { IfOk result (IsSum self.now other.now) }
        ensures weight { IfOk result (λ sum. weight_of sum ≤ weight_of self.now + weight_of other.now) }
        ensures reach { IfOk result (λ sum. largest_reach sum ≤ max (largest_reach self.now) (largest_reach other.now)) }
    {
        self.combined(other, false)
    }

    /// This sum less the other, where both weights are together at most 2^120.
    pub fn minus(&self, other: &Elem) -> Result<Elem, Memory>
        requires { weight_of self.now + weight_of other.now ≤ 2 ^ 120 }
        ensures counts { IfOk result (IsDifference self.now other.now) }
        ensures weight { IfOk result (λ difference. weight_of difference ≤ weight_of self.now + weight_of other.now) }
        ensures reach { IfOk result (λ difference. largest_reach difference ≤ max (largest_reach self.now) (largest_reach other.now)) }
    {
        self.combined(other, true)
    }

    // The sum of the two, or, where the other is negated, their difference. That of two zeros takes no merging.
    #[tactic(auto, using(crate::proofs::MergeSteps::none_merged))]
    fn combined(&self, other: &Elem, negated: bool) -> Result<Elem, Memory>
        requires { weight_of self.now + weight_of other.now ≤ 2 ^ 120 }
        ensures { IfOk result (IsMerged negated self.now other.now) }
    {
        let alloc = *self.terms.allocator();
        if self.is_zero() && other.is_zero() {
            return Ok(Elem::zero(alloc));
        }
        let terms = merge(
            alloc,
            self.terms.as_slice(),
            other.terms.as_slice(),
            negated,
        )?;
        Ok(Elem { terms })
    }

    /// Adds another sum, where both weights are together at most 2^120.
    pub fn add(&mut self, other: &Elem) -> Result<(), Memory>
        requires { weight_of self.old + weight_of other.now ≤ 2 ^ 120 }
        ensures counts { OnOk result (IsSum self.old other.now self.new) }
        ensures weight { OnOk result (weight_of self.new ≤ weight_of self.old + weight_of other.now) }
        ensures reach { OnOk result (largest_reach self.new ≤ max (largest_reach self.old) (largest_reach other.now)) }
        ensures err { OnErr result (self.new ≡ self.old) }
    {
        let sum = self.plus(other)?;
        *self = sum;
        Ok(())
    }

    /// Subtracts another sum, where both weights are together at most 2^120.
    pub fn sub(&mut self, other: &Elem) -> Result<(), Memory>
        requires { weight_of self.old + weight_of other.now ≤ 2 ^ 120 }
        ensures counts { OnOk result (IsDifference self.old other.now self.new) }
        ensures weight { OnOk result (weight_of self.new ≤ weight_of self.old + weight_of other.now) }
        ensures reach { OnOk result (largest_reach self.new ≤ max (largest_reach self.old) (largest_reach other.now)) }
        ensures err { OnErr result (self.new ≡ self.old) }
    {
        let difference = self.minus(other)?;
        *self = difference;
        Ok(())
    }

    /// Multiplies by a monomial, where the powers of each product lie from -2^40 to 2^40. Takes no
    /// memory.
    pub fn shift(&mut self, by: Exponent)
        requires { reach_times self.old by ≤ 2 ^ 40 }
        ensures counts { IsTimesMonomial by self.old self.new }
        ensures weight { weight_of self.new ≡ weight_of self.old }
        ensures length { length self.new ≡ length self.old }
        ensures reach { largest_reach self.new ≡ reach_times self.old by }
    {
        shift_terms(self.terms.as_mut_slice(), by);
    }

    /// Multiplies by the square root of 2.
    pub fn times_root2(&mut self) -> Result<(), Memory>
        requires { weight_of self.old ≤ 2 ^ 119 }
        ensures counts { OnOk result (IsTimesRoot2 self.old self.new) }
        ensures weight { OnOk result (weight_of self.new ≤ 2 * weight_of self.old) }
        ensures reach { OnOk result (largest_reach self.new ≤ largest_reach self.old) }
        ensures err { OnErr result (self.new ≡ self.old) }
    {
        let mut product = self.turned_copy(64)?;
        let less = self.turned_copy(192)?;
        product.sub(&less)?;
        *self = product;
        Ok(())
    }

    // A copy of the sum, times the monomial that only turns.
    #[tactic(auto, using(crate::proofs::Sums::reach_times_le))]
    fn turned_copy(&self, turn: u16) -> Result<Elem, Memory>
        requires { turn < 512 }
        ensures counts { IfOk result (IsTimesMonomial (turn_alone turn) self.now) }
        ensures weight { IfOk result (λ turned. weight_of turned ≡ weight_of self.now) }
        ensures reach { IfOk result (λ turned. largest_reach turned ≤ largest_reach self.now) }
    {
        // Brings the type's invariant into the proof.
        let _ = &self.terms;
        let mut copy = self.copy()?;
        copy.shift(Exponent {
            turn,
            powers: [0; 3],
        });
        Ok(copy)
    }

    /// Whether the sum is zero.
    pub fn is_zero(&self) -> bool
        ensures empty { IsTrue result ↔ (self.now ≡ []) }
        ensures counts { IsTrue result ↔ CountsNothing self.now }
    {
        self.terms.is_empty()
    }

    /// Whether the two sums are the same.
    pub fn same(&self, other: &Elem) -> bool
        ensures equal { IsTrue result ↔ (self.now ≡ other.now) }
        ensures counts { IsTrue result ↔ SameCounts self.now other.now }
    {
        same_terms(self.terms.as_slice(), other.terms.as_slice())
    }

    /// Whether this sum is the other one times a monomial, where the powers of each product lie from -2^40 to 2^40. Takes no
    /// memory.
    pub fn is_product(&self, other: &Elem, by: Exponent) -> bool
        requires { reach_times other.now by ≤ 2 ^ 40 }
        ensures { IsTrue result ↔ IsTimesMonomial by other.now self.now }
    {
        is_times(self.terms.as_slice(), other.terms.as_slice(), by)
    }

    /// The sum of the absolute coefficients.
    pub fn weight(&self) -> u128
        ensures value { result ≡ weight_of self.now }
        ensures bounded { weight_of self.now ≤ 2 ^ 120 }
        ensures reach { largest_reach self.now ≤ 2 ^ 40 }
    {
        weigh(self.terms.as_slice())
    }

    /// The least exponent below half a circle that counts something, by turn and then by the powers,
    /// and its count. There is none exactly where the sum counts nothing.
    pub fn leading(&self) -> Option<(Exponent, i128)>
        ensures none { IsNone result ↔ (self.now ≡ []) }
        ensures none_counts { IsNone result ↔ CountsNothing self.now }
        ensures least { IfSome result (λ lead. IsLeast self.now lead.0) }
        ensures first { IfSome result (λ lead. slice_get self.now 0 ≡ Some (record { exponent = lead.0; coefficient = lead.1 })) }
        ensures half_turn { IfSome result (λ lead. lead.0.turn < 256) }
        ensures reach { IfSome result (λ lead. reach_of lead.0 ≤ 2 ^ 40) }
        ensures counted { IfSome result (λ lead. count self.now lead.0 ≡ lead.1) }
        ensures nonzero { IfSome result (λ lead. lead.1 ≢ pos 0) }
    {
        // Brings the type's invariant into the proof.
        let _ = &self.terms;
        if self.is_zero() {
            return None;
        }
        Some(self.term(0))
    }

    /// The number of terms. It also tells what holds of every sum: the one form of its list, and its bounds.
    pub fn terms(&self) -> u64
        ensures number { result ≡ length self.now }
        ensures canonical { IsCanonical self.now }
        ensures weight { weight_of self.now ≤ 2 ^ 120 }
        ensures reach { largest_reach self.now ≤ 2 ^ 40 }
    {
        self.terms.len() as u64
    }

    /// The exponent and the coefficient of the term at a place, counted from 0.
    pub fn term(&self, k: u64) -> (Exponent, i128)
        requires { k < length self.now }
        ensures value { slice_get self.now k ≡ Some (record { exponent = result.0; coefficient = result.1 }) }
        ensures counted { count self.now result.0 ≡ result.1 }
        ensures half_turn { result.0.turn < 256 }
        ensures reach { reach_of result.0 ≤ 2 ^ 40 }
        ensures nonzero { result.1 ≢ pos 0 }
    {
        let term = self.terms.as_slice()[k as usize];
        (term.exponent, term.coefficient)
    }
}

// Whether the two lists of terms are equal.
fn same_terms(left: &[Term], right: &[Term]) -> bool
    ensures { IsTrue result ↔ (left.now ≡ right.now) }
{
    left == right
}

// The sum of the absolute coefficients.
fn weigh(terms: &[Term]) -> u128
    requires { weight_of terms.now ≤ 2 ^ 120 }
    ensures { result ≡ weight_of terms.now }
{
    let mut weight = 0;
    for term in terms {
        weight += term.coefficient.unsigned_abs();
    }
    weight
}
