//! Single terms: a monomial with a whole coefficient.

ghost use Rattle.std.specs.Prelude.{◌≡◌, ◌↔◌, ◌^◌, ◌≤◌, unsigned_abs, IsTrue};
ghost use Rattle.qz_ring.specs.Exponent.{plus, reach_of};
ghost use Rattle.qz_ring.specs.Terms.{signed_term};
ghost use Rattle.qz_ring.specs.Shifting.{shifted_term};

use crate::exponent::{Exponent, below_half, product_of};
use std::marker::Model;

// A monomial with a whole coefficient.
#[derive(Clone, Copy, Debug, PartialEq, Eq)]
pub(crate) struct Term {
    pub(crate) exponent: Exponent,
    pub(crate) coefficient: i128,
}

impl Model for Term {
    ghost use Rattle.qz_ring.specs.Terms.{Term as TermValue};

    ghost Value = { TermValue };

    ghost view = { λ a. record { exponent = a.exponent; coefficient = a.coefficient } };

    ghost inverse = { λ t. record { exponent = t.exponent; coefficient = t.coefficient } };
}

// A blank, for places of a list that no term stands in.
impl Default for Term {
    fn default() -> Term {
        Term {
            exponent: Exponent {
                turn: 0,
                powers: [0; 3],
            },
            coefficient: 0,
        }
    }
}

// The term, with the other sign if it is negated.
pub(crate) fn with_sign(term: Term, negated: bool) -> Term
    requires { unsigned_abs term.coefficient ≤ 2 ^ 120 }
    ensures { result ≡ signed_term negated term }
{
    if negated {
        Term {
            exponent: term.exponent,
            coefficient: -term.coefficient,
        }
    } else {
        term
    }
}

// The term times a monomial, with its turn brought below half a circle.
pub(crate) fn shifted(term: Term, by: Exponent) -> Term
    requires weight { unsigned_abs term.coefficient ≤ 2 ^ 120 }
    requires factor { reach_of term.exponent ≤ 2 ^ 40 }
    requires product { reach_of (plus term.exponent by) ≤ 2 ^ 40 }
    ensures { result ≡ shifted_term by term }
{
    let product = product_of(term.exponent, by);
    let unsigned = Term {
        exponent: below_half(product),
        coefficient: term.coefficient,
    };
    with_sign(unsigned, product.turn >= 256)
}

// Whether the two terms are the same.
pub(crate) fn same_term(a: Term, b: Term) -> bool
    ensures { IsTrue result ↔ (a ≡ b) }
{
    a == b
}
