//! Exact sums of monomials with whole coefficients.
//!
//! With ζ = e^(iπ/256), a monomial is ζ^turn · x0^a · x1^b · x2^c, where the turn counts modulo 512
//! and the powers are whole numbers. Since ζ^256 = -1, half a circle changes the sign, so each sum has
//! one form whose turns are all below 256.
#![tactic(auto)]

mod elem;
mod exponent;
pub mod laws;
mod merge;
mod shift;
mod term;

pub use elem::Elem;
pub use exponent::Exponent;

/// Want of memory. The value that was to change is as it was before the call.
#[derive(Clone, Copy, Debug, PartialEq, Eq)]
pub struct Memory;
