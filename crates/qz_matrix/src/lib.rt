//! Exact matrices of circuits, with up to three parameters.
//!
//! The matrix of a circuit is kept as sums of monomials with whole coefficients, which owe a factor 1/√2 for each H. A
//! gate is applied to all entries at once: it exchanges them, multiplies them by a monomial, or adds and subtracts them.
#![tactic(auto)]

mod angles;
mod gates;
mod identity;
mod matrix;
mod states;

pub use matrix::Matrix;
