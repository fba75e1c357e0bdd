//! The search with several workers: they share the circuits that a round took, and it finds the same circuit for every number of
//! workers and however their steps fall.
#![tactic(auto)]

mod crew;
mod gather;
mod rounds;

pub use qz_seats::{Moment, Open, Turnstile};
pub use rounds::hunt;
