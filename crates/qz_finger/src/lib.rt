//! Fingerprints of circuits: numbers below p = 2^64 - 2^32 + 1 that equivalent circuits share, for each seed of random weights.
//! Different circuits may share one, too.
#![tactic(auto)]

mod actions;
mod fill;
pub mod laws;
mod modulo;
mod probe;
mod tables;
mod trace;
mod values;
mod words;

pub use probe::Probe;
pub use values::Values;
