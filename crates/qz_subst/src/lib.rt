//! Instances of the circuits of rules in programs, and the law that those of equivalent circuits are equivalent.
#![tactic(auto)]

pub mod laws;
mod substitution;

pub use substitution::{instance, instance_cost, instance_len};
