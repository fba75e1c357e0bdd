//! Local rewriting of programs: what a program becomes by a rule at a place, and the law that this keeps the unitary.
#![tactic(auto)]

pub mod laws;
mod replacement;
mod sides;
pub mod worked_values;

pub use replacement::replace;
