//! The canonical text of programs.
#![tactic(auto)]

mod angle;
mod lines;
mod operand;
mod qubit;
mod writer;

pub use writer::write;
