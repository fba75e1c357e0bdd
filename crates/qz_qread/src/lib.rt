//! Reads programs.
#![tactic(auto)]

mod form;
mod gate;
mod gate_name;
pub mod laws;
mod lexeme;
mod reader;
mod register;
mod statement;

pub use qz_circ::{Arg, Args, Program, QasmFault, Register, Tail, Which};
pub use reader::read;
