//! The tokens of programs, and what the tokens of an angle mean.
#![tactic(auto)]

mod expression;
mod fraction;
pub mod laws;
mod lex;
mod value;

pub use expression::angle;
pub use lex::tokens;
pub use qz_circ::{AngleFault, Kind, LexFault, Token};
