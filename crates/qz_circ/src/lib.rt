//! Circuits over Nam's gates: their order and ranks, the bounds of a generation, lists of classes, and the
//! definitions of what circuits mean and when two are equivalent. Programs as values, and the definitions of their tokens,
//! angles, grammar and texts.
#![tactic(auto)]

mod binding;
mod bound;
mod circuit;
mod class_list;
mod constant;
mod costs;
mod fault;
mod gate_name;
pub mod laws;
mod order;
mod program;
mod program_limits;
mod ranks;
mod report;
mod states;
mod step_count;
mod token;
pub mod worked_places;
pub mod worked_programs;
pub mod worked_searches;
pub mod worked_texts;
pub mod worked_values;

pub use binding::Binding;
pub use bound::Bounds;
pub use circuit::{Expr, Inst, Op};
pub use class_list::Classes;
pub use constant::{constant_of, constant_turn, multiple_of};
pub use costs::{are_ones, cost, price, weight};
pub use fault::{AngleFault, LexFault, LimitFault, Memory, QasmFault, RuleFault, Which};
pub use gate_name::GateName;
pub use order::{prec, prec_by, prec_insts};
pub use program::{Arg, Args, Program, Register, Tail, total_size};
pub use program_limits::{
    LONGEST_WORD, MOST_BITS, MOST_DIGITS, MOST_GATES, MOST_QUBITS, MOST_REGISTERS,
};
pub use ranks::{drop_first_rank, drop_last_rank, length_of, op_number, op_of, rank, unrank};
pub use report::Report;
pub use states::{entries_on, flipped_state, has_bit, states_on};
pub use step_count::Steps;
pub use token::{Kind, Token};
