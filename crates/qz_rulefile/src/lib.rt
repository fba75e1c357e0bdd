//! Rule files: classes of equivalent circuits within some bounds, as a text. They are written from a list of classes, and
//! read with the first fault of a text that is none.
#![tactic(auto)]

mod class_reader;
mod faults;
mod gate_texts;
mod head_reader;
pub mod laws;
mod parts;
mod rank_lists;
mod reader;
mod rule_text;
mod rules;
mod soundness;

pub use qz_circ::RuleFault;
pub use reader::read;
pub use rule_text::print;
pub use rules::Rules;
