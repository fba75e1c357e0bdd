//! The commands of quartz: from a list of words and an input to a status and what is written.
#![tactic(auto)]

mod check;
mod cost_table;
mod files;
mod generate;
mod inputs;
mod optimise;
mod pieces;
pub mod several;
pub mod solo;
pub mod status;
pub mod telling;
mod tidy;
mod trial;
pub mod words;
mod writing;

pub use several::run;
pub use solo::run_solo;
pub use status::Status;
pub use telling::tell;
pub use words::{Command, WordFault, read_words};
