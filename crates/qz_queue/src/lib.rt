//! Queues of program circuits, which hold at most so many different ones, and sets of program circuits. Both keep them in the
//! order of programs, queues by the weights that they are made with.
#![tactic(auto)]

mod bar;
pub mod laws;
mod place;
mod priced;
mod queue;
mod seen;

pub use bar::Bar;
pub use queue::Queue;
pub use seen::Seen;
