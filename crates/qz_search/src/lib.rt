//! The search for cheaper program circuits, by rounds over a queue.
#![tactic(auto)]

mod children;
mod circuits;
mod class;
mod costs;
mod filter;
pub mod laws;
mod offer;
mod plan;
mod prepared;
mod renaming;
mod rounds;
mod rows;
mod table;

pub use plan::{Plan, PlanFault};
pub use rounds::{Rounds, search};
