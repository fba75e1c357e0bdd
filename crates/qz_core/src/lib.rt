//! The round machine: workers claim the ranks of a list in its order, and put each into the list of its home. It has no threads;
//! what it says holds of every order in which the events of the workers come.
#![tactic(auto)]

pub mod laws;
mod lists;
mod round;
#[cfg(test)]
mod tests;

pub use round::{NotPending, Round};
