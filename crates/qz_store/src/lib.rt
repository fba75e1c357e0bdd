//! The shared store of a round: 16 shards that workers lend each other, one at a time, and a list of ranks that they claim. No call
//! waits, and each says what it did to the worker's own pass; at the end the shards have grown by exactly the ranks that have receipts.
#![tactic(auto)]

mod kept;
pub mod laws;
mod store;

pub use kept::{Kept, Pass};
pub use store::{Put, Store};
