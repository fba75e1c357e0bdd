//! Shards: journals of circuits, put together into classes of equivalent ones as they come. A class is found by a fingerprint, which
//! equivalent circuits share; among classes with one fingerprint the exact decision tells which one it is.
#![tactic(auto)]

mod class;
mod growth;
pub mod laws;
mod search;
mod shard;
pub mod worked_values;

pub use shard::Shard;
