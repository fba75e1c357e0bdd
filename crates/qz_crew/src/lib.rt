//! Workers over the shared store: they claim the ranks of a list and put each into its shard, and with them the class list is
//! generated, the same for every number of workers and however their steps fall.
#![tactic(auto)]

mod crew;
mod lengths;
mod turns;

pub use lengths::generate;
pub use qz_seats::{Moment, Open, Receipt, Turnstile};
pub use turns::work;
