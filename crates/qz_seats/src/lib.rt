//! A table through which workers draw numbers and lend each other values, one at a time. No call waits, and each says what it
//! did to the worker's own pass. Values that come back with one entry more are told by receipts.
#![tactic(auto)]

mod journal;
mod pass;
mod receipt;
mod rule;
mod seats;
mod turnstile;
mod view;

pub use journal::{Journal, NoValue};
pub use pass::Pass;
pub use receipt::Receipt;
pub use seats::{Lift, Seats};
pub use turnstile::{Moment, Open, Turnstile};
pub use view::{Terms, View};
