//! The moments of a worker, and what is told of them.
use crate::receipt::Receipt;

/// A moment in a worker's turn.
#[derive(Clone, Copy)]
pub enum Moment {
    /// Before a claim.
    Claiming,
    /// After a claim that gave something.
    Claimed,
    /// Before a try to put an entry.
    Putting,
    /// After an entry was put, with its receipt.
    Put(Receipt),
    /// At the worker's end, once.
    Ended,
}

/// Is told of each moment of each worker, from the worker's own thread.
pub trait Turnstile: Sync {
    /// A worker, counted from 0, is at this moment.
    fn at(&self, worker: u64, moment: Moment);
}

/// Lets every moment pass, and does nothing.
#[derive(Clone, Copy)]
pub struct Open;

impl Turnstile for Open {
    fn at(&self, worker: u64, moment: Moment) {
        let _ = (worker, moment);
    }
}
