//! A turnstile that holds one worker while the others do all the rest.
use qz_seats::{Moment, Turnstile};
use std::sync::atomic::{AtomicU64, Ordering};
use std::thread;

/// How often a worker looks for another one, at most.
const MOST_TURNS: u64 = 20_000_000;

/// The kinds of moments.
#[derive(Clone, Copy, PartialEq)]
pub enum Kind {
    Claiming,
    Claimed,
    Putting,
    Put,
    Ended,
}

fn kind_of(moment: Moment) -> Kind {
    match moment {
        Moment::Claiming => Kind::Claiming,
        Moment::Claimed => Kind::Claimed,
        Moment::Putting => Kind::Putting,
        Moment::Put(_) => Kind::Put,
        Moment::Ended => Kind::Ended,
    }
}

/// Holds a worker at its first moment of a kind until each other one has ended. The others claim nothing before it is there, so that it
/// does get to that moment. Where somebody waits in vain, nobody waits any more.
#[derive(Drop)]
pub struct Holding {
    worker: u64,
    kind: Kind,
    others: u64,
    to_pass: AtomicU64,
    held: AtomicU64,
    ended: AtomicU64,
    in_vain: AtomicU64,
}

impl Holding {
    /// Holds one of so many workers, after this many ends of earlier rounds, which pass.
    pub fn new(worker: u64, kind: Kind, workers: u64, to_pass: u64) -> Holding {
        Holding {
            worker,
            kind,
            others: workers.saturating_sub(1),
            to_pass: AtomicU64::new(to_pass),
            held: AtomicU64::new(0),
            ended: AtomicU64::new(0),
            in_vain: AtomicU64::new(0),
        }
    }

    /// Whether the worker was held until the others had ended.
    pub fn has_held(&self) -> bool {
        self.held.load(Ordering::SeqCst) > 0 && self.in_vain.load(Ordering::SeqCst) == 0
    }

    // Waits until the count is at least this, within the bound.
    fn wait(&self, count: &AtomicU64, least: u64) {
        for _ in 0..MOST_TURNS {
            if count.load(Ordering::SeqCst) >= least || self.in_vain.load(Ordering::SeqCst) > 0 {
                return;
            }
            thread::yield_now();
        }
        self.in_vain.fetch_add(1, Ordering::SeqCst);
    }

    // What the worker does that is held.
    fn hold(&self, kind: Kind) {
        if kind == self.kind && self.held.fetch_add(1, Ordering::SeqCst) == 0 {
            self.wait(&self.ended, self.others);
        }
    }

    // What the others do.
    fn let_first(&self, kind: Kind) {
        if kind == Kind::Claiming {
            self.wait(&self.held, 1);
        }
        if kind == Kind::Ended {
            self.ended.fetch_add(1, Ordering::SeqCst);
        }
    }

    // Whether the moment is before those that are held.
    fn is_early(&self, kind: Kind) -> bool {
        if self.to_pass.load(Ordering::SeqCst) == 0 {
            return false;
        }
        if kind == Kind::Ended {
            self.to_pass.fetch_sub(1, Ordering::SeqCst);
        }
        true
    }
}

impl Turnstile for Holding {
    fn at(&self, worker: u64, moment: Moment) {
        let kind = kind_of(moment);
        if self.is_early(kind) {
            return;
        }
        if worker == self.worker {
            self.hold(kind);
        } else {
            self.let_first(kind);
        }
    }
}
