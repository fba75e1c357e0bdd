//! Places at which an object in memory fails.
ghost use Rattle.std.specs.Prelude.{◌≡◌, ◌≤◌, ◌<◌, ◌↔◌, IsNone, IfSome, OnSome, drop};
ghost use Rattle.qz_io.specs.Counts.{counted};
ghost use Rattle.qz_io.specs.Stops.{IsAtStop, before_stop};

use std::marker::Model;

// The places, and how often an object failed. Places are meant to rise. Equal ones fail one after the other; while the
// first one lies behind, neither it nor any after it holds anything back.
#[derive(Debug, Drop)]
pub(crate) struct Stops {
    places: Vec<u64>,
    faults: u64,
}

impl Model for Stops {
    ghost use Rattle.qz_io.specs.Stops.{Stopping};

    ghost Value = { Stopping };

    ghost view = { λ s. record { places = s.places.items; faults = s.faults } };
}

// How many of the bytes come before the first stop that is left; none where that stop is here.
fn room(stops: &[u64], done: u64, most: usize) -> Option<usize>
    ensures stopped { IsNone result ↔ IsAtStop stops.now done }
    ensures amount { IfSome result (λ k. k ≡ before_stop done stops.now most) }
    ensures within { IfSome result (λ k. k ≤ most) }
    ensures some { IfSome result (λ k. 0 < most → 0 < k) }
{
    match stops {
        [stop, ..] if *stop == done => None,
        [stop, ..] if *stop > done => Some(most.min((*stop - done) as usize)),
        _ => Some(most),
    }
}

impl Stops {
    // No call has failed yet.
    pub(crate) fn new(places: Vec<u64>) -> Stops
        ensures { result ≡ record { places = places.items; faults = 0 } }
    {
        Stops { places, faults: 0 }
    }

    // How often calls have failed.
    pub(crate) fn faults(&self) -> u64
        ensures { result ≡ self.now.faults }
    {
        self.faults
    }

    // Counts a call that failed.
    pub(crate) fn count(&mut self)
        ensures counted { self.new ≡ record self.old { faults = counted self.old.faults } }
        ensures faults { self.old.faults ≤ self.new.faults }
    {
        self.faults = self.faults.saturating_add(1);
    }

    // How many of the bytes come before the first stop that is left. Where that stop is here, none: the call has
    // failed, and the stop is struck.
    pub(crate) fn pass(&mut self, done: u64, most: usize) -> Option<usize>
        ensures stopped { IsNone result ↔ IsAtStop self.old.places done }
        ensures amount { IfSome result (λ k. k ≡ before_stop done self.old.places most) }
        ensures within { IfSome result (λ k. k ≤ most) }
        ensures some { IfSome result (λ k. 0 < most → 0 < k) }
        ensures passed { OnSome result (self.new ≡ self.old) }
        ensures struck { result ≡ None → self.new ≡ record { places = drop 1 self.old.places; faults = counted self.old.faults } }
        ensures faults { self.old.faults ≤ self.new.faults }
    {
        let room = room(&self.places, done, most);
        if room.is_none() {
            self.places.remove(0);
            self.count();
        }
        room
    }
}
