//! A round, in which workers claim the ranks of a list and put them into the lists of their homes.
ghost use Rattle.std.specs.Prelude.{◌≡◌, ◌↔◌, ◌<◌, ◌≤◌, None, true, [], length, slice_index, slice_index_or, IsTrue, IsOk, IfOk, OnErr};
ghost use Rattle.qz_core.specs.RoundMachine.{IsRoundOf, IsRound, IsFinished, opened, claim_answer, claimed, is_pending, put};

use crate::lists::{append_to, are_empty, empty_lists, home_in, place_of, remove_from};
use qz_circ::Memory;
use std::alloc::Global;
use std::marker::Model;

/// The rank isn't pending for this worker.
#[derive(Clone, Copy, Debug, PartialEq, Eq)]
pub struct NotPending;

/// A round over a list of ranks: each worker claims ranks and puts them, in any order of the workers' calls. No call but `new` takes
/// memory.
#[derive(Drop)]
pub struct Round {
    list: Vec<u64>,
    homes: Vec<u8>,
    next: usize,
    pending: Vec<Vec<u64>>,
    shards: Vec<Vec<u64>>,
}

impl Model for Round {
    ghost use Rattle.qz_core.specs.RoundMachine.{RoundState};
    ghost use Rattle.qz_circ.specs.Vectors.{lists_of};
    ghost use Rattle.qz_core.specs.HeldRound.{round_of, IsHeld};

    ghost Value = { RoundState };

    ghost view = { λ r. round_of r.list.items r.homes.items r.next r.pending.items r.shards.items };

    ghost invariant = { λ r. IsHeld (round_of r.list.items r.homes.items r.next r.pending.items r.shards.items) r.pending.items r.shards.items };
}

impl Round {
    /// A round of 1 to 16 workers before the first event, over ranks that rise and the home of each, which is below 16. Room for all
    /// that the workers will claim and put is made here.
    pub fn new(alloc: Global, workers: u64, list: &[u64], homes: &[u8]) -> Result<Round, Memory>
        requires some { 1 ≤ workers }
        requires sixteen { workers ≤ 16 }
        requires input { IsRoundOf list.now homes.now }
        ensures opened { IfOk result (λ round. round ≡ opened workers list.now homes.now) }
        ensures round { IfOk result (IsRound workers) }
    {
        let pending = empty_lists(alloc, workers as usize, list.len())?;
        let shards = empty_lists(alloc, 16, list.len())?;
        let Ok(list) = list.to_vec(alloc) else {
            return Err(Memory);
        };
        let Ok(homes) = homes.to_vec(alloc) else {
            return Err(Memory);
        };
        Ok(Round {
            list,
            homes,
            next: 0,
            pending,
            shards,
        })
    }

    /// The next rank of the list, which is then pending for the worker; workers are counted from 0. None, with nothing changed, where
    /// all are claimed.
    pub fn claim(&mut self, worker: u64) -> Option<u64>
        requires { worker < length self.old.pending }
        ensures answer { result ≡ claim_answer self.old }
        ensures none { (result ≡ None) ↔ (self.old.next ≡ length self.old.list) }
        ensures state { self.new ≡ claimed self.old worker }
        ensures kept { result ≡ None → self.new ≡ self.old }
        ensures round { IsRound (length self.old.pending) self.new }
    {
        if self.next == self.list.len() {
            return None;
        }
        let r = self.list[self.next];
        append_to(&mut self.pending, worker as usize, r);
        self.next += 1;
        Some(r)
    }

    /// Moves a rank that is pending for the worker to the end of its home's list. `NotPending`, with nothing changed, where it isn't
    /// pending for that worker.
    pub fn put(&mut self, worker: u64, r: u64) -> Result<(), NotPending>
        requires { worker < length self.old.pending }
        ensures pending { IsOk result ↔ (is_pending self.old worker r ≡ true) }
        ensures state { self.new ≡ put self.old worker r }
        ensures kept { OnErr result (self.new ≡ self.old) }
        ensures round { IsRound (length self.old.pending) self.new }
    {
        let worker = worker as usize;
        let Some(place) = place_of(&self.pending[worker], r) else {
            return Err(NotPending);
        };
        remove_from(&mut self.pending, worker, place);
        let home = home_in(&self.list, &self.homes, r);
        append_to(&mut self.shards, home, r);
        Ok(())
    }

    /// Whether all ranks are claimed and none is pending.
    pub fn finished(&self) -> bool
        ensures { IsTrue result ↔ IsFinished self.now }
    {
        self.next == self.list.len() && are_empty(&self.pending)
    }

    /// How many ranks the list of a shard has; shards are counted from 0.
    pub fn shard_len(&self, s: u64) -> u64
        requires { s < 16 }
        ensures { result ≡ length (slice_index_or self.now.shards s []) }
    {
        self.shards[s as usize].len() as u64
    }

    /// The rank at this place of the list of a shard; places are counted from 0.
    pub fn shard_entry(&self, s: u64, i: u64) -> u64
        requires shard { s < 16 }
        requires place { i < length (slice_index_or self.now.shards s []) }
        ensures { result ≡ slice_index (slice_index_or self.now.shards s []) i }
    {
        self.shards[s as usize][i as usize]
    }
}
