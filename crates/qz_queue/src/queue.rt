//! A queue: at most so many different circuits, in order.
ghost use Rattle.std.specs.Prelude.{◌≡◌, ◌<◌, ◌≤◌, ◌-◌, ◌↔◌, ◌++◌, min, nat_le, nat_lt, true, false, vec_len, vec_capacity, IsTrue, None, Some, [], ◌∷◌, length, map, take, drop, count_by, slice_get, IfOk, OnOk, OnErr, IfSome};
ghost use Rattle.std.specs.List.{insert, filter};
ghost use Rattle.qz_circ.specs.ProgramCircuits.{ProgramCircuit, AreWeights, ones, cost};
ghost use Rattle.qz_circ.specs.Queue.{IsQueue, IsRefused, firsts};
ghost use Rattle.qz_queue.specs.Bars.{IsBar};
ghost use Rattle.qz_queue.specs.HeldQueue.{IsPlace};
ghost use Rattle.qz_circ.specs.Vectors.{lists_of};
ghost use Rattle.qz_queue.specs.Circuits.{circuits_of, ArePriced};

use crate::bar::{Bar, bar_of};
use crate::place::{Seek, find};
use crate::priced::Priced;
use qz_circ::{Inst, Memory, price};
use std::alloc::Global;
use std::marker::Model;

/// At most so many different circuits, in the order of programs by some weights: a cheaper one first, of equally cheap ones a
/// shorter one, and then that whose first different gate is earlier.
#[derive(Drop)]
pub struct Queue {
    alloc: Global,
    cap: usize,
    weights: [u8; 4],
    list: Vec<Priced>,
}

impl Model for Queue {
    ghost use Rattle.qz_circ.specs.Queue.{QueueList};
    ghost use Rattle.qz_queue.specs.HeldQueue.{queue_of, IsHeld};

    ghost Value = { QueueList };

    ghost view = { λ q. queue_of q.cap q.weights q.list };

    ghost invariant = { λ q. IsHeld q.cap q.weights q.list };
}

// Puts a circuit in at a place, in a list that holds at most so many, and drops the last one where there are then too many.
// There is room, so it always succeeds.
fn put(list: &mut Vec<Priced>, most: usize, place: usize, c: Priced) -> bool
    requires room { most ≤ vec_capacity list.old }
    requires below { place < most }
    requires within { place ≤ vec_len list.old }
    ensures items { list.new.items ≡ insert (take (most - 1) list.old.items) place c }
    ensures room { most ≤ vec_capacity list.new }
    ensures always { result ≡ true }
{
    list.truncate(most - 1);
    list.insert(place, c).is_ok()
}

// The lesser of two numbers.
fn least(k: u64, n: usize) -> usize
    ensures value { result ≡ min k n }
{
    if k < n as u64 { k as usize } else { n }
}

// Moves the first n circuits into a vector that has room for them.
fn take_front(list: &mut Vec<Priced>, room: Vec<Vec<Inst>>, n: usize) -> Vec<Vec<Inst>>
    requires within { n ≤ vec_len list.old }
    requires empty { room.items ≡ [] }
    requires room { n ≤ vec_capacity room }
    ensures taken { lists_of result.items ≡ circuits_of (take n list.old.items) }
    ensures rest { list.new.items ≡ drop n list.old.items }
    ensures capacity { vec_capacity list.new ≡ vec_capacity list.old }
{
    let mut taken = room;
    for c in list.drain(..n) {
        taken.push_reserved(c.gates);
    }
    taken
}

// Copies of circuits, in a vector that has room for this many.
fn copies_of(alloc: Global, list: &[Priced], most: usize) -> Result<Vec<Priced>, Memory>
    requires within { length list.now ≤ most }
    ensures same { IfOk result (λ copies. circuits_of copies.items ≡ circuits_of list.now) }
    ensures prices { IfOk result (λ copies. map (λ p. p.price) copies.items ≡ map (λ p. p.price) list.now) }
    ensures room { IfOk result (λ copies. most ≤ vec_capacity copies) }
{
    let Ok(room) = Vec::with_capacity(alloc, most) else {
        return Err(Memory);
    };
    let mut copies = room;
    for c in list {
        copies.push_reserved(c.copy(alloc)?);
    }
    Ok(copies)
}

// The first of circuits that has at most this many gates, if any.
fn first_within(list: &[Priced], most: u64) -> Option<&Priced>
    ensures first { IfSome result (λ p. slice_get (filter (λ c. nat_le (length c) most) (circuits_of list.now)) 0 ≡ Some p.now.gates.items) }
    ensures none { result ≡ None → filter (λ c. nat_le (length c) most) (circuits_of list.now) ≡ [] }
{
    for p in list {
        if p.gates.len() as u64 <= most {
            return Some(p);
        }
    }
    None
}

impl Queue {
    /// An empty queue that holds at most this many circuits, and orders them by these weights, of H, X, CX and rotations. Room for
    /// them all is made here.
    pub fn weighted(alloc: Global, cap: u64, weights: [u8; 4]) -> Result<Queue, Memory>
        requires some { 1 ≤ cap }
        requires few { cap ≤ 500 }
        requires weighed { AreWeights weights }
        ensures { IfOk result (λ q. q ≡ record { cap = cap; weights = weights; list = [] }) }
    {
        let cap = cap as usize;
        match Vec::with_capacity(alloc, cap) {
            Ok(list) => Ok(Queue {
                alloc,
                cap,
                weights,
                list,
            }),
            Err(_) => Err(Memory),
        }
    }

    /// The same where each gate weighs 1.
    pub fn new(alloc: Global, cap: u64) -> Result<Queue, Memory>
        requires some { 1 ≤ cap }
        requires few { cap ≤ 500 }
        ensures { IfOk result (λ q. q ≡ record { cap = cap; weights = ones; list = [] }) }
    {
        Queue::weighted(alloc, cap, [1, 1, 1, 1])
    }

    /// The weights of H, X, CX and rotations, each from 1 to 100.
    pub fn weights(&self) -> [u8; 4]
        ensures value { result ≡ self.now.weights }
        ensures lawful { IsQueue self.now }
    {
        self.weights
    }

    // Where a circuit of this cost would stand, sought in this order, and whether it is refused.
    fn place_by(&self, c: &[Inst], price: u128, seek: Seek) -> (usize, bool)
        requires { price ≡ cost self.now.weights c.now }
        ensures refused { (result.1 ≡ true) ↔ IsRefused self.now c.now }
        ensures same { result.1 ≡ true → firsts self.now.weights self.now.cap (c.now ∷ self.now.list) ≡ self.now.list }
        ensures place { result.1 ≡ false → IsPlace self.now c.now result.0 }
    {
        let (place, found) = find(&self.list, c, price, self.weights, seek);
        if found {
            return (place, true);
        }
        (place, place == self.cap)
    }

    /// Where a circuit, whose cost is known, would stand, if it isn't refused.
    pub fn place(&self, c: &[Inst], price: u128) -> Option<usize>
        requires { price ≡ cost self.now.weights c.now }
        ensures none { (result ≡ None) ↔ IsRefused self.now c.now }
        ensures same { result ≡ None → firsts self.now.weights self.now.cap (c.now ∷ self.now.list) ≡ self.now.list }
        ensures some { IfSome result (IsPlace self.now c.now) }
    {
        let (place, refused) = self.place_by(c, price, Seek::Ends);
        if refused { None } else { Some(place) }
    }

    /// Puts a circuit that isn't refused, and whose cost is known, in its place, and drops the last one where there are then too many.
    /// It takes no memory.
    pub fn put_at(&mut self, place: usize, c: Vec<Inst>, price: u128)
        requires price { price ≡ cost self.old.weights c.items }
        requires place { IsPlace self.old c.items place }
        ensures { self.new ≡ record self.old { list = firsts self.old.weights self.old.cap (c.items ∷ self.old.list) } }
    {
        put(&mut self.list, self.cap, place, Priced { price, gates: c });
    }

    // Offers a circuit of this cost, whose place is sought from a number on; the place.
    fn offer_from(&mut self, c: Vec<Inst>, price: u128, from: usize) -> usize
        requires { price ≡ cost self.old.weights c.items }
        ensures { self.new ≡ record self.old { list = firsts self.old.weights self.old.cap (c.items ∷ self.old.list) } }
    {
        let (place, refused) = self.place_by(&c, price, Seek::From(from));
        if !refused {
            self.put_at(place, c, price);
        }
        place
    }

    /// Puts a circuit in its place, and drops the last one where there are then too many. False, with nothing changed, where
    /// the circuit is there, or where as many earlier ones are there as the queue holds at most. It takes no memory.
    pub fn offer(&mut self, c: Vec<Inst>) -> bool
        ensures list { self.new ≡ record self.old { list = firsts self.old.weights self.old.cap (c.items ∷ self.old.list) } }
        ensures refused { (result ≡ false) ↔ IsRefused self.old c.items }
        ensures kept { result ≡ false → self.new ≡ self.old }
    {
        let price = price(&c, self.weights);
        self.offer_at(c, price)
    }

    /// The same of a circuit whose cost is known.
    pub fn offer_at(&mut self, c: Vec<Inst>, price: u128) -> bool
        requires { price ≡ cost self.old.weights c.items }
        ensures list { self.new ≡ record self.old { list = firsts self.old.weights self.old.cap (c.items ∷ self.old.list) } }
        ensures refused { (result ≡ false) ↔ IsRefused self.old c.items }
        ensures kept { result ≡ false → self.new ≡ self.old }
    {
        let (place, refused) = self.place_by(&c, price, Seek::Ends);
        if refused {
            return false;
        }
        self.put_at(place, c, price);
        true
    }

    /// Takes out the first k circuits, or all where there are fewer. After an error nothing has changed.
    pub fn take_batch(&mut self, k: u64) -> Result<Vec<Vec<Inst>>, Memory>
        ensures taken { IfOk result (λ batch. lists_of batch.items ≡ take k self.old.list) }
        ensures rest { OnOk result (self.new ≡ record self.old { list = drop k self.old.list }) }
        ensures err { OnErr result (self.new ≡ self.old) }
    {
        let n = least(k, self.list.len());
        let Ok(room) = Vec::with_capacity(self.alloc, n) else {
            return Err(Memory);
        };
        Ok(take_front(&mut self.list, room, n))
    }

    /// A queue of its own with the same circuits.
    pub fn copy(&self) -> Result<Queue, Memory>
        ensures same { IfOk result (λ q. q ≡ self.now) }
        ensures lawful { IsQueue self.now }
    {
        let list = copies_of(self.alloc, &self.list, self.cap)?;
        Ok(Queue {
            alloc: self.alloc,
            cap: self.cap,
            weights: self.weights,
            list,
        })
    }

    /// Takes in all circuits of another queue with the same greatest number and the same weights. It takes no memory.
    pub fn merge(&mut self, other: Queue)
        requires cap { self.old.cap ≡ other.cap }
        requires weights { self.old.weights ≡ other.weights }
        ensures { self.new ≡ record self.old { list = firsts self.old.weights self.old.cap (self.old.list ++ other.list) } }
    {
        let _ = &self.list;
        let mut from = 0;
        for c in other.list {
            from = self.offer_from(c.gates, c.price, from);
        }
    }

    /// The first circuit, if any.
    pub fn best(&self) -> Option<&[Inst]>
        ensures first { IfSome result (λ b. slice_get self.now.list 0 ≡ Some b.now) }
        ensures none { (result ≡ None) ↔ (self.now.list ≡ []) }
        ensures lawful { IsQueue self.now }
    {
        match self.list.first() {
            Some(c) => Some(&c.gates),
            None => None,
        }
    }

    /// How many circuits it holds.
    pub fn len(&self) -> u64
        ensures value { result ≡ length self.now.list }
        ensures lawful { IsQueue self.now }
    {
        self.list.len() as u64
    }

    /// The first circuit of at most this many gates, if any.
    pub fn best_within(&self, most: u64) -> Option<&[Inst]>
        ensures first { IfSome result (λ b. slice_get (filter (λ c. nat_le (length c) most) self.now.list) 0 ≡ Some b.now) }
        ensures none { result ≡ None → filter (λ c. nat_le (length c) most) self.now.list ≡ [] }
        ensures lawful { IsQueue self.now }
    {
        match first_within(&self.list, most) {
            Some(c) => Some(&c.gates),
            None => None,
        }
    }

    /// Whether it refuses this circuit, whose cost is known: the circuit is there, or as many earlier ones are there as the queue
    /// holds at most. To offer it would change nothing.
    pub fn refuses(&self, c: &[Inst], price: u128) -> bool
        requires { price ≡ cost self.now.weights c.now }
        ensures exact { IsTrue result ↔ IsRefused self.now c.now }
        ensures same { IsTrue result → firsts self.now.weights self.now.cap (c.now ∷ self.now.list) ≡ self.now.list }
    {
        self.place_by(c, price, Seek::Ends).1
    }

    /// Whether as many circuits of less than this cost are there as the queue holds at most, so that it refuses each circuit of
    /// this cost or more.
    pub fn is_closed_to_cost(&self, n: u128) -> bool
        ensures exact { IsTrue result ↔ (self.now.cap ≤ count_by (λ d. nat_lt (cost self.now.weights d) n) self.now.list) }
        ensures refused { IsTrue result → (c : ProgramCircuit) → n ≤ cost self.now.weights c → firsts self.now.weights self.now.cap (c ∷ self.now.list) ≡ self.now.list }
    {
        if self.list.len() < self.cap {
            return false;
        }
        match self.list.last() {
            Some(c) => c.price < n,
            None => false,
        }
    }

    /// What a full queue's last circuit tells of circuits that begin as a program does, where it is before the program at their
    /// first different gate.
    pub fn bar(&self, c: &[Inst]) -> Option<Bar>
        ensures { IfSome result (IsBar self.now c.now) }
    {
        if self.list.len() < self.cap {
            return None;
        }
        match self.list.last() {
            Some(last) => bar_of(&last.gates, last.price, c),
            None => None,
        }
    }
}
