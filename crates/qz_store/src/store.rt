//! The store and its calls.
ghost use Rattle.std.specs.Prelude.{◌≡◌, ◌≢◌, ◌⊎◌, ◌↔◌, ℕ, ◌<◌, ◌≤◌, true, length, None, Some, IfSome, IfOk, All};
ghost use Rattle.qz_circ.specs.Bounds.{IsLawful};
ghost use Rattle.qz_circ.specs.Order.{all_circuits};
ghost use Rattle.qz_shard.specs.Shards.{IsShard};
ghost use Rattle.qz_seats.specs.Views.{draws, after_split, newcomer, joined, first_view};
ghost use Rattle.qz_seats.specs.Parts.{IsOf};
ghost use Rattle.qz_store.specs.Stores.{list_of, print_in, IsFree, HasClaimed, HasReceipt, IsPending};
ghost use Rattle.qz_store.specs.Opening.{AreSixteen, IsNewList, IsOpened};
ghost use Rattle.qz_store.specs.Claims.{ClaimGives};
ghost use Rattle.qz_store.specs.Puts.{PutGives, PutCounts};
ghost use Rattle.qz_store.specs.Closing.{IsClosedStore};

use crate::kept::{Kept, Pass, packed, unpacked};
use qz_circ::{Bounds, Memory, Steps, unrank};
use qz_finger::Probe;
use qz_seats::{Lift, Receipt, Seats};
use qz_shard::Shard;
use std::alloc::Global;
use std::marker::Model;
use std::sync::ledger::Ledger;

/// What a try to put a rank gives.
pub enum Put {
    /// The rank stands in its shard, for good, at the receipt's place.
    Done(Receipt),
    /// The shard was out.
    Busy,
    /// Memory ran out, and the rank was not put.
    Memory,
}

/// A list of ranks, and the 16 shards into which their circuits go, for as many passes as there are seats. Contracts see the list, the
/// journals at the opening, the bounds, the probe and the number of seats.
#[derive(Drop)]
pub struct Store {
    alloc: Global,
    seats: Seats<Kept>,
    list: Vec<u64>,
    bounds: Bounds,
    probe: Probe,
    room: Vec<Shard>,
}

impl Model for Store {
    ghost use Rattle.std.specs.Prelude.{vec_capacity};
    ghost use Rattle.qz_store.specs.Stores.{StoreParts};
    ghost use Rattle.qz_store.specs.HeldStore.{IsStore};

    ghost Value = { StoreParts };

    ghost view = { λ s. record { seats = s.seats; bounds = s.bounds; probe = s.probe } };

    ghost invariant = { λ s. IsStore (record { seats = s.seats; bounds = s.bounds; probe = s.probe }) s.list.items s.room.items (vec_capacity s.room) };
}

impl Store {
    /// A store over a list of ranks and the 16 shards in order, for 1 to 16 passes, and the pass with all its shares. The ranks rise, and
    /// are of circuits within the bounds that are in no shard. Room for the shards is made here, also for those that the closing hands
    /// back.
    pub fn open(
        alloc: Global,
        list: Vec<u64>,
        old: Vec<Shard>,
        b: Bounds,
        probe: Probe,
        seats: u64,
    ) -> Result<(Store, Pass), Memory>
        requires list { IsNewList b old.items list.items }
        requires old { AreSixteen b probe old.items }
        requires some_seat { 1 ≤ seats }
        requires few_seats { seats ≤ 16 }
        ensures opened { IfOk result (λ made. IsOpened list.items old.items b probe seats made.0) }
        ensures free { IfOk result (λ made. IsFree made.0 made.1) }
        ensures view { IfOk result (λ made. made.1.view ≡ first_view made.0.seats.terms) }
    {
        let Ok(room) = Vec::with_capacity(alloc, 16) else {
            return Err(Memory);
        };
        let values = packed(alloc, &list, old)?;
        let (table, pass) = Seats::open(alloc, list.len() as u64, values, seats)?;
        let store = Store {
            alloc,
            seats: table,
            list,
            bounds: b,
            probe,
            room,
        };
        Ok((store, pass))
    }

    /// The bounds of its circuits.
    pub fn bounds(&self) -> Bounds
        ensures value { result ≡ self.now.bounds }
        ensures lawful { IsLawful self.now.bounds }
    {
        self.bounds
    }

    /// The probe of its fingerprints, which is for the bounds' qubits.
    pub fn probe(&self) -> Probe
        ensures value { result ≡ self.now.probe }
        ensures qubits { self.now.probe.q ≡ self.now.bounds.q }
    {
        self.probe
    }

    /// The next rank of the list, by one draw. None exactly where the pass was ended, or where all ranks are claimed, which ends it. It
    /// waits for nobody.
    pub fn claim(&self, pass: &mut Pass) -> Option<u64>
        requires { IsOf pass.old self.now.seats }
        ensures of { IsOf pass.new self.now.seats }
        ensures gives { ClaimGives pass.old.view result pass.new.view }
        ensures claims { (r : ℕ) → HasClaimed pass.new.view r ↔ (HasClaimed pass.old.view r ⊎ (result ≡ Some r)) }
        ensures pending { IfSome result (IsPending pass.new.view) }
        ensures listed { IfSome result (λ r. r < length (all_circuits self.now.bounds)) }
        ensures ended { (result ≡ None) ↔ (pass.new.view.ended ≡ true) }
        ensures limit { pass.new.view.terms.limit ≡ length (list_of self.now) }
        ensures rest { pass.new.view ≡ record pass.old.view { drawn = pass.new.view.drawn; ended = pass.new.view.ended } }
    {
        let number = self.seats.draw(pass)?;
        Some(self.list[number as usize])
    }

    /// Puts a rank that the pass has claimed, and has no receipt for, into its shard. Busy exactly where one step found the shard out,
    /// which is one loss of the pass. The steps count comparisons, at most as many as the receipt's place. It waits for nobody.
    pub fn try_put<L: Ledger>(&self, pass: &mut Pass, r: u64, steps: &mut Steps<L>) -> Put
        requires free { IsFree self.now pass.old }
        requires pending { IsPending pass.old.view r }
        ensures free { IsFree self.now pass.new }
        ensures gives { PutGives self.now pass.old.view r result pass.new.view }
        ensures counts { PutCounts steps.old result steps.new }
    {
        let Ok(circuit) = unrank(self.alloc, r, self.bounds) else {
            return Put::Memory;
        };
        let print = self.probe.finger(&circuit);
        self.try_put_with_print(pass, r, print, steps)
    }

    /// The same where the circuit's fingerprint is at hand.
    pub fn try_put_with_print<L: Ledger>(
        &self,
        pass: &mut Pass,
        r: u64,
        print: u64,
        steps: &mut Steps<L>,
    ) -> Put
        requires free { IsFree self.now pass.old }
        requires pending { IsPending pass.old.view r }
        requires print { print ≡ print_in self.now r }
        ensures free { IsFree self.now pass.new }
        ensures gives { PutGives self.now pass.old.view r result pass.new.view }
        ensures counts { PutCounts steps.old result steps.new }
    {
        let home = print % 16;
        let Lift::Won(kept) = self.seats.lift(pass, home) else {
            return Put::Busy;
        };
        let Kept { mut shard, names } = kept;
        match shard.add_with_print(r, print, steps) {
            Ok(_) => Put::Done(self.seats.settle_one(pass, home, Kept { shard, names })),
            Err(Memory) => {
                self.seats.settle_same(pass, home, Kept { shard, names });
                Put::Memory
            }
        }
    }

    /// A new pass, with one of the shares. It takes no memory.
    pub fn split(&self, pass: &mut Pass) -> Pass
        requires free { IsFree self.now pass.old }
        requires two { 2 ≤ pass.old.view.shares }
        ensures free { IsFree self.now pass.new }
        ensures new_free { IsFree self.now result }
        ensures view { pass.new.view ≡ after_split pass.old.view }
        ensures newcomer { result.view ≡ newcomer pass.old.view }
    {
        self.seats.split(pass)
    }

    /// All that two passes have becomes the first one's. It takes no memory.
    pub fn join(&self, pass: &mut Pass, other: Pass)
        requires free { IsFree self.now pass.old }
        requires other_free { IsFree self.now other }
        ensures free { IsFree self.now pass.new }
        ensures view { pass.new.view ≡ joined pass.old.view other.view }
        ensures once { (x : ℕ) → draws x pass.new.view < 2 }
        ensures claims { (r : ℕ) → HasClaimed pass.new.view r ↔ (HasClaimed pass.old.view r ⊎ HasClaimed other.view r) }
        ensures receipts { (r : ℕ) → HasReceipt pass.new.view r ↔ (HasReceipt pass.old.view r ⊎ HasReceipt other.view r) }
    {
        self.seats.join(pass, other);
    }

    /// The shards, in order, with all that was put into them. It takes no memory.
    pub fn close(self, pass: Pass) -> Vec<Shard>
        requires free { IsFree self pass }
        requires all { pass.view.shares ≡ self.seats.terms.seats }
        ensures grown { IsClosedStore self pass.view result.items }
        ensures shards { All IsShard result.items }
    {
        let Store { seats, room, .. } = self;
        unpacked(seats.close(pass), room)
    }
}
