//! The table and its calls.
ghost use Rattle.std.specs.Prelude.{◌≡◌, ◌≢◌, ◌⊎◌, ℕ, ◌+◌, ◌^◌, ◌<◌, ◌≤◌, false, true, vec_len, vec_capacity, IfOk, List, [], ◌∷◌, map, length, slice_get, None, Some};
ghost use Rattle.std.specs.Mem.Slots.{IsFull, slots_len, slots_items};
ghost use mathlib.Core.Option.{some};
ghost use lib.ListN.{get_elem?};
ghost use Rattle.qz_seats.specs.Views.{draws, drawing, taking, losing, giving, adding, after_split, newcomer, joined, first_view};
ghost use Rattle.qz_seats.specs.SeatRule.{terms_of, count_of, mark_of, IsAt};
ghost use Rattle.qz_seats.specs.Steps.{IsLifted, IsLook};
ghost use Rattle.qz_seats.specs.Parts.{IsOf};
ghost use Rattle.qz_seats.specs.Answers.{Drew, HaveNames, LiftGives, HasOneMore, IsClosed};

use crate::journal::Journal;
use crate::pass::Pass;
use crate::receipt::Receipt;
use crate::rule::{Both, Draw, Lifting, Look, Opening, Rule, SettleOne, SettleSame, Share};
use crate::view::View;
use atomic_table::{Closed, Refused, Seat, Table};
use qz_circ::Memory;
use std::alloc::Global;
use std::marker::Model;
use std::snapshot::Snapshot;

/// What a try to lift a value gives.
#[derive(Drop)]
pub enum Lift<V> {
    /// The value, which the pass then holds.
    Won(V),
    /// The value was out.
    Lost,
}

/// Numbers to draw and values to lend, for as many passes as there are seats. Contracts see which table it is and what it was
/// opened with.
#[derive(Drop)]
pub struct Seats<V: Journal> {
    table: Table<Option<V>, View, Opening<V>, Rule, Global>,
    limit: u64,
    room: Vec<V>,
}

impl<V: Journal> Model for Seats<V> {
    ghost use Rattle.std.specs.Prelude.{vec_capacity};
    ghost use Rattle.qz_seats.specs.SeatRule.{terms_of};
    ghost use Rattle.qz_seats.specs.Parts.{SeatsParts, IsSeats};

    ghost Value = { SeatsParts };

    ghost view = { λ s. record { table = s.table.shared.table_id; terms = terms_of V.journal V.names V.mark s.table.shared.key.limit s.table.shared.key.seats s.table.shared.key.values.value.items } };

    ghost invariant = { λ s. IsSeats (terms_of V.journal V.names V.mark s.table.shared.key.limit s.table.shared.key.seats s.table.shared.key.values.value.items) s.table.shared.table_id.words s.table.shared.table_id.slots s.limit s.room.items (vec_capacity s.room) };
}

// Moves all values, in order, into a vector that has room for them.
fn filled<V>(values: Vec<V>, slots: Vec<Option<V>>) -> Vec<Option<V>>
    requires empty { slots.items ≡ [] }
    requires room { vec_len values ≤ vec_capacity slots }
    ensures { result.items ≡ map Some values.items }
{
    let mut values = values;
    let mut slots = slots;
    while !values.is_empty() {
        slots.push_reserved(Some(values.remove(0)));
    }
    values.destroy_empty();
    slots
}

// Moves the values of all slots, in order, into a vector that has room for them.
fn emptied<V>(closed: Closed<Option<V>, Global>, room: Vec<V>) -> Vec<V>
    requires full { IsFull closed.slots }
    requires some { (k : ℕ) → k < slots_len closed.slots → (value : V) × (get_elem? (slots_items closed.slots) k ≡ some (Some value)) }
    requires empty { room.items ≡ [] }
    requires room { slots_len closed.slots ≤ vec_capacity room }
    ensures { map Some result.items ≡ slots_items closed.slots }
{
    let mut closed = closed;
    let mut values = room;
    for i in 0..closed.slot_count() {
        let slot = closed.take(i);
        values.push_reserved(slot.unwrap());
    }
    closed.free();
    values
}

impl<V: Journal> Seats<V> {
    /// A table of some values, and the pass with all its shares. The numbers below the limit are given out. Room for the values
    /// is made here, also for those that the closing hands back.
    pub fn open(
        alloc: Global,
        limit: u64,
        values: Vec<V>,
        seats: u64,
    ) -> Result<(Seats<V>, Pass<V>), Memory>
    where
        V: Drop,
        requires limit { limit ≤ 2 ^ 40 }
        requires values { vec_len values ≤ 16 }
        requires some_seat { 1 ≤ seats }
        requires few_seats { seats ≤ 16 }
        requires names { HaveNames V.names limit values.items }
        ensures terms { IfOk result (λ made. made.0.terms ≡ terms_of V.journal V.names V.mark limit seats values.items) }
        ensures of { IfOk result (λ made. IsOf made.1 made.0) }
        ensures view { IfOk result (λ made. made.1.view ≡ first_view made.0.terms) }
    {
        let count = values.len();
        let opening = Opening {
            limit,
            seats,
            values: Snapshot::of(&values),
        };
        let Ok(room) = Vec::with_capacity(alloc, count) else {
            return Err(Memory);
        };
        let Ok(slots) = Vec::with_capacity(alloc, count) else {
            return Err(Memory);
        };
        let words = [0; 17];
        let (words, _) = words.split_at(count + 1);
        match Table::new(alloc, words, filled(values, slots), &opening) {
            Ok((table, seat)) => Ok((
                Seats { table, limit, room },
                Pass {
                    seat,
                    shares: seats,
                    ended: false,
                },
            )),
            Err(Refused { slots: _ }) => Err(Memory),
        }
    }

    /// A number below the limit, which no other draw of any pass gives. None exactly where the pass was ended, or where the
    /// number that came is at least the limit, which ends it. It waits for nobody.
    pub fn draw(&self, pass: &mut Pass<V>) -> Option<u64>
        requires { IsOf pass.old self.now }
        ensures of { IsOf pass.new self.now }
        ensures drew { Drew pass.old.view result pass.new.view }
        ensures rest { pass.new.view ≡ record pass.old.view { drawn = pass.new.view.drawn; ended = pass.new.view.ended } }
    {
        if pass.ended {
            return None;
        }
        let n = self.table.shared.fetch_add::<Draw>(&mut pass.seat, 0, 1);
        if n >= self.limit {
            pass.ended = true;
            return None;
        }
        Some(n)
    }

    /// Value i, where it was at home. Lost exactly where one step found it out, which is one loss of the pass. It waits for nobody.
    pub fn lift(&self, pass: &mut Pass<V>, i: u64) -> Lift<V>
        requires of { IsOf pass.old self.now }
        requires within { i < count_of self.now.terms }
        requires free { pass.old.view.held ≡ None }
        ensures of { IsOf pass.new self.now }
        ensures gives { LiftGives V.journal V.names V.mark pass.old.view i result pass.new.view }
    {
        let shared = &self.table.shared;
        let i = i as usize;
        if shared.compare_exchange::<Lifting>(&mut pass.seat, i + 1, 0, 1) != 0 {
            return Lift::Lost;
        }
        let value = shared.exchange(&mut pass.seat, i, None).unwrap();
        Lift::Won(value)
    }

    /// Gives value i back with one entry more, at the end of its journal, and gives a receipt for it. It waits for nobody.
    pub fn settle_one(&self, pass: &mut Pass<V>, i: u64, value: V) -> Receipt
        requires of { IsOf pass.old self.now }
        requires more { HasOneMore V.journal V.names V.mark pass.old.view i value }
        ensures of { IsOf pass.new self.now }
        ensures view { pass.new.view ≡ adding pass.old.view result }
        ensures shard { result.shard ≡ i }
        ensures place { result.place + 1 ≡ length (V.journal value) }
        ensures item { slice_get (V.journal value) result.place ≡ Some result.item }
    {
        let place = value.len() - 1;
        let item = value.entry(place);
        let shared = &self.table.shared;
        let old = shared.exchange(&mut pass.seat, i as usize, Some(value));
        let None = old else { unreachable!() };
        shared.store::<SettleOne>(&mut pass.seat, i as usize + 1, 0);
        Receipt {
            shard: i,
            place,
            item,
        }
    }

    /// Gives value i back with the journal that it had. It waits for nobody.
    pub fn settle_same(&self, pass: &mut Pass<V>, i: u64, value: V)
        requires of { IsOf pass.old self.now }
        requires held { pass.old.view.held ≡ Some (i, V.journal value) }
        requires same { IsAt V.journal V.names V.mark pass.old.view.terms i (V.journal value) value }
        ensures of { IsOf pass.new self.now }
        ensures view { pass.new.view ≡ giving pass.old.view }
    {
        let shared = &self.table.shared;
        let old = shared.exchange(&mut pass.seat, i as usize, Some(value));
        let None = old else { unreachable!() };
        shared.store::<SettleSame>(&mut pass.seat, i as usize + 1, 0);
    }

    /// A new pass, with one of the shares. It takes no memory.
    pub fn split(&self, pass: &mut Pass<V>) -> Pass<V>
        requires of { IsOf pass.old self.now }
        requires two { 2 ≤ pass.old.view.shares }
        requires free { pass.old.view.held ≡ None }
        ensures of { IsOf pass.new self.now }
        ensures new { IsOf result self.now }
        ensures view { pass.new.view ≡ after_split pass.old.view }
        ensures newcomer { result.view ≡ newcomer pass.old.view }
    {
        let seat = self.table.shared.split_seat::<Share>(&mut pass.seat);
        pass.shares -= 1;
        Pass {
            seat,
            shares: 1,
            ended: pass.ended,
        }
    }

    /// All that two passes have becomes the first one's. It takes no memory.
    pub fn join(&self, pass: &mut Pass<V>, other: Pass<V>)
        requires of { IsOf pass.old self.now }
        requires other { IsOf other self.now }
        requires free { pass.old.view.held ≡ None }
        requires other_free { other.view.held ≡ None }
        ensures of { IsOf pass.new self.now }
        ensures view { pass.new.view ≡ joined pass.old.view other.view }
        ensures once { (x : ℕ) → draws x pass.new.view < 2 }
    {
        let shared = &self.table.shared;
        let Pass {
            seat,
            shares,
            ended,
        } = other;
        shared.join_seat::<Both>(&mut pass.seat, seat);
        self.look(&mut pass.seat);
        pass.shares += shares;
        pass.ended |= ended;
    }

    // The counter. At the moment of the look no two passes have one number.
    fn look(&self, seat: &mut Seat<Option<V>, View>) -> u64
        requires of { seat.old.table_id ≡ self.now.table }
        requires live { 0 < seat.old.me.0.shares }
        ensures of { (seat.new.table_id ≡ seat.old.table_id) × (seat.new.id ≡ seat.old.id) }
        ensures look { IsLook seat.old.me seat.new.me }
    {
        self.table.shared.load::<Look>(seat, 0)
    }

    /// The values, in order, with all that was put into them. It takes no memory.
    pub fn close(self, pass: Pass<V>) -> Vec<V>
        requires of { IsOf pass self }
        requires all { pass.view.shares ≡ self.terms.seats }
        requires free { pass.view.held ≡ None }
        ensures { IsClosed V.journal V.names V.mark pass.view result.items }
    {
        let Pass { seat, .. } = pass;
        let Seats { table, room, .. } = self;
        emptied(table.close_with(seat), room)
    }
}
