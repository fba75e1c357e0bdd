//! What one worker does in a round.
ghost use Rattle.std.specs.Prelude.{◌≡◌, ◌⊎◌, true, OnOk, IfOk, []};
ghost use Rattle.qz_circ.specs.Queue.{IsQueue};
ghost use Rattle.qz_seats.specs.Parts.{IsOf};
ghost use Rattle.qz_hunt.specs.Gathered.{gathered, IsGathered};

use qz_circ::{Inst, Memory};
use qz_match::Neighbours;
use qz_queue::Queue;
use qz_search::Rounds;
use qz_seats::{Moment, NoValue, Pass, Seats, Turnstile};
use std::alloc::Global;
use std::marker::Model;
use std::sync::Wait;

// A search in a round, with the circuits that the round took. Workers draw their numbers from the seats.
#[derive(Drop)]
pub(crate) struct Round {
    pub(crate) alloc: Global,
    pub(crate) search: Rounds,
    pub(crate) batch: Vec<Vec<Inst>>,
    pub(crate) seats: Seats<NoValue>,
}

impl Model for Round {
    ghost use Rattle.qz_circ.specs.Vectors.{lists_of};
    ghost use Rattle.qz_hunt.specs.Gathered.{RoundParts, IsRound};

    ghost Value = { RoundParts };

    ghost view = { λ r. record { search = r.search; batch = lists_of r.batch.items; seats = r.seats } };

    ghost invariant = { λ r. IsRound (record { search = r.search; batch = lists_of r.batch.items; seats = r.seats }) };
}

impl Round {
    // Draws a circuit and offers what it becomes to a queue. False where none is left.
    fn turn<T: Turnstile>(
        &self,
        pass: &mut Pass<NoValue>,
        neighbours: &mut Neighbours,
        queue: &mut Queue,
        worker: u64,
        stile: &T,
    ) -> Result<bool, Memory>
        requires of { IsOf pass.old self.now.seats }
        requires lawful { IsQueue queue.old }
        requires all { queue.old ≡ gathered self.now pass.old.view.drawn }
        ensures of { IsOf pass.new self.now.seats }
        ensures rest { pass.new.view ≡ record pass.old.view { drawn = pass.new.view.drawn; ended = pass.new.view.ended } }
        ensures all { OnOk result (queue.new ≡ gathered self.now pass.new.view.drawn) }
        ensures left { IfOk result (λ left. (left ≡ true) ⊎ (pass.new.view.ended ≡ true)) }
    {
        stile.at(worker, Moment::Claiming);
        let Some(n) = self.seats.draw(pass) else {
            return Ok(false);
        };
        stile.at(worker, Moment::Claimed);
        self.search
            .offer_children(self.alloc, neighbours, &self.batch[n as usize], queue)?;
        Ok(true)
    }

    // Gathers what the circuits become that this pass draws, until none is left.
    fn turns<R: Wait, T: Turnstile>(
        &self,
        rt: &R,
        pass: &mut Pass<NoValue>,
        worker: u64,
        stile: &T,
    ) -> Result<Queue, Memory>
        requires of { IsOf pass.old self.now.seats }
        requires none { pass.old.view.drawn ≡ [] }
        ensures of { IsOf pass.new self.now.seats }
        ensures rest { pass.new.view ≡ record pass.old.view { drawn = pass.new.view.drawn; ended = pass.new.view.ended } }
        ensures gathered { IfOk result (IsGathered self.now pass.new.view) }
    {
        let mut queue = self.search.queue()?;
        let mut neighbours = Neighbours::of(self.alloc, &[])?;
        for _ in rt.forever() {
            if !self.turn(pass, &mut neighbours, &mut queue, worker, stile)? {
                return Ok(queue);
            }
        }
        unreachable!()
    }

    // The same, with its end told.
    pub(crate) fn work<R: Wait, T: Turnstile>(
        &self,
        rt: &R,
        pass: &mut Pass<NoValue>,
        worker: u64,
        stile: &T,
    ) -> Result<Queue, Memory>
        requires of { IsOf pass.old self.now.seats }
        requires none { pass.old.view.drawn ≡ [] }
        ensures of { IsOf pass.new self.now.seats }
        ensures rest { pass.new.view ≡ record pass.old.view { drawn = pass.new.view.drawn; ended = pass.new.view.ended } }
        ensures gathered { IfOk result (IsGathered self.now pass.new.view) }
    {
        let found = self.turns(rt, pass, worker, stile);
        stile.at(worker, Moment::Ended);
        found
    }
}
