//! What a round offers to the queue.
ghost use Rattle.std.specs.Prelude.{◌≡◌, false, [], ◌∷◌, ◌++◌, List, OnOk, IfOk};
ghost use Rattle.std.specs.List.{filter, flat_map};
ghost use Rattle.qz_circ.specs.ProgramCircuits.{ProgramCircuit, ones, cost, program_cmp};
ghost use Rattle.qz_circ.specs.Queue.{IsQueue, different};
ghost use Rattle.qz_circ.specs.Search.{earliest, is_short};
ghost use Rattle.qz_circ.specs.Vectors.{lists_of};
ghost use Rattle.qz_search.specs.Offers.{is_new, offered_to, AreFit};
ghost use Rattle.qz_search.specs.Tables.{children_by_table};

use crate::children::offer_children;
use crate::filter::Filter;
use crate::prepared::Prepared;
use qz_circ::{Inst, Memory, prec_by};
use qz_match::Neighbours;
use qz_queue::{Queue, Seen};
use std::alloc::Global;

// Offers a circuit of this cost to the queue where it is new; false where nothing has changed. Most are refused, so this is tested
// first.
pub(crate) fn offer_child(test: &Filter, c: Vec<Inst>, n: u64, queue: &mut Queue) -> bool
    requires lawful { IsQueue queue.old }
    requires cost { n ≡ cost queue.old.weights c.items }
    ensures kept { result ≡ false → queue.new ≡ queue.old }
    ensures offered { queue.new ≡ offered_to queue.old (filter (is_new queue.old.weights test.now.seen test.now.most) (c.items ∷ [])) }
{
    let price = u128::from(n);
    let Some(place) = queue.place(&c, price) else {
        return false;
    };
    if !test.passes(&c, n) {
        return false;
    }
    queue.put_at(place, c, price);
    true
}

// Offers to the queue what each of these circuits becomes by one step with the rules, where it is new.
pub(crate) fn offer_batch(
    alloc: Global,
    rules: &Prepared,
    test: &Filter,
    batch: &[Vec<Inst>],
    queue: &mut Queue,
) -> Result<(), Memory>
    requires lawful { IsQueue queue.old }
    requires fit { AreFit (lists_of batch.now) }
    ensures { OnOk result (queue.new ≡ offered_to queue.old (filter (is_new queue.old.weights test.now.seen test.now.most) (flat_map (children_by_table rules.now) (lists_of batch.now)))) }
{
    let mut neighbours = Neighbours::of(alloc, &[])?;
    for c in batch {
        offer_children(alloc, rules, &mut neighbours, test, c, queue)?;
    }
    Ok(())
}

// Puts these circuits into a set.
pub(crate) fn add_all(alloc: Global, seen: &mut Seen, batch: &[Vec<Inst>]) -> Result<(), Memory>
    ensures { OnOk result ((all : List ProgramCircuit) → seen.old ≡ different (program_cmp ones) all → seen.new ≡ different (program_cmp ones) (all ++ lists_of batch.now)) }
{
    for c in batch {
        seen.insert(copy_of(alloc, c)?)?;
    }
    Ok(())
}

// A copy of a circuit.
pub(crate) fn copy_of(alloc: Global, c: &[Inst]) -> Result<Vec<Inst>, Memory>
    ensures { IfOk result (λ copy. copy.items ≡ c.now) }
{
    match Vec::from_slice(alloc, c) {
        Ok(copy) => Ok(copy),
        Err(_) => Err(Memory),
    }
}

// The most gates of the best circuit.
const MOST_GATES: u64 = 20_000;

// The earlier one of a circuit and the first in the queue that has at most 20,000 gates.
pub(crate) fn earlier(alloc: Global, best: &[Inst], queue: &Queue) -> Result<Vec<Inst>, Memory>
    ensures { IfOk result (λ b. b.items ≡ earliest queue.now.weights best.now (filter is_short queue.now.list)) }
{
    match queue.best_within(MOST_GATES) {
        Some(first) => {
            if prec_by(first, best, queue.weights()).is_lt() {
                copy_of(alloc, first)
            } else {
                copy_of(alloc, best)
            }
        }
        None => copy_of(alloc, best),
    }
}
