//! Queues of circuits, and plans of searches.
ghost use Rattle.std.specs.Prelude.{◌≡◌, IfSome};
ghost use Rattle.qz_circ.specs.ProgramCircuits.{ones};

use qz_circ::Inst;
use qz_queue::{Queue, Seen};
use qz_search::{Plan, PlanFault};
use std::alloc::Global;

// The answer to the offer of a circuit.
fn offer(alloc: Global, queue: &mut Queue, c: &[Inst]) -> Option<bool> {
    let copy = Vec::from_slice(alloc, c).ok()?;
    Some(queue.offer(copy))
}

// Whether this circuit is the first in the queue.
fn is_best(queue: &Queue, c: &[Inst]) -> bool {
    match queue.best() {
        Some(best) => best == c,
        None => false,
    }
}

// Offers to a queue of at most two circuits: the fourth drops the last one, and the others are refused.
fn keeps_the_first_two(alloc: Global, queue: &mut Queue) -> Option<bool> {
    let taken = offer(alloc, queue, &[Inst::H(0)])? && offer(alloc, queue, &[Inst::X(0)])?;
    let again = offer(alloc, queue, &[Inst::H(0)])?;
    let empty = offer(alloc, queue, &[])?;
    let dropped = offer(alloc, queue, &[Inst::X(0)])?;
    Some(taken && !again && empty && !dropped && queue.len() == 2 && is_best(queue, &[]))
}

// Takes the first circuit out, which is empty.
fn takes_the_first(queue: &mut Queue) -> Option<bool> {
    let batch = queue.take_batch(1).ok()?;
    let empty = batch.len() == 1 && batch[0].is_empty();
    Some(empty && queue.len() == 1 && is_best(queue, &[Inst::H(0)]))
}

// A queue of at most two circuits that holds one.
fn queue_with(alloc: Global, c: &[Inst]) -> Option<Queue>
    ensures cap { IfSome result (λ queue. queue.cap ≡ 2) }
    ensures weights { IfSome result (λ queue. queue.weights ≡ ones) }
{
    let mut queue = Queue::new(alloc, 2).ok()?;
    let copy = Vec::from_slice(alloc, c).ok()?;
    queue.offer(copy);
    Some(queue)
}

// Which circuits a full queue is closed to, and that it takes one that is earlier.
#[tactic(auto, unfolding(qz_circ::specs::ProgramCircuits::cost))]
fn is_closed(queue: &Queue) -> bool {
    queue.is_closed_to_cost(2) && !queue.is_closed_to_cost(1) && !queue.refuses(&[], 0)
}

// Merges a queue that holds one circuit into another.
fn merges_another(alloc: Global) -> Option<bool> {
    let mut queue = queue_with(alloc, &[Inst::H(0)])?;
    let other = queue_with(alloc, &[Inst::X(0)])?;
    queue.merge(other);
    let full = queue.len() == 2 && is_best(&queue, &[Inst::H(0)]) && is_closed(&queue);
    let first = queue.take_batch(1).ok()?;
    let both = first.len() == 1 && is_best(&queue, &[Inst::X(0)]);
    Some(full && both)
}

fn queue_row(alloc: Global) -> Option<bool> {
    let mut queue = Queue::new(alloc, 2).ok()?;
    let kept = keeps_the_first_two(alloc, &mut queue)?;
    let taken = takes_the_first(&mut queue)?;
    let merged = merges_another(alloc)?;
    Some(kept && taken && merged)
}

// Where X weighs 5, two H are before one X, which has fewer gates.
fn the_cheaper_one_is_first(alloc: Global) -> Option<bool> {
    let mut queue = Queue::weighted(alloc, 2, [1, 5, 1, 1]).ok()?;
    let both = offer(alloc, &mut queue, &[Inst::X(0)])?
        && offer(alloc, &mut queue, &[Inst::H(0), Inst::H(0)])?;
    let weights = queue.weights() == [1, 5, 1, 1];
    let short = match queue.best_within(1) {
        Some(first) => first == [Inst::X(0)].as_slice(),
        None => false,
    };
    Some(both && weights && short && is_best(&queue, &[Inst::H(0), Inst::H(0)]))
}

// Puts two circuits into a set, one of them twice.
fn seen_row(alloc: Global) -> Option<bool> {
    let mut seen = Seen::new(alloc);
    seen.insert(Vec::from_slice(alloc, &[Inst::X(0)]).ok()?)
        .ok()?;
    seen.insert(Vec::from_slice(alloc, &[Inst::H(0)]).ok()?)
        .ok()?;
    seen.insert(Vec::from_slice(alloc, &[Inst::X(0)]).ok()?)
        .ok()?;
    let both = seen.contains(&[Inst::X(0)]) && seen.contains(&[Inst::H(0)]);
    Some(both && !seen.contains(&[]))
}

#[test]
fn a_queue_of_two_keeps_the_first_and_a_set_all(rt: HostRuntime) {
    assert!(rt; queue_row(rt.alloc()) == Some(true));
    assert!(rt; the_cheaper_one_is_first(rt.alloc()) == Some(true));
    assert!(rt; seen_row(rt.alloc()) == Some(true));
}

// Whether a plan with these numbers has this fault.
fn has_fault(rounds: u64, batch: u64, cap: u64, slack: u64, wanted: PlanFault) -> bool {
    match Plan::new(rounds, batch, cap, slack) {
        Ok(_) => false,
        Err(found) => found == wanted,
    }
}

// Whether these numbers make a plan, which tells them again.
fn is_plan(rounds: u64, batch: u64, cap: u64, slack: u64) -> bool {
    match Plan::new(rounds, batch, cap, slack) {
        Ok(plan) => plan.rounds() == rounds
            && plan.batch() == batch
            && plan.cap() == cap
            && plan.slack() == slack,
        Err(_) => false,
    }
}

// Whether a plan with this slack and these weights has this fault.
fn has_weight_fault(slack: u64, weights: [u64; 4], wanted: PlanFault) -> bool {
    match Plan::weighted(16, 8, 100, slack, weights) {
        Ok(_) => false,
        Err(found) => found == wanted,
    }
}

// Whether these weights make a plan, which tells them again.
fn is_weighted(weights: [u64; 4], wanted: [u8; 4]) -> bool {
    match Plan::weighted(16, 8, 100, 0, weights) {
        Ok(plan) => plan.weights() == wanted,
        Err(_) => false,
    }
}

#[test]
fn gates_weigh_from_1_to_100(rt: HostRuntime) {
    assert!(rt; is_weighted([1, 1, 100, 1], [1, 1, 100, 1]));
    assert!(rt; has_weight_fault(0, [1, 1, 101, 1], PlanFault::Weight));
    assert!(rt; has_weight_fault(4, [1, 1, 1, 0], PlanFault::Weight));
    assert!(rt; has_weight_fault(5, [0, 1, 1, 1], PlanFault::Slack));
}

#[test]
fn plans_are_refused_by_their_first_fault(rt: HostRuntime) {
    assert!(rt; is_plan(64, 64, 500, 4) && is_plan(4096, 1, 1, 0) && is_plan(0, 64, 500, 0));
    assert!(rt; has_fault(65, 64, 500, 4, PlanFault::Rounds));
    assert!(rt;
        has_fault(0, 0, 0, 9, PlanFault::Batch) && has_fault(0, 65, 0, 9, PlanFault::Batch)
    );
    assert!(rt;
        has_fault(9999, 1, 0, 9, PlanFault::Cap) && has_fault(9999, 1, 501, 9, PlanFault::Cap)
    );
    assert!(rt;
        has_fault(u64::MAX, 2, 1, 9, PlanFault::Rounds) && has_fault(1, 1, 1, 5, PlanFault::Slack)
    );
}
