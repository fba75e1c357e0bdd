//! The search by several workers.
ghost use Rattle.std.specs.Prelude.{◌≡◌, ℕ, ◌+◌, ◌≤◌, false, length, IfOk};
ghost use Rattle.std.specs.List.{AllByRecursion};
ghost use Rattle.std.specs.Ordering.{is_lt};
ghost use Rattle.qz_circ.specs.ProgramCircuits.{ProgramCircuit, IsProgramGate, EquivalentProgramCircuits, cost, program_cmp};
ghost use Rattle.qz_circ.specs.Replacement.{children};
ghost use Rattle.qz_circ.specs.Search.{best_found, IsComplete, IsReached, most_taken};
ghost use Rattle.qz_circ.specs.Vectors.{lists_of};
ghost use Rattle.qz_search.specs.Offers.{AreFit};
ghost use Rattle.qz_search.specs.Rounds.{new_children, advanced};
ghost use Rattle.qz_circ.specs.ProgramLimits.{most_qubits, most_gates};

use crate::crew::crew;
use crate::gather::Round;
use qz_circ::{Inst, Memory};
use qz_rulefile::Rules;
use qz_search::{Plan, Rounds};
use qz_seats::{Seats, Turnstile};
use std::alloc::Global;
use std::sync::Wait;
use std::thread::Threads;

// One circuit of so many is offered before the workers begin.
const AHEAD: usize = 16;

// The rest of a round that has taken these circuits: workers gather what they become, of which there are no more than circuits.
fn shared_round<R: Threads + Wait + Sync, T: Turnstile>(
    rt: &R,
    alloc: Global,
    search: Rounds,
    batch: Vec<Vec<Inst>>,
    workers: u64,
    stile: &T,
) -> Result<Rounds, Memory>
    requires some_worker { 1 ≤ workers }
    requires few_workers { workers ≤ 16 }
    requires fit { AreFit (lists_of batch.items) }
    requires few { length batch.items ≤ most_taken }
    ensures { IfOk result (λ next. next ≡ advanced search (new_children search (lists_of batch.items))) }
{
    let limit = batch.len() as u64;
    let (seats, pass) = Seats::open(alloc, limit, Vec::new(alloc), workers.min(limit).max(1))?;
    let round = Round {
        alloc,
        search,
        batch,
        seats,
    };
    let (pass, found) = crew(rt, &round, pass, 0, stile);
    round.seats.close(pass);
    let mut search = round.search;
    search.end_round(alloc, found?)?;
    Ok(search)
}

// The same, where the first of many circuits are offered before the workers begin: then each worker's queue, which begins as a copy of
// the search's, is full and refuses most of what it is offered.
fn next_round<R: Threads + Wait + Sync, T: Turnstile>(
    rt: &R,
    alloc: Global,
    search: Rounds,
    batch: Vec<Vec<Inst>>,
    workers: u64,
    stile: &T,
) -> Result<Rounds, Memory>
    requires some_worker { 1 ≤ workers }
    requires few_workers { workers ≤ 16 }
    requires fit { AreFit (lists_of batch.items) }
    requires few { length batch.items ≤ most_taken }
    ensures { IfOk result (λ next. next ≡ advanced search (new_children search (lists_of batch.items))) }
{
    let mut search = search;
    let mut batch = batch;
    let Ok(rest) = batch.split_off(batch.len() / AHEAD) else {
        return Err(Memory);
    };
    search.offer_first(alloc, &batch)?;
    shared_round(rt, alloc, search, rest, workers, stile)
}

/// The circuit that the search by this plan finds from a circuit by the rules, by 1 to 16 workers that share the circuits of each round. It is
/// that of `qz_search::search`, for every number of workers and turnstile and however the steps of the workers fall. It waits for its
/// workers, which work one after another where no thread can be made. A round has no more workers than circuits, and one alone makes
/// no thread. Memory where one of them lacked it.
pub fn hunt<R: Threads + Wait + Sync, T: Turnstile>(
    rt: &R,
    alloc: Global,
    rules: &Rules,
    c: &[Inst],
    plan: Plan,
    workers: u64,
    stile: &T,
) -> Result<Vec<Inst>, Memory>
    requires some_worker { 1 ≤ workers }
    requires few_workers { workers ≤ 16 }
    requires few { length c.now ≤ most_gates }
    requires gates { AllByRecursion (IsProgramGate most_qubits) c.now }
    ensures best { IfOk result (λ d. d.items ≡ best_found (children rules.now.classes) plan c.now) }
    ensures cheap { IfOk result (λ d. cost plan.weights d.items ≤ cost plan.weights c.now) }
    ensures short { IfOk result (λ d. length d.items ≤ most_gates) }
    ensures lawful { (q : ℕ) → q ≤ most_qubits → AllByRecursion (IsProgramGate q) c.now → IfOk result (λ d. AllByRecursion (IsProgramGate q) d.items) }
    ensures equivalent { (q : ℕ) → q ≤ most_qubits → AllByRecursion (IsProgramGate q) c.now → IfOk result (λ d. EquivalentProgramCircuits q c.now d.items) }
    ensures complete { IsComplete (children rules.now.classes) plan c.now → IfOk result (λ d. (x : ProgramCircuit) → length x ≤ most_gates → IsReached (children rules.now.classes) plan.weights (cost plan.weights d.items + plan.slack) c.now x → is_lt (program_cmp plan.weights x d.items) ≡ false) }
{
    let mut rounds = Rounds::begin(alloc, rules, c, plan)?;
    while let Some(batch) = rounds.take_batch(alloc)? {
        rounds = next_round(rt, alloc, rounds, batch, workers, stile)?;
    }
    Ok(rounds.into_best())
}
