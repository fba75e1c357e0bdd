//! The search: rounds that take circuits out of a queue and put what they become into it.
ghost use Rattle.std.specs.Prelude.{◌≡◌, ℕ, ◌+◌, ◌≤◌, [], false, List, length, IfOk, OnOk, IfSome, MatchOption};
ghost use Rattle.std.specs.List.{AllByRecursion, filter};
ghost use Rattle.std.specs.Ordering.{is_lt};
ghost use Rattle.qz_circ.specs.Circuit.{Circuit};
ghost use Rattle.qz_circ.specs.ProgramCircuits.{ProgramCircuit, IsProgramGate, EquivalentProgramCircuits, cost, program_cmp};
ghost use Rattle.qz_circ.specs.Queue.{IsQueue};
ghost use Rattle.qz_circ.specs.Replacement.{children};
ghost use Rattle.qz_circ.specs.Search.{earliest, is_short, best_found, IsComplete, IsReached};
ghost use Rattle.qz_circ.specs.Vectors.{lists_of};
ghost use Rattle.qz_search.specs.Offers.{is_new, offered_to, AreFit};
ghost use Rattle.qz_search.specs.Tables.{children_by_table};
ghost use Rattle.qz_search.specs.Rounds.{new_children, advanced, IsBetweenRounds, IsInRound, IsFound};
ghost use Rattle.qz_circ.specs.ProgramLimits.{most_qubits, most_gates};

use crate::children;
use crate::filter::Filter;
use crate::offer::{add_all, copy_of, earlier, offer_batch};
use crate::plan::Plan;
use crate::prepared::Prepared;
use qz_circ::{Inst, Memory, cost};
use qz_match::Neighbours;
use qz_queue::{Queue, Seen};
use qz_rulefile::Rules;
use std::alloc::Global;
use std::marker::Model;

/// The rounds of a search that is under way: between two rounds, or in one that has taken circuits out of the queue and has yet to offer what they
/// become.
#[derive(Drop)]
pub struct Rounds {
    rules: Prepared,
    plan: Plan,
    left: u64,
    test: Filter,
    queue: Queue,
    best: Vec<Inst>,
}

impl Model for Rounds {
    ghost use Rattle.qz_search.specs.Rounds.{SearchParts};

    ghost Value = { SearchParts };

    ghost view = { λ s. record { rules = s.rules; plan = s.plan; left = s.left; seen = s.test.seen; most = s.test.most; queue = s.queue; best = s.best.items } };
}

impl Rounds {
    /// The search from a circuit by the rules, before its first round.
    pub fn begin(alloc: Global, rules: &Rules, c: &[Inst], plan: Plan) -> Result<Rounds, Memory>
        requires few { length c.now ≤ most_gates }
        requires gates { AllByRecursion (IsProgramGate most_qubits) c.now }
        ensures between { IfOk result (λ s. IsBetweenRounds rules.now.classes c.now s) }
        ensures plan { IfOk result (λ s. s.plan ≡ plan) }
    {
        let rules = Prepared::of(alloc, rules)?;
        let mut queue = Queue::weighted(alloc, plan.cap(), plan.weights())?;
        queue.offer(copy_of(alloc, c)?);
        let best = copy_of(alloc, c)?;
        Ok(Rounds {
            rules,
            plan,
            left: plan.rounds(),
            test: Filter {
                seen: Seen::new(alloc),
                most: 0,
            },
            queue,
            best,
        })
    }

    /// A copy of its queue.
    pub fn queue(&self) -> Result<Queue, Memory>
        ensures same { IfOk result (λ q. q ≡ self.now.queue) }
        ensures lawful { IsQueue self.now.queue }
    {
        self.queue.copy()
    }

    /// Begins a round: takes the circuits whose children it offers. None where no round is left or the queue is empty, and the best
    /// circuit so far is the one that the search finds.
    pub fn take_batch(&mut self, alloc: Global) -> Result<Option<Vec<Vec<Inst>>>, Memory>
        requires { length self.old.best ≤ most_gates }
        ensures found { (classes : List (List Circuit)) (c : ProgramCircuit) → IsBetweenRounds classes c self.old → IfOk result (λ taken. MatchOption taken (IsFound classes c self.old.plan self.new.best) (λ batch. IsInRound classes c (lists_of batch.items) self.new)) }
        ensures left { IfOk result (λ taken. IfSome taken (λ batch. self.new.left + 1 ≡ self.old.left)) }
        ensures plan { self.new.plan ≡ self.old.plan }
    {
        if self.left == 0 || self.queue.len() == 0 {
            return Ok(None);
        }
        let batch = self.queue.take_batch(self.plan.batch())?;
        add_all(alloc, &mut self.test.seen, &batch)?;
        self.test.most = cost(&self.best, self.plan.weights()) + self.plan.slack();
        self.left -= 1;
        Ok(Some(batch))
    }

    /// Offers to a queue what a circuit becomes by one step with the rules, where it is new in this round. The links are made to
    /// be those of this circuit.
    pub fn offer_children(
        &self,
        alloc: Global,
        neighbours: &mut Neighbours,
        c: &[Inst],
        queue: &mut Queue,
    ) -> Result<(), Memory>
        requires lawful { IsQueue queue.old }
        requires gates { AllByRecursion (IsProgramGate most_qubits) c.now }
        requires short { length c.now ≤ 20004 }
        ensures { OnOk result (queue.new ≡ offered_to queue.old (filter (is_new queue.old.weights self.now.seen self.now.most) (children_by_table self.now.rules c.now))) }
    {
        children::offer_children(alloc, &self.rules, neighbours, &self.test, c, queue)
    }

    /// Offers to its queue what some of the circuits become that the round took, before all others are offered.
    pub fn offer_first(&mut self, alloc: Global, batch: &[Vec<Inst>]) -> Result<(), Memory>
        requires fit { AreFit (lists_of batch.now) }
        ensures offered { OnOk result (self.new ≡ record self.old { queue = offered_to self.old.queue (new_children self.old (lists_of batch.now)) }) }
        ensures lawful { IsQueue self.old.queue }
    {
        let _ = self.queue.len();
        offer_batch(alloc, &self.rules, &self.test, batch, &mut self.queue)?;
        Ok(())
    }

    // Ends a round with the children of the circuits that it took.
    fn offer_batch(&mut self, alloc: Global, batch: &[Vec<Inst>]) -> Result<(), Memory>
        requires lawful { IsQueue self.old.queue }
        requires fit { AreFit (lists_of batch.now) }
        ensures { OnOk result (self.new ≡ advanced self.old (new_children self.old (lists_of batch.now))) }
    {
        offer_batch(alloc, &self.rules, &self.test, batch, &mut self.queue)?;
        self.best = earlier(alloc, &self.best, &self.queue)?;
        Ok(())
    }

    /// Ends a round with a queue to which its children were offered.
    pub fn end_round(&mut self, alloc: Global, queue: Queue) -> Result<(), Memory>
        ensures { OnOk result (self.new ≡ record self.old { queue = queue; best = earliest queue.weights self.old.best (filter is_short queue.list) }) }
    {
        self.queue = queue;
        self.best = earlier(alloc, &self.best, &self.queue)?;
        Ok(())
    }

    /// The best circuit so far.
    pub fn into_best(self) -> Vec<Inst>
        ensures { result.items ≡ self.best }
    {
        self.best
    }
}

/// The circuit that the search by this plan finds from a circuit by the rules: the earliest of those that stood in its queue. It
/// is equivalent to that circuit, costs no more by the plan's weights, and has at most 20,000 gates. Where the search is complete,
/// no circuit of at most 20,000 gates that it could reach is before the found one.
pub fn search(alloc: Global, rules: &Rules, c: &[Inst], plan: Plan) -> Result<Vec<Inst>, Memory>
    requires few { length c.now ≤ most_gates }
    requires gates { AllByRecursion (IsProgramGate most_qubits) c.now }
    ensures best { IfOk result (λ d. d.items ≡ best_found (children rules.now.classes) plan c.now) }
    ensures cheap { IfOk result (λ d. cost plan.weights d.items ≤ cost plan.weights c.now) }
    ensures short { IfOk result (λ d. length d.items ≤ most_gates) }
    ensures lawful { (q : ℕ) → q ≤ most_qubits → AllByRecursion (IsProgramGate q) c.now → IfOk result (λ d. AllByRecursion (IsProgramGate q) d.items) }
    ensures equivalent { (q : ℕ) → q ≤ most_qubits → AllByRecursion (IsProgramGate q) c.now → IfOk result (λ d. EquivalentProgramCircuits q c.now d.items) }
    ensures complete { IsComplete (children rules.now.classes) plan c.now → IfOk result (λ d. (x : ProgramCircuit) → length x ≤ most_gates → IsReached (children rules.now.classes) plan.weights (cost plan.weights d.items + plan.slack) c.now x → is_lt (program_cmp plan.weights x d.items) ≡ false) }
{
    let mut rounds = Rounds::begin(alloc, rules, c, plan)?;
    while let Some(batch) = rounds.take_batch(alloc)? {
        rounds.offer_batch(alloc, &batch)?;
    }
    Ok(rounds.into_best())
}
