//! Laws of queues, each the contract of a function with an empty body.
ghost use Rattle.std.specs.Prelude.{◌≡◌, ℕ, ◌++◌, List};
ghost use Rattle.qz_circ.specs.ProgramCircuits.{ProgramCircuit};
ghost use Rattle.qz_circ.specs.Queue.{QueueStep, after_steps, firsts, given};

/// After any offers and merges, with nothing taken out between, a queue's list is the first of the different ones of these
/// circuits: those that it held before, those that were offered, and those of the queues that were merged.
#[tactic(auto, using(crate::proofs::QueueLists::steps_are))]
pub fn queues_hold_the_first_of_all()
    ensures { (weights : List ℕ) (cap : ℕ) (list : List ProgramCircuit) → firsts weights cap list ≡ list → (steps : List QueueStep) → after_steps weights cap list steps ≡ firsts weights cap (list ++ given steps) }
{}
