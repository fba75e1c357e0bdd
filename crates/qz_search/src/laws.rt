//! Laws of searches, each the contract of a function with an empty body.
ghost use Rattle.std.specs.Prelude.{◌≡◌, ℕ, List, []};
ghost use Rattle.qz_circ.specs.ProgramCircuits.{ProgramCircuit};
ghost use Rattle.qz_circ.specs.Search.{PlanNumbers, SearchState, after};

/// Rounds that find the queue empty change nothing, so that a search may end at the first of them.
#[tactic(auto, using(crate::proofs::SearchLaws::after_empty))]
pub fn an_empty_queue_ends_the_search()
    ensures { (children : ProgramCircuit → List ProgramCircuit) (plan : PlanNumbers) (s : SearchState) → s.queue ≡ [] → (n : ℕ) → after children plan n s ≡ s }
{}
