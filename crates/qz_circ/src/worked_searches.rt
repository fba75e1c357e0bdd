//! Worked values of queues and searches.
ghost use Rattle.std.specs.Prelude.{◌≡◌, [], ◌∷◌, drop};
ghost use Rattle.qz_circ.specs.declared.circuit.Inst.TheVariants.{H, X};
ghost use Rattle.qz_circ.specs.ProgramCircuits.{ones};
ghost use Rattle.qz_circ.specs.Queue.{firsts};
ghost use Rattle.qz_circ.specs.Search.{best_found, IsComplete};

/// Of four circuits, two of which are equal, the different ones are in order; the first two are those without and with one
/// H.
#[tactic(auto, unfolding(crate::specs::Queue::different, crate::specs::Queue::first_cap, crate::specs::ProgramCircuits::cost, crate::specs::ProgramCircuits::program_cmp, crate::specs::ProgramCircuits::program_gate_cmp))]
pub fn the_first_are_told()
    ensures all { firsts ones 4 ((X 0 ∷ []) ∷ (H 0 ∷ []) ∷ [] ∷ (X 0 ∷ []) ∷ []) ≡ [] ∷ (H 0 ∷ []) ∷ (X 0 ∷ []) ∷ [] }
    ensures two { firsts ones 2 ((X 0 ∷ []) ∷ (H 0 ∷ []) ∷ [] ∷ (X 0 ∷ []) ∷ []) ≡ [] ∷ (H 0 ∷ []) ∷ [] }
{}

/// Where the one child of a circuit is the circuit without its first gate, a search of two rounds takes two gates away.
#[tactic(auto, unfolding(crate::specs::Search::best_found, crate::specs::Search::choice, crate::specs::Search::offered, crate::specs::Queue::different, crate::specs::Queue::first_cap, crate::specs::ProgramCircuits::cost, crate::specs::ProgramCircuits::program_cmp, crate::specs::ProgramCircuits::program_gate_cmp))]
pub fn the_best_is_told()
    ensures two { best_found (λ c. drop 1 c ∷ []) (record { rounds = 2; batch = 1; cap = 2; slack = 0; weights = ones }) (H 0 ∷ X 0 ∷ H 0 ∷ []) ≡ H 0 ∷ [] }
    ensures none { best_found (λ c. drop 1 c ∷ []) (record { rounds = 0; batch = 1; cap = 2; slack = 0; weights = ones }) (H 0 ∷ X 0 ∷ H 0 ∷ []) ≡ H 0 ∷ X 0 ∷ H 0 ∷ [] }
    ensures complete { IsComplete (λ c. drop 1 c ∷ []) (record { rounds = 3; batch = 1; cap = 2; slack = 0; weights = ones }) (H 0 ∷ []) }
{}

/// Where X weighs 5, two H are before one X.
#[tactic(auto, unfolding(crate::specs::Queue::different, crate::specs::Queue::first_cap, crate::specs::ProgramCircuits::cost, crate::specs::ProgramCircuits::program_cmp, crate::specs::ProgramCircuits::program_gate_cmp))]
pub fn the_cheapest_is_first()
    ensures { firsts (1 ∷ 5 ∷ 1 ∷ 1 ∷ []) 2 ((X 0 ∷ []) ∷ (H 0 ∷ H 0 ∷ []) ∷ []) ≡ (H 0 ∷ H 0 ∷ []) ∷ (X 0 ∷ []) ∷ [] }
{}
