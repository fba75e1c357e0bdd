//! Laws of the definitions, each the contract of a function with an empty body.
ghost use Rattle.std.specs.Prelude.{◌≡◌, ◌↔◌, ℕ, ◌+◌};
ghost use Rattle.std.specs.List.{AllByRecursion};
ghost use Rattle.qz_circ.specs.ProgramCircuits.{ProgramCircuit, IsProgramGate, program_halves, EquivalentProgramCircuits};
ghost use Rattle.qz_check.specs.Turns.{HasTurn};

/// Programs are equivalent exactly where one of the 512 turns takes the matrix of the second, times √2 for each H that it has
/// fewer, to that of the first.
pub fn equivalence_is_one_turn()
    ensures { (q d : ℕ) (a c : ProgramCircuit) → AllByRecursion (IsProgramGate q) a → AllByRecursion (IsProgramGate q) c → program_halves a ≡ program_halves c + d → (HasTurn q d a c ↔ EquivalentProgramCircuits q a c) }
{}
