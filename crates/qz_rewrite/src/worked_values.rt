//! Small instances of places and of rewritten programs, each the contract of a function with an empty body.
ghost use Rattle.std.specs.Prelude.{◌≡◌, [], ◌∷◌, Some, None, true, false};
ghost use Rattle.qz_circ.specs.declared.circuit.Inst.TheVariants.{H as ProgramH, X as ProgramX, Cx as ProgramCx, Rz as ProgramRz};
ghost use Rattle.qz_circ.specs.declared.circuit.Op.TheVariants.{H, X, Cx};
ghost use Rattle.qz_circ.specs.Gathering.{marked, gathers, replaced_at};
ghost use Rattle.qz_circ.specs.Places.{places};
ghost use Rattle.qz_circ.specs.ProgramCircuits.{ProgramCircuit};
ghost use Rattle.qz_circ.specs.Replacement.{children_by};

/// Two H on one qubit have one place around a CX on other qubits, and without them the CX is left.
pub fn two_h_are_taken_out()
    ensures places { places (H 0 ∷ H 0 ∷ []) [] (ProgramH 0 ∷ ProgramCx 1 2 ∷ ProgramH 0 ∷ []) ≡ record { positions = 0 ∷ 2 ∷ []; binding = record { qubits = Some 0 ∷ None ∷ None ∷ []; params = None ∷ None ∷ None ∷ [] } } ∷ [] }
    ensures children { children_by (H 0 ∷ H 0 ∷ []) [] (ProgramH 0 ∷ ProgramCx 1 2 ∷ ProgramH 0 ∷ []) ≡ (ProgramCx 1 2 ∷ []) ∷ [] }
{}

/// They have none around a CX on their own qubit.
pub fn two_h_stay()
    ensures { places (H 0 ∷ H 0 ∷ []) [] (ProgramH 0 ∷ ProgramCx 0 1 ∷ ProgramH 0 ∷ []) ≡ [] }
{}

/// A left side that is not connected has no place in any program.
pub fn unconnected_sides_have_no_places()
    ensures { (c : ProgramCircuit) → places (H 0 ∷ X 1 ∷ []) [] c ≡ [] }
{}

/// The gates before the first position, those that come before, the new ones, those that come after, and those behind the last.
pub fn gates_keep_their_sides()
    ensures gather { gathers [] [] (marked 0 (1 ∷ 3 ∷ 5 ∷ []) (ProgramX 5 ∷ ProgramH 0 ∷ ProgramX 2 ∷ ProgramCx 0 1 ∷ ProgramRz 0 5 ∷ ProgramX 1 ∷ ProgramH 3 ∷ [])) ≡ true }
    ensures replaced { replaced_at (1 ∷ 3 ∷ 5 ∷ []) (ProgramX 9 ∷ []) (ProgramX 5 ∷ ProgramH 0 ∷ ProgramX 2 ∷ ProgramCx 0 1 ∷ ProgramRz 0 5 ∷ ProgramX 1 ∷ ProgramH 3 ∷ []) ≡ ProgramX 5 ∷ ProgramX 2 ∷ ProgramX 9 ∷ ProgramRz 0 5 ∷ ProgramH 3 ∷ [] }
    ensures apart { gathers [] [] (marked 0 (1 ∷ 3 ∷ 5 ∷ []) (ProgramX 5 ∷ ProgramH 0 ∷ ProgramX 2 ∷ ProgramCx 0 1 ∷ ProgramRz 1 5 ∷ ProgramX 1 ∷ ProgramH 3 ∷ [])) ≡ false }
{}
