//! Small instances of the laws, and of circuits that are joined and that are not, each the contract of a function with an
//! empty body.
ghost use Rattle.std.specs.Prelude.{[], ◌∷◌};
ghost use Rattle.qz_circ.specs.declared.circuit.Expr.TheVariants.{Plus, Minus};
ghost use Rattle.qz_circ.specs.declared.circuit.Inst.TheVariants.{H as ProgramH, Rz as ProgramRz};
ghost use Rattle.qz_circ.specs.declared.circuit.Op.TheVariants.{H, X, Rz};
ghost use Rattle.qz_circ.specs.Equivalence.{Equivalent};
ghost use Rattle.qz_circ.specs.Joined.{Joined, JoinsEquivalent, circuits_of_ranks};
ghost use Rattle.qz_circ.specs.ProgramCircuits.{EquivalentProgramCircuits};

/// Rotations by a parameter and by its negative cancel between two H, and so do those of a program by 511·π/256 and by
/// π/256.
pub fn rotations_cancel_between_gates()
    ensures rules { Equivalent 1 (H 0 ∷ Rz 0 (Plus 0) ∷ Rz 0 (Minus 0) ∷ H 0 ∷ []) (H 0 ∷ H 0 ∷ []) }
    ensures programs { EquivalentProgramCircuits 1 (ProgramH 0 ∷ ProgramRz 0 511 ∷ ProgramRz 0 1 ∷ ProgramH 0 ∷ []) (ProgramH 0 ∷ ProgramH 0 ∷ []) }
{}

/// Within three gates on one qubit, two flips before an H are joined with the H alone by the class of the ranks 0 and 20,
/// which are of no gate and of two flips.
pub fn two_flips_are_taken_out()
    ensures { Joined (circuits_of_ranks (record { n = 3; q = 1; m = 0; grain = 4 }) ((0 ∷ 20 ∷ []) ∷ [])) 3 (X 0 ∷ X 0 ∷ H 0 ∷ []) (H 0 ∷ []) }
{}

/// They are not joined without a class, nor over circuits of at most two gates.
pub fn two_flips_stay()
    ensures no_class { ¬ Joined [] 3 (X 0 ∷ X 0 ∷ H 0 ∷ []) (H 0 ∷ []) }
    ensures too_short { ¬ Joined (circuits_of_ranks (record { n = 3; q = 1; m = 0; grain = 4 }) ((0 ∷ 20 ∷ []) ∷ [])) 2 (X 0 ∷ X 0 ∷ H 0 ∷ []) (H 0 ∷ []) }
{}

/// The empty list of classes is not complete within two gates on one qubit: two flips and no gate are equivalent, and it
/// does not join them.
pub fn empty_list_is_not_complete()
    ensures { ¬ JoinsEquivalent (record { n = 2; q = 1; m = 0; grain = 4 }) [] }
{}
