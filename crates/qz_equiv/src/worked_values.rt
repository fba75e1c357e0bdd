//! Small circuits of which it is known whether they are equivalent, or kept, each the contract of a function with an
//! empty body.
ghost use Rattle.std.specs.Prelude.{[], ◌∷◌};
ghost use Rattle.qz_circ.specs.declared.circuit.Expr.TheVariants.{Const, Plus, Minus, Sum};
ghost use Rattle.qz_circ.specs.declared.circuit.Inst.TheVariants.{H as ProgramH};
ghost use Rattle.qz_circ.specs.declared.circuit.Op.TheVariants.{X, Rz};
ghost use Rattle.qz_circ.specs.Classes.{IsKept};
ghost use Rattle.qz_circ.specs.Equivalence.{Equivalent};
ghost use Rattle.qz_circ.specs.ProgramCircuits.{EquivalentProgramCircuits};

/// A flip and then a rotation by a parameter is, up to a phase, a rotation by its negative and then a flip.
#[tactic(auto, using(crate::proofs::WorkedValues::flip_equivalent))]
pub fn flip_undoes_the_sign()
    ensures { Equivalent 1 (X 0 ∷ Rz 0 (Plus 0) ∷ []) (Rz 0 (Minus 0) ∷ X 0 ∷ []) }
{}

/// Rotations by one eighth and by two eighths of a full circle are not equivalent.
#[tactic(auto, using(crate::proofs::WorkedValues::turns_different))]
pub fn different_turns_differ()
    ensures { ¬ Equivalent 1 (Rz 0 (Const 1) ∷ []) (Rz 0 (Const 2) ∷ []) }
{}

/// Rotations by two parameters are equivalent to one rotation by their sum.
#[tactic(auto, using(crate::proofs::WorkedValues::sum_equivalent))]
pub fn parameters_add_up()
    ensures { Equivalent 1 (Rz 0 (Plus 0) ∷ Rz 0 (Plus 1) ∷ []) (Rz 0 (Sum 0 1) ∷ []) }
{}

/// Rotations by different parameters are not equivalent.
#[tactic(auto, using(crate::proofs::WorkedValues::parameters_different))]
pub fn different_parameters_differ()
    ensures { ¬ Equivalent 1 (Rz 0 (Plus 0) ∷ []) (Rz 0 (Plus 1) ∷ []) }
{}

/// Three flips are not kept: without the first they are no representative, since no gate at all does the same.
#[tactic(auto, using(crate::proofs::WorkedValues::flips_not_kept))]
pub fn three_flips_are_not_kept()
    ensures { ¬ IsKept (record { n = 3; q = 1; m = 0; grain = 4 }) (X 0 ∷ X 0 ∷ X 0 ∷ []) }
{}

/// In programs, H twice is the same as no gate, once its two factors 1/√2 are made up for.
#[tactic(auto, using(crate::proofs::WorkedValues::two_h_equivalent))]
pub fn two_h_are_no_gate()
    ensures { EquivalentProgramCircuits 1 (ProgramH 0 ∷ ProgramH 0 ∷ []) [] }
{}
