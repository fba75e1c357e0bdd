//! Circuits of which it is known that they share a fingerprint, each pair the contract of a function with an empty body.
ghost use Rattle.std.specs.Prelude.{◌≡◌, ℕ, [], ◌∷◌};
ghost use Rattle.qz_circ.specs.declared.circuit.Expr.TheVariants.{Plus, Minus};
ghost use Rattle.qz_circ.specs.declared.circuit.Op.TheVariants.{X, Rz};
ghost use Rattle.qz_finger.specs.Fingerprint.{fingerprint};

/// A flip and then a rotation by a parameter has for every seed the fingerprint of a rotation by its negative and then a flip, to which
/// it is equivalent up to a phase.
pub fn a_rotation_past_a_flip_keeps_the_fingerprint()
    ensures { (seed : ℕ) → fingerprint seed 1 (X 0 ∷ Rz 0 (Plus 0) ∷ []) ≡ fingerprint seed 1 (Rz 0 (Minus 0) ∷ X 0 ∷ []) }
{}
