//! The law of fingerprints, as the contract of a function with an empty body.
ghost use Rattle.std.specs.Prelude.{◌≡◌, ℕ};
ghost use Rattle.qz_circ.specs.Circuit.{Circuit};
ghost use Rattle.qz_circ.specs.Equivalence.{Equivalent};
ghost use Rattle.qz_finger.specs.Fingerprint.{fingerprint};

/// Equivalent circuits have one fingerprint, for every seed.
pub fn equivalent_circuits_share_a_fingerprint()
    ensures { (seed q : ℕ) (a c : Circuit) → Equivalent q a c → fingerprint seed q a ≡ fingerprint seed q c }
{}
