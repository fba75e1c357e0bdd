//! Laws of pruned class lists, each the contract of a function with an empty body.
ghost use Rattle.std.specs.Prelude.{◌≡◌, ℕ, List};
ghost use Rattle.qz_circ.specs.Circuit.{Limits};
ghost use Rattle.qz_circ.specs.Pruned.{IsPruned};

/// At most one list is what is left of classes.
pub fn pruned_lists_are_unique()
    ensures { (b : Limits) (classes x y : List (List ℕ)) → IsPruned b classes x → IsPruned b classes y → x ≡ y }
{}
