//! Laws of chains, each the contract of a function with an empty body.
ghost use Rattle.std.specs.Prelude.{◌≡◌, ℕ, List};
ghost use Rattle.qz_circ.specs.Bounds.{IsLawful};
ghost use Rattle.qz_circ.specs.Circuit.{Circuit, Limits};
ghost use Rattle.qz_circ.specs.Chains.{IsDown, IsChain};
ghost use Rattle.qz_derive.specs.declared.chain.Chain.{Chain};
ghost use Rattle.qz_derive.specs.Answers.{IsAnswer};

/// A circuit has at most one way down.
pub fn ways_down_are_unique()
    ensures { (b : Limits) → IsLawful b → (c : Circuit) (xs ys : List Circuit) → IsDown b c xs → IsDown b c ys → xs ≡ ys }
{}

/// Two circuits have at most one chain.
pub fn chains_are_unique()
    ensures { (b : Limits) → IsLawful b → (a c : Circuit) (xs ys : List Circuit) → IsChain b a c xs → IsChain b a c ys → xs ≡ ys }
{}

/// Two ranks have at most one answer.
pub fn answers_are_unique()
    ensures { (b : Limits) → IsLawful b → (a c : ℕ) (x y : Chain) → IsAnswer b a c x → IsAnswer b a c y → x ≡ y }
{}
