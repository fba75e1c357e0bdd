//! Laws of equivalence and of class lists, each the contract of a function with an empty body.
ghost use Rattle.std.specs.Prelude.{◌≡◌, ℕ, false, List, [], ◌∷◌, ◌++◌, ◌+ℤ◌};
ghost use Rattle.std.specs.List.{AllByRecursion};
ghost use Rattle.qz_circ.specs.declared.circuit.Inst.{Inst};
ghost use Rattle.qz_circ.specs.declared.circuit.Op.{Op};
ghost use Rattle.qz_circ.specs.Bounds.{IsLawful};
ghost use Rattle.qz_circ.specs.Circuit.{Circuit, Limits, ActsBelow};
ghost use Rattle.qz_circ.specs.Classes.{IsRepresentative, IsKept, IsClassList, HasEquivalentMembers};
ghost use Rattle.qz_circ.specs.Equivalence.{Equivalent};
ghost use Rattle.qz_circ.specs.Exponent.{Exponent, IsExponent};
ghost use Rattle.qz_circ.specs.Paths.{Path, paths, count, root2};
ghost use Rattle.qz_circ.specs.Gathering.{shares};
ghost use Rattle.qz_circ.specs.Joined.{JoinsEquivalent};
ghost use Rattle.qz_circ.specs.Places.{rule_shares};
ghost use Rattle.qz_circ.specs.ProgramCircuits.{ProgramCircuit, IsProgramGate, program_paths, EquivalentProgramCircuits};

/// A circuit is equivalent to itself, of a rule and of a program.
pub fn equivalence_is_reflexive()
    ensures rules { (q : ℕ) (a : Circuit) → Equivalent q a a }
    ensures programs { (q : ℕ) (a : ProgramCircuit) → EquivalentProgramCircuits q a a }
{}

/// Equivalence goes both ways.
pub fn equivalence_is_symmetric()
    ensures rules { (q : ℕ) (a b : Circuit) → Equivalent q a b → Equivalent q b a }
    ensures programs { (q : ℕ) (a b : ProgramCircuit) → EquivalentProgramCircuits q a b → EquivalentProgramCircuits q b a }
{}

/// A circuit that is equivalent to a second one is equivalent to each one that the second is equivalent to.
pub fn equivalence_is_transitive()
    ensures rules { (q : ℕ) (a b c : Circuit) → Equivalent q a b → Equivalent q b c → Equivalent q a c }
    ensures programs { (q : ℕ) (a b c : ProgramCircuit) → EquivalentProgramCircuits q a b → EquivalentProgramCircuits q b c → EquivalentProgramCircuits q a c }
{}

/// Ways times the square root of two, twice, count each exponent twice as often: any ways whose exponents are proper, and
/// those through a circuit, of a rule and of a program.
pub fn root2_twice_doubles()
    ensures ways { (ps : List Path) (e : Exponent) → AllByRecursion (λ p. IsExponent p.exponent) ps → IsExponent e → count (root2 2 ps) e ≡ count ps e +ℤ count ps e }
    ensures rules { (q : ℕ) (c : Circuit) (i j : ℕ) (e : Exponent) → IsExponent e → count (root2 2 (paths q c i j)) e ≡ count (paths q c i j) e +ℤ count (paths q c i j) e }
    ensures programs { (q : ℕ) (c : ProgramCircuit) (i j : ℕ) (e : Exponent) → IsExponent e → count (root2 2 (program_paths q c i j)) e ≡ count (program_paths q c i j) e +ℤ count (program_paths q c i j) e }
{}

/// Circuits that are equivalent stay so with the same gates before them and after them.
pub fn equivalence_stays_with_gates_around()
    ensures rules { (q : ℕ) (front back a c : Circuit) → AllByRecursion (ActsBelow q) front → AllByRecursion (ActsBelow q) back → AllByRecursion (ActsBelow q) a → AllByRecursion (ActsBelow q) c → Equivalent q a c → Equivalent q (front ++ a ++ back) (front ++ c ++ back) }
    ensures programs { (q : ℕ) (front back a c : ProgramCircuit) → AllByRecursion (IsProgramGate q) front → AllByRecursion (IsProgramGate q) back → AllByRecursion (IsProgramGate q) a → AllByRecursion (IsProgramGate q) c → EquivalentProgramCircuits q a c → EquivalentProgramCircuits q (front ++ a ++ back) (front ++ c ++ back) }
{}

/// Two gates without a common qubit may change places, of a rule and of a program.
#[tactic(auto, using(crate::proofs::Commuting::rules_commute, crate::proofs::Commuting::programs_commute))]
pub fn gates_without_a_common_qubit_commute()
    ensures rules { (q : ℕ) (f g : Op) → ActsBelow q f → ActsBelow q g → rule_shares f g ≡ false → Equivalent q (f ∷ g ∷ []) (g ∷ f ∷ []) }
    ensures programs { (q : ℕ) (f g : Inst) → IsProgramGate q f → IsProgramGate q g → shares f g ≡ false → EquivalentProgramCircuits q (f ∷ g ∷ []) (g ∷ f ∷ []) }
{}

/// Each contiguous part of a representative is a representative.
pub fn parts_of_representatives_are_representatives()
    ensures { (b : Limits) (front part back : Circuit) → IsRepresentative b (front ++ part ++ back) → IsRepresentative b part }
{}

/// Each representative is kept.
pub fn representatives_are_kept()
    ensures { (b : Limits) (c : Circuit) → IsRepresentative b c → IsKept b c }
{}

/// The members of each class of the class list of lawful limits are equivalent to each other.
pub fn members_are_equivalent()
    ensures { (b : Limits) → IsLawful b → (classes : List (List ℕ)) → IsClassList b classes → HasEquivalentMembers b classes }
{}

/// The class list of lawful limits is complete: it joins any two circuits within the limits that are equivalent.
pub fn class_lists_are_complete()
    ensures { (b : Limits) → IsLawful b → (classes : List (List ℕ)) → IsClassList b classes → JoinsEquivalent b classes }
{}
