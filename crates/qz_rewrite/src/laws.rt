//! Laws of rewriting, each the contract of a function with an empty body.
ghost use Rattle.std.specs.Prelude.{◌≡◌, ℕ, ◌+◌, ◌<◌, ◌≤◌, true, List, length, Contains};
ghost use Rattle.std.specs.List.{AllByRecursion};
ghost use Rattle.qz_circ.specs.Circuit.{Circuit, IsOn};
ghost use Rattle.qz_circ.specs.Equivalence.{Equivalent};
ghost use Rattle.qz_circ.specs.Gathering.{marked, selected};
ghost use Rattle.qz_circ.specs.Instances.{bound_instance, IsBinding, IsBoundCircuit};
ghost use Rattle.qz_circ.specs.Places.{PlaceParts, places, is_usable};
ghost use Rattle.qz_circ.specs.ProgramCircuits.{ProgramCircuit, IsProgramGate, EquivalentProgramCircuits};
ghost use Rattle.qz_circ.specs.Replacement.{replaced, children_by, children};
ghost use Rattle.qz_rewrite.specs.Renaming.{renamed};
ghost use Rattle.qz_rewrite.specs.SoundClasses.{AreSoundClasses};

/// At each of a rule's places the gates are the instance of its left side: different qubits stand for different ones, all of
/// them qubits of the program, and each parameter has a value.
pub fn places_hold_the_left_side()
    ensures instance { (q : ℕ) (left right : Circuit) (c : ProgramCircuit) (place : PlaceParts) → IsOn 3 3 left → AllByRecursion (IsProgramGate q) c → Contains (places left right c) place → bound_instance place.binding left ≡ selected (marked 0 place.positions c) }
    ensures lawful { (q : ℕ) (left right : Circuit) (c : ProgramCircuit) (place : PlaceParts) → IsOn 3 3 left → AllByRecursion (IsProgramGate q) c → Contains (places left right c) place → IsBinding place.binding }
    ensures bound { (q : ℕ) (left right : Circuit) (c : ProgramCircuit) (place : PlaceParts) → IsOn 3 3 left → AllByRecursion (IsProgramGate q) c → Contains (places left right c) place → IsBoundCircuit q place.binding left }
{}

/// A rule at one of its places takes a program to one of gates on the same qubits, and to an equivalent one where its sides are
/// equivalent on three qubits; on each number of qubits that holds the program.
pub fn rules_keep_the_unitary()
    ensures gates { (q : ℕ) (left right : Circuit) (c : ProgramCircuit) (place : PlaceParts) → IsOn 3 3 left → IsOn 3 3 right → AllByRecursion (IsProgramGate q) c → Contains (places left right c) place → AllByRecursion (IsProgramGate q) (replaced c right place) }
    ensures equivalent { (q : ℕ) (left right : Circuit) (c : ProgramCircuit) (place : PlaceParts) → IsOn 3 3 left → IsOn 3 3 right → AllByRecursion (IsProgramGate q) c → Contains (places left right c) place → Equivalent 3 left right → EquivalentProgramCircuits q c (replaced c right place) }
{}

/// So do all steps with a list of classes, where these are sound for up to three qubits.
pub fn steps_keep_the_unitary()
    ensures gates { (q : ℕ) (classes : List (List Circuit)) (c : ProgramCircuit) → AllByRecursion (AllByRecursion (IsOn 3 3)) classes → AllByRecursion (IsProgramGate q) c → AllByRecursion (AllByRecursion (IsProgramGate q)) (children classes c) }
    ensures equivalent { (q n : ℕ) (classes : List (List Circuit)) (c : ProgramCircuit) → n ≤ 3 → AreSoundClasses n classes → AllByRecursion (IsProgramGate q) c → AllByRecursion (EquivalentProgramCircuits q c) (children classes c) }
{}

/// A rewritten program has as many gates as the program without those of the left side and with those of the right side's
/// instance.
#[tactic(auto, using(crate::proofs::FoundPlaces::rewritten_length))]
pub fn rules_change_the_length_by_their_sides()
    ensures { (left right : Circuit) (c : ProgramCircuit) (place : PlaceParts) → Contains (places left right c) place → length (replaced c right place) + length left ≡ length c + length (bound_instance place.binding right) }
{}

/// A rule with two of its qubits exchanged has the same children, where both are usable.
pub fn renamed_rules_have_the_same_children()
    ensures { (s : ℕ) (left right : Circuit) (c : ProgramCircuit) → s < 2 → IsOn 3 3 left → IsOn 3 3 right → AllByRecursion (IsProgramGate 64) c → is_usable left right ≡ true → is_usable (renamed s left) (renamed s right) ≡ true → children_by (renamed s left) (renamed s right) c ≡ children_by left right c }
{}
