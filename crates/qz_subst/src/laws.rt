//! Laws of instances and of equivalence on more qubits, each the contract of a function with an empty body.
ghost use Rattle.std.specs.Prelude.{ℕ, ◌≤◌, length};
ghost use Rattle.std.specs.List.{AllByRecursion};
ghost use Rattle.qz_circ.specs.declared.binding.Binding.{Binding};
ghost use Rattle.qz_circ.specs.Circuit.{Circuit, ActsBelow, IsOn};
ghost use Rattle.qz_circ.specs.Equivalence.{Equivalent};
ghost use Rattle.qz_circ.specs.Instances.{bound_instance, IsBinding, IsBoundCircuit};
ghost use Rattle.qz_circ.specs.ProgramCircuits.{IsProgramGate, EquivalentProgramCircuits};

/// Instances of equivalent circuits under one binding are equivalent, on any number of qubits that holds them.
#[tactic(auto, using(crate::proofs::EquivalentInstances::bound_instances))]
pub fn instances_of_equivalent_circuits_are_equivalent()
    ensures { (n q : ℕ) (bind : Binding) (a b : Circuit) → IsBinding bind → IsOn n 3 a → IsOn n 3 b → IsBoundCircuit q bind a → IsBoundCircuit q bind b → Equivalent n a b → EquivalentProgramCircuits q (bound_instance bind a) (bound_instance bind b) }
{}

/// An instance is made of gates of a program on the qubits that hold it.
#[tactic(auto, using(crate::proofs::EquivalentInstances::bound_gates_are))]
pub fn instances_are_made_of_program_gates()
    ensures { (n k q : ℕ) (bind : Binding) (c : Circuit) → IsBinding bind → IsOn n k c → IsBoundCircuit q bind c → AllByRecursion (IsProgramGate q) (bound_instance bind c) }
{}

/// An instance has at most as many gates as the circuit.
#[tactic(auto, using(crate::proofs::EquivalentInstances::instance_length))]
pub fn instances_have_no_more_gates()
    ensures { (bind : Binding) (c : Circuit) → length (bound_instance bind c) ≤ length c }
{}

/// Circuits of rules that are equivalent on some qubits are so on more.
pub fn equivalence_holds_on_more_qubits()
    ensures { (n m : ℕ) (a b : Circuit) → n ≤ m → AllByRecursion (ActsBelow n) a → AllByRecursion (ActsBelow n) b → Equivalent n a b → Equivalent m a b }
{}
