//! Laws of ranks, of class lists and of the order of programs, over all values: each function has an empty body, and its contract is the law.
ghost use Rattle.std.specs.Prelude.{◌≡◌, ℕ, ◌<◌, ◌↔◌, IsTrue, List, length, Contains};
ghost use Rattle.std.specs.Ordering.{nat_cmp, ordering_then};
ghost use Rattle.std.specs.Cmp.Lexicographic.{slice_cmp};
ghost use Rattle.qz_circ.specs.declared.circuit.Op.{Op};
ghost use Rattle.qz_circ.specs.Circuit.{Limits, Circuit, Within, IsOn, ActsBelow, HasBelow, gates_of};
ghost use Rattle.qz_circ.specs.Bounds.{IsLawful};
ghost use Rattle.qz_circ.specs.Order.{is_before, all_circuits, rank, circuit_at};
ghost use Rattle.qz_circ.specs.ProgramCircuits.{ProgramCircuit, ones, cost, program_gate_cmp, program_cmp};
ghost use Rattle.qz_circ.specs.Classes.{without_first, without_last, IsClassList};

/// Each circuit within limits is the one at its rank.
pub fn circuits_are_at_their_ranks()
    ensures here { (b : Limits) → IsLawful b → (c : Circuit) → Within b c → circuit_at b (rank b c) ≡ c }
    ensures listed { (b : Limits) → IsLawful b → (c : Circuit) → Within b c → rank b c < length (all_circuits b) }
{}

/// The circuit at a rank is within the limits and has that rank.
pub fn ranks_are_of_their_circuits()
    ensures within { (b : Limits) → IsLawful b → (r : ℕ) → r < length (all_circuits b) → Within b (circuit_at b r) }
    ensures same { (b : Limits) → IsLawful b → (r : ℕ) → r < length (all_circuits b) → rank b (circuit_at b r) ≡ r }
{}

/// Of two circuits within limits the earlier one has the smaller rank.
pub fn ranks_are_in_order()
    ensures { (b : Limits) → IsLawful b → (c d : Circuit) → Within b c → Within b d → IsTrue (is_before c d) ↔ (rank b c < rank b d) }
{}

/// Gates within limits are on their qubits and have their parameters, and so for circuits.
pub fn gates_are_below_limits()
    ensures qubits { (b : Limits) (g : Op) → Contains (gates_of b) g → ActsBelow b.q g }
    ensures params { (b : Limits) (g : Op) → Contains (gates_of b) g → HasBelow b.m g }
    ensures circuits { (b : Limits) (c : Circuit) → Within b c → IsOn b.q b.m c }
{}

/// Without its first or its last gate a circuit within limits is within them.
pub fn parts_are_within()
    ensures first { (b : Limits) (c : Circuit) → Within b c → Within b (without_first c) }
    ensures last { (b : Limits) (c : Circuit) → Within b c → Within b (without_last c) }
{}

/// At most one list is the class list of some limits.
pub fn class_lists_are_unique()
    ensures { (b : Limits) (k l : List (List ℕ)) → IsClassList b k → IsClassList b l → k ≡ l }
{}

/// Where each gate weighs 1, a circuit costs as much as it has gates, and circuits compare by length and then by gates.
pub fn ones_give_the_order_by_length()
    ensures costs { (c : ProgramCircuit) → cost ones c ≡ length c }
    ensures order { (c d : ProgramCircuit) → program_cmp ones c d ≡ ordering_then (nat_cmp (length c) (length d)) (slice_cmp program_gate_cmp c d) }
{}
