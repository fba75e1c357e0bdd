//! Worked values of the definitions, nearly all of them proved by computing them.
ghost use Rattle.std.specs.Prelude.{◌≡◌, ℕ, ◌<◌, [], ◌∷◌, length, slice_get, Some, pos, negsuc, ◌+◌, ◌*◌};
ghost use Rattle.std.specs.declared.cmp.Ordering.TheVariants.{Less, Greater};
ghost use Rattle.qz_circ.specs.declared.circuit.Expr.TheVariants.{Const, Plus, Minus, Sum};
ghost use Rattle.qz_circ.specs.declared.circuit.Inst.TheVariants.{H as ProgramH, X as ProgramX, Cx as ProgramCx, Rz as ProgramRz};
ghost use Rattle.qz_circ.specs.declared.circuit.Op.TheVariants.{H, X, Cx, Rz};
ghost use Rattle.qz_circ.specs.Circuit.{angles};
ghost use Rattle.qz_circ.specs.Exponent.{zero_exponent, turn_of, angle_value};
ghost use Rattle.qz_circ.specs.Order.{all_circuits, rank, circuit_at};
ghost use Rattle.qz_circ.specs.Paths.{paths, count};
ghost use Rattle.qz_circ.specs.ProgramCircuits.{IsProgramGate, IsProgramCircuit, program_paths, ones, program_cmp};

/// With at most two gates on one qubit there are 91 circuits; X and then a rotation by π/4 comes after 21 of them,
/// and the last is two rotations by 7π/4.
pub fn ranks_of_two_gates()
    ensures circuits { length (all_circuits (record { n = 2; q = 1; m = 0; grain = 4 })) ≡ 91 }
    ensures at_21 { rank (record { n = 2; q = 1; m = 0; grain = 4 }) (X 0 ∷ Rz 0 (Const 4) ∷ []) ≡ 21 }
    ensures last { circuit_at (record { n = 2; q = 1; m = 0; grain = 4 }) 90 ≡ Rz 0 (Const 28) ∷ Rz 0 (Const 28) ∷ [] }
{}

/// With one parameter there are 133 circuits of at most two gates on one qubit. With three parameters there are 16
/// angles, and the one at place 14, counted from 0, is the sum of parameters 0 and 2.
pub fn angles_come_in_order()
    ensures circuits { length (all_circuits (record { n = 2; q = 1; m = 1; grain = 4 })) ≡ 133 }
    ensures angles { length (angles 3 4) ≡ 16 }
    ensures at_14 { slice_get (angles 3 4) 14 ≡ Some (Sum 0 2) }
{}

/// CX on control 0 and target 1 takes state 1, where qubit 0 alone is 1, to state 3, where both are; and keeps state 2.
#[tactic(auto, unfolding(crate::specs::Paths::entry, crate::specs::Paths::ways_through, crate::specs::Paths::identity_ways, crate::specs::Paths::ways_along, crate::specs::Paths::paths, crate::specs::Paths::total, crate::specs::Paths::count))]
pub fn control_comes_first()
    ensures flips { count (paths 2 (Cx 0 1 ∷ []) 3 1) zero_exponent ≡ pos 1 }
    ensures leaves { count (paths 2 (Cx 0 1 ∷ []) 1 1) zero_exponent ≡ pos 0 }
    ensures keeps { count (paths 2 (Cx 0 1 ∷ []) 2 2) zero_exponent ≡ pos 1 }
{}

/// A rotation by π/16 multiplies the qubit's 1 by ζ^16, one by a parameter by its unknown, one by the negative of a
/// parameter by the inverse, and one by a sum by both. The last leaves the 0 as it is.
#[tactic(auto, unfolding(crate::specs::Paths::entry, crate::specs::Paths::ways_through, crate::specs::Paths::identity_ways, crate::specs::Paths::ways_along, crate::specs::Paths::paths, crate::specs::Paths::total, crate::specs::Paths::count))]
pub fn rotations_multiply_by_their_angle()
    ensures constant { count (paths 1 (Rz 0 (Const 1) ∷ []) 1 1) (turn_of 16) ≡ pos 1 }
    ensures parameter { count (paths 1 (Rz 0 (Plus 1) ∷ []) 1 1) (record { turn = 0; x0 = pos 0; x1 = pos 1; x2 = pos 0 }) ≡ pos 1 }
    ensures negative { count (paths 1 (Rz 0 (Minus 2) ∷ []) 1 1) (record { turn = 0; x0 = pos 0; x1 = pos 0; x2 = negsuc 0 }) ≡ pos 1 }
    ensures sum { count (paths 1 (Rz 0 (Sum 0 2) ∷ []) 1 1) (record { turn = 0; x0 = pos 1; x1 = pos 0; x2 = pos 1 }) ≡ pos 1 }
    ensures zero { count (paths 1 (Rz 0 (Sum 0 2) ∷ []) 0 0) zero_exponent ≡ pos 1 }
{}

/// In a program on one qubit, rotations by 255·π/256 and by 2·π/256 have the ways of one by 257·π/256; and those by
/// 511·π/256 and by π/256 have the ways of no gate.
pub fn rotations_add_up()
    ensures two { (i j : ℕ) → i < 2 → j < 2 → program_paths 1 (ProgramRz 0 255 ∷ ProgramRz 0 2 ∷ []) i j ≡ program_paths 1 (ProgramRz 0 257 ∷ []) i j }
    ensures none { (i j : ℕ) → i < 2 → j < 2 → program_paths 1 (ProgramRz 0 511 ∷ ProgramRz 0 1 ∷ []) i j ≡ program_paths 1 [] i j }
{}

/// On one qubit, rotations with the numbers 1 and 511 are gates of a program; those with 0 and 512 aren't, nor is a CX of
/// qubit 0 on itself. Of H alone there is a circuit on 64 qubits, and on 65 there is none.
pub fn program_gates_are_told()
    ensures least { ¬ IsProgramGate 1 (ProgramRz 0 0) }
    ensures first { IsProgramGate 1 (ProgramRz 0 1) }
    ensures last { IsProgramGate 1 (ProgramRz 0 511) }
    ensures most { ¬ IsProgramGate 1 (ProgramRz 0 512) }
    ensures different { ¬ IsProgramGate 1 (ProgramCx 0 0) }
    ensures few { IsProgramCircuit 64 (ProgramH 63 ∷ []) }
    ensures many { ¬ IsProgramCircuit 65 (ProgramH 63 ∷ []) }
{}

/// Of program circuits on two qubits X on qubit 1 comes before CX on 0 and 1; a rotation of qubit 0 comes before one of
/// qubit 1 by a smaller angle; and two X come after one rotation.
#[tactic(auto, unfolding(crate::specs::ProgramCircuits::cost, crate::specs::ProgramCircuits::program_cmp, crate::specs::ProgramCircuits::program_gate_cmp))]
pub fn program_circuits_come_in_order()
    ensures kinds { program_cmp ones (ProgramX 1 ∷ []) (ProgramCx 0 1 ∷ []) ≡ Less }
    ensures qubits { program_cmp ones (ProgramRz 0 2 ∷ []) (ProgramRz 1 1 ∷ []) ≡ Less }
    ensures lengths { program_cmp ones (ProgramX 0 ∷ ProgramX 0 ∷ []) (ProgramRz 1 1 ∷ []) ≡ Greater }
{}

/// With parameters 0 and 1 bound to 100 and 500 turns, 33·π/16 is 16 turns, the negative of parameter 0 is 412, and the
/// sum is 88.
pub fn angles_have_values()
    ensures constant { angle_value (λ i. 100 + 400 * i) (Const 33) ≡ 16 }
    ensures negative { angle_value (λ i. 100 + 400 * i) (Minus 0) ≡ 412 }
    ensures sum { angle_value (λ i. 100 + 400 * i) (Sum 0 1) ≡ 88 }
{}

/// H twice on one qubit, with its two factors 1/√2 left out, counts the exponent 0 twice from each state to itself, and
/// in sum never to the other.
#[tactic(auto, unfolding(crate::specs::Paths::entry, crate::specs::Paths::ways_through, crate::specs::Paths::identity_ways, crate::specs::Paths::ways_along, crate::specs::Paths::paths, crate::specs::Paths::total, crate::specs::Paths::count))]
pub fn h_twice_is_two()
    ensures at_0_0 { count (paths 1 (H 0 ∷ H 0 ∷ []) 0 0) zero_exponent ≡ pos 2 }
    ensures at_0_1 { count (paths 1 (H 0 ∷ H 0 ∷ []) 0 1) zero_exponent ≡ pos 0 }
    ensures at_1_0 { count (paths 1 (H 0 ∷ H 0 ∷ []) 1 0) zero_exponent ≡ pos 0 }
    ensures at_1_1 { count (paths 1 (H 0 ∷ H 0 ∷ []) 1 1) zero_exponent ≡ pos 2 }
{}
