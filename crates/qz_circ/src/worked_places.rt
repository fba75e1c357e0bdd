//! Worked values of instances, bindings, places and replacing.
ghost use Rattle.std.specs.Prelude.{◌≡◌, [], ◌∷◌, Some, None};
ghost use Rattle.qz_circ.specs.declared.circuit.Expr.TheVariants.{Plus, Minus, Sum};
ghost use Rattle.qz_circ.specs.declared.circuit.Inst.TheVariants.{H as ProgramH, X as ProgramX, Cx as ProgramCx, Rz as ProgramRz};
ghost use Rattle.qz_circ.specs.declared.circuit.Op.TheVariants.{H, X, Cx, Rz};
ghost use Rattle.qz_circ.specs.Instances.{bound_instance};
ghost use Rattle.qz_circ.specs.Places.{nothing_bound, bind_gates, places};
ghost use Rattle.qz_circ.specs.Replacement.{children_by};

/// The sum of two parameters on qubit 3: with the values 5 and 507 it is no gate, and with 5 and 6 the rotation by 11.
#[tactic(auto, unfolding(crate::specs::Instances::instance_of))]
pub fn sums_have_instances()
    ensures none { bound_instance (record { qubits = Some 3 ∷ None ∷ None ∷ []; params = Some 5 ∷ Some 507 ∷ None ∷ [] }) (Rz 0 (Sum 0 1) ∷ []) ≡ [] }
    ensures some { bound_instance (record { qubits = Some 3 ∷ None ∷ None ∷ []; params = Some 5 ∷ Some 6 ∷ None ∷ [] }) (Rz 0 (Sum 0 1) ∷ []) ≡ ProgramRz 3 11 ∷ [] }
{}

/// A parameter bound to 10 and then a sum of 3 with another one, which is bound to 505. A negative binds to what is left of the
/// full circle. A sum alone does not bind, a parameter binds to one value only, and different qubits to different ones.
#[tactic(auto, unfolding(crate::specs::Places::bind_gates))]
pub fn gates_bind()
    ensures sum { bind_gates nothing_bound (Rz 0 (Plus 0) ∷ Rz 0 (Sum 0 1) ∷ []) (ProgramRz 5 10 ∷ ProgramRz 5 3 ∷ []) ≡ Some (record { qubits = Some 5 ∷ None ∷ None ∷ []; params = Some 10 ∷ Some 505 ∷ None ∷ [] }) }
    ensures negative { bind_gates nothing_bound (Rz 1 (Minus 2) ∷ []) (ProgramRz 5 10 ∷ []) ≡ Some (record { qubits = None ∷ Some 5 ∷ None ∷ []; params = None ∷ None ∷ Some 502 ∷ [] }) }
    ensures two_free { bind_gates nothing_bound (Rz 0 (Sum 0 1) ∷ []) (ProgramRz 5 10 ∷ []) ≡ None }
    ensures two_values { bind_gates nothing_bound (Rz 0 (Plus 0) ∷ Rz 0 (Plus 0) ∷ []) (ProgramRz 5 10 ∷ ProgramRz 5 3 ∷ []) ≡ None }
    ensures one_qubit { bind_gates nothing_bound (X 0 ∷ X 1 ∷ []) (ProgramX 4 ∷ ProgramX 4 ∷ []) ≡ None }
{}

/// Two H around a CX on other qubits are a place of two H, and leave the CX; where the CX is on their qubit there is none; and a
/// left side of two gates on different qubits has none at all.
#[tactic(auto, unfolding(crate::specs::Instances::instance_of, crate::specs::Gathering::marked, crate::specs::Gathering::selected, crate::specs::Gathering::gathers, crate::specs::Gathering::before_of, crate::specs::Gathering::after_of, crate::specs::Gathering::replaced_at, crate::specs::Places::bind_gates, crate::specs::Places::match_at, crate::specs::Places::rising_lists, crate::specs::Places::all_places, crate::specs::Places::sidings, crate::specs::Places::is_apart, crate::specs::Places::are_apart, crate::specs::Places::is_connected, crate::specs::Places::is_usable, crate::specs::Places::places, crate::specs::Replacement::children_by))]
pub fn two_h_have_places()
    ensures around { places (H 0 ∷ H 0 ∷ []) [] (ProgramH 0 ∷ ProgramCx 1 2 ∷ ProgramH 0 ∷ []) ≡ record { positions = 0 ∷ 2 ∷ []; binding = record { qubits = Some 0 ∷ None ∷ None ∷ []; params = None ∷ None ∷ None ∷ [] } } ∷ [] }
    ensures left { children_by (H 0 ∷ H 0 ∷ []) [] (ProgramH 0 ∷ ProgramCx 1 2 ∷ ProgramH 0 ∷ []) ≡ (ProgramCx 1 2 ∷ []) ∷ [] }
    ensures between { places (H 0 ∷ H 0 ∷ []) [] (ProgramH 0 ∷ ProgramCx 0 1 ∷ ProgramH 0 ∷ []) ≡ [] }
    ensures unconnected { places (H 0 ∷ X 1 ∷ []) [] (ProgramH 0 ∷ ProgramX 1 ∷ []) ≡ [] }
{}

/// A CX and an X on its control, with an X on its target and an H on another qubit between them: the H comes before what
/// replaces them, and the X on the target after it.
#[tactic(auto, unfolding(crate::specs::Instances::instance_of, crate::specs::Gathering::marked, crate::specs::Gathering::selected, crate::specs::Gathering::gathers, crate::specs::Gathering::before_of, crate::specs::Gathering::after_of, crate::specs::Gathering::replaced_at, crate::specs::Places::bind_gates, crate::specs::Places::match_at, crate::specs::Places::rising_lists, crate::specs::Places::all_places, crate::specs::Places::sidings, crate::specs::Places::is_apart, crate::specs::Places::are_apart, crate::specs::Places::is_connected, crate::specs::Places::is_usable, crate::specs::Places::places, crate::specs::Replacement::children_by))]
pub fn other_gates_come_before_and_after()
    ensures { children_by (Cx 0 1 ∷ X 0 ∷ []) (X 0 ∷ X 1 ∷ Cx 0 1 ∷ []) (ProgramCx 4 7 ∷ ProgramX 7 ∷ ProgramH 2 ∷ ProgramX 4 ∷ ProgramH 4 ∷ []) ≡ (ProgramH 2 ∷ ProgramX 4 ∷ ProgramX 7 ∷ ProgramCx 4 7 ∷ ProgramX 7 ∷ ProgramH 4 ∷ []) ∷ [] }
{}
