//! Worked values of which programs are valid.
ghost use Rattle.std.specs.Prelude.{[], ◌∷◌, codes, Some, None};
ghost use Rattle.qz_circ.specs.declared.circuit.Inst.TheVariants.{Cx, Rz};
ghost use Rattle.qz_circ.specs.declared.program.Tail.TheVariants.{Barrier, Measure};
ghost use Rattle.qz_circ.specs.ValidPrograms.{IsRegisterName, IsStatement, Valid};

/// A register may be named `q_1`, or as a gate is. It isn't named by a word of the language, by `pi`, by a word that begins
/// with a capital letter, or by nothing.
pub fn names_are_told()
    ensures digit { IsRegisterName (codes "q_1") }
    ensures gate { IsRegisterName (codes "cx") }
    ensures word { ¬ IsRegisterName (codes "measure") }
    ensures pi { ¬ IsRegisterName (codes "pi") }
    ensures capital { ¬ IsRegisterName (codes "Q") }
    ensures nothing { ¬ IsRegisterName [] }
{}

/// With two qubits and one bit, place 1 of the qubits is measured into place 0 of the bits. There is no place 2; the qubits
/// are too many to be measured whole, and one qubit isn't measured into a whole register. A barrier has some operand.
pub fn statements_are_told()
    ensures single { IsStatement (record { name = codes "q"; size = 2 } ∷ []) (record { name = codes "c"; size = 1 } ∷ []) (Measure (record { register = 0; index = Some 1 }) (record { register = 0; index = Some 0 })) }
    ensures past { ¬ IsStatement (record { name = codes "q"; size = 2 } ∷ []) (record { name = codes "c"; size = 1 } ∷ []) (Measure (record { register = 0; index = Some 2 }) (record { register = 0; index = Some 0 })) }
    ensures whole { ¬ IsStatement (record { name = codes "q"; size = 2 } ∷ []) (record { name = codes "c"; size = 1 } ∷ []) (Measure (record { register = 0; index = None }) (record { register = 0; index = None })) }
    ensures mixed { ¬ IsStatement (record { name = codes "q"; size = 2 } ∷ []) (record { name = codes "c"; size = 1 } ∷ []) (Measure (record { register = 0; index = Some 0 }) (record { register = 0; index = None })) }
    ensures barrier { ¬ IsStatement (record { name = codes "q"; size = 2 } ∷ []) [] (Barrier []) }
{}

/// A program on two qubits and one bit with a CX and a rotation is valid; with one name for both registers it isn't.
pub fn programs_are_told()
    ensures valid { Valid (record { qregs = record { name = codes "q"; size = 2 } ∷ []; cregs = record { name = codes "c"; size = 1 } ∷ []; gates = Cx 1 0 ∷ Rz 0 511 ∷ []; tail = [] }) }
    ensures twice { ¬ Valid (record { qregs = record { name = codes "q"; size = 2 } ∷ []; cregs = record { name = codes "q"; size = 1 } ∷ []; gates = []; tail = [] }) }
{}
