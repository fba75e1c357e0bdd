//! Worked values of which program a text is.
ghost use Rattle.std.specs.Prelude.{◌≡◌, [], codes, Ok, Err};
ghost use Rattle.qz_circ.specs.declared.fault.QasmFault.TheVariants as fault;
ghost use Rattle.qz_circ.specs.Grammar.{program_of, empty_program};

/// A header alone is the program without registers. Without it the text has a fault of syntax at its end, and so has a
/// declaration that isn't ended; another version isn't read.
pub fn headers_are_told()
    ensures header { program_of (codes "OPENQASM 2.0;") ≡ Ok empty_program }
    ensures nothing { program_of [] ≡ Err (fault.Syntax 0) }
    ensures version { program_of (codes "OPENQASM 3.0;") ≡ Err (fault.Unsupported 9) }
    ensures unended { program_of (codes "OPENQASM 2.0; qreg q[") ≡ Err (fault.Syntax 21) }
    ensures unknown { program_of (codes "OPENQASM 2.0; qre") ≡ Err (fault.UnknownGate 14) }
{}
