//! Laws of reading, over all texts: each function has an empty body, and its contract is the law.
ghost use Rattle.std.specs.Prelude.{◌≡◌, ◌≢◌, ℕ, List, Ok, Err};
ghost use Rattle.qz_circ.specs.declared.fault.QasmFault.TheVariants.{Lex, Limit, Memory};
ghost use Rattle.qz_circ.specs.declared.fault.LexFault.TheVariants.{Memory as LexMemory};
ghost use Rattle.qz_circ.specs.Programs.{ProgramParts};
ghost use Rattle.qz_circ.specs.ProgramText.{program_text};
ghost use Rattle.qz_circ.specs.ValidPrograms.{Valid};
ghost use Rattle.qz_circ.specs.Grammar.{program_of};
ghost use Rattle.qz_circ.specs.declared.fault.Which.{Which};
ghost use Rattle.qz_qread.specs.ProgramLimits.{IsProgramLimit};

/// Each program that is read is valid.
pub fn what_is_read_is_valid()
    ensures { (bytes : List ℕ) (p : ProgramParts) → program_of bytes ≡ Ok p → Valid p }
{}

/// No text has want of memory as its fault, neither of its tokens nor of its program.
#[tactic(auto, using(crate::proofs::ValidReadings::no_program_lacks_memory, crate::proofs::ValidReadings::no_tokens_lack_memory))]
pub fn no_text_lacks_memory()
    ensures program { (bytes : List ℕ) → program_of bytes ≢ Err Memory }
    ensures tokens { (bytes : List ℕ) → program_of bytes ≢ Err (Lex LexMemory) }
{}

/// A limit that a text passes is one of programs.
#[tactic(auto, using(crate::proofs::ValidReadings::limits_are_of_programs))]
pub fn limits_are_of_programs()
    ensures { (bytes : List ℕ) (which : Which) (place : ℕ) → program_of bytes ≡ Err (Limit which place) → IsProgramLimit which }
{}

/// The canonical text of a valid program is read as this program.
#[tactic(auto, using(crate::proofs::RoundTrip::what_is_written_is_read))]
pub fn what_is_written_is_read()
    ensures { (p : ProgramParts) → Valid p → program_of (program_text p) ≡ Ok p }
{}
