//! How the text of a command is made and handed to the output.
ghost use Rattle.std.specs.Prelude.{◌≡◌, ◌≤◌, MatchResult};
ghost use Rattle.qz_circ.specs.ProgramText.{program_text};
ghost use Rattle.qz_circ.specs.ValidPrograms.{Valid};
ghost use Rattle.qz_io.specs.Counts.{Rose};
ghost use Rattle.qz_top.specs.Answer.{sink_shown, IsWritten};
ghost use Rattle.qz_top.specs.Status.{WritesNothing};

use crate::status::Status;
use qz_circ::Program;
use qz_io::{IoFault, Sink, deliver};
use qz_qwrite::write;
use std::alloc::Global;

// The canonical text of a program.
pub(crate) fn text_of(alloc: Global, program: &Program) -> Result<Vec<u8>, Status>
    requires { Valid program.now }
    ensures { MatchResult result (λ text. text.items ≡ program_text program.now) (λ status. status ≡ Status.Memory) }
{
    write(alloc, program).map_err(|_| Status::Memory)
}

// Writes the whole text. After an error a prefix of it is written, which is not the whole text.
pub(crate) fn write_text<O: Sink>(text: &[u8], out: &mut O) -> Status
    ensures begun { WritesNothing result → ⊥ }
    ensures written { IsWritten text.now result (sink_shown O.Sink out.old out.new) }
    ensures memory { result ≡ Status.Memory → Rose (O.wants out.old) (O.wants out.new) }
    ensures faults { O.faults out.old ≤ O.faults out.new }
    ensures wants { O.wants out.old ≤ O.wants out.new }
{
    match deliver(text, out) {
        Ok(()) => Status::Ok,
        Err(IoFault::Failed) => Status::WriteFault,
        Err(IoFault::Memory) => Status::Memory,
    }
}
