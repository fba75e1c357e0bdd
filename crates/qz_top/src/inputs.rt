//! The input of a command that needs a program: how it is read, and why it is refused.
ghost use Rattle.std.specs.Prelude.{◌≡◌, ◌≢◌, ◌≤◌, ◌+◌, ◌⊎◌, length, Ok, Err, IfOk, MatchResult, OnOk};
ghost use Rattle.std.specs.Io.KnownBytes.{IsAtEnd};
ghost use Rattle.qz_circ.specs.Grammar.{program_of};
ghost use Rattle.qz_circ.specs.ValidPrograms.{Valid};
ghost use Rattle.qz_io.specs.Told.{TakesBytes};
ghost use Rattle.qz_io.specs.Transfers.{source_shown};
ghost use Rattle.qz_top.specs.Inputs.{most_input_bytes, status_of_fault, status_of_unread};
ghost use Rattle.qz_top.specs.Making.{IsProgramRead, RefusesBytes, EndsByInput};

use crate::status::Status;
use qz_circ::{LexFault, Program, QasmFault, Which};
use qz_io::{Source, Unread, read_source};
use qz_qread::read;
use std::alloc::Global;

// How many bytes an input has at most.
const LIMIT: u64 = 4_194_304;

// The status of a fault of a program. A limit and want of memory have statuses of their own.
fn status_of_fault(fault: QasmFault) -> Status
    ensures { result ≡ status_of_fault fault }
{
    match fault {
        QasmFault::Limit { which, .. } => Status::Limit(which),
        QasmFault::Memory => Status::Memory,
        QasmFault::Lex(LexFault::Memory) => Status::Memory,
        fault => Status::Qasm(fault),
    }
}

// The status where the input isn't read whole.
fn status_of_unread(unread: Unread) -> Status
    ensures { result ≡ status_of_unread unread }
{
    match unread {
        Unread::TooLong => Status::Limit(Which::InputBytes),
        Unread::Failed => Status::ReadFault,
        Unread::Memory => Status::Memory,
    }
}

// The program that the bytes are; or the status of their first fault, or that memory ran out.
pub(crate) fn program_of(alloc: Global, bytes: &[u8]) -> Result<Program, Status>
    requires { length bytes.now ≤ most_input_bytes }
    ensures read { MatchResult result (λ program. program_of bytes.now ≡ Ok program) (λ status. RefusesBytes status bytes.now ⊎ (status ≡ Status.Memory)) }
    ensures valid { IfOk result Valid }
{
    match read(alloc, bytes) {
        Ok(program) => Ok(program),
        Err(fault) => Err(status_of_fault(fault)),
    }
}

// Reads the input to its end, and gives its program; or the status that a command ends with before it has it.
pub(crate) fn program_in<I: Source>(alloc: Global, input: &mut I) -> Result<Program, Status>
    ensures read { let seen = source_shown I.Source input.old input.new in
        MatchResult result (λ program. IsProgramRead program seen) (λ status. EndsByInput status seen) }
    ensures valid { IfOk result Valid }
    ensures at_end { OnOk result (IsAtEnd (I.left input.new)) }
    ensures taken { TakesBytes (I.left input.old) (I.left input.new) (λ n. n ≤ most_input_bytes + 1) }
    ensures within { result ≢ Err (Status.Limit Which.InputBytes) → TakesBytes (I.left input.old) (I.left input.new) (λ n. n ≤ most_input_bytes) }
    ensures faults { I.faults input.old ≤ I.faults input.new }
{
    match read_source(alloc, input, LIMIT) {
        Ok(bytes) => program_of(alloc, &bytes),
        Err(unread) => Err(status_of_unread(unread)),
    }
}
