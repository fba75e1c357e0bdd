//! The command that tells whether two programs are equivalent: that of the input, and that of a file.
ghost use Rattle.std.specs.Prelude.{◌≡◌, ◌≢◌, ℕ, ◌+◌, ◌≤◌, ◌⊎◌, List, length, Some, None, Ok, Err, IfOk, IfErr, OnOk, MatchResult};
ghost use Rattle.std.specs.Io.KnownBytes.{IsAtEnd};
ghost use Rattle.qz_circ.specs.Grammar.{program_of};
ghost use Rattle.qz_circ.specs.ProgramCircuits.{program_halves};
ghost use Rattle.qz_circ.specs.ProgramLimits.{most_gates};
ghost use Rattle.qz_circ.specs.Registers.{total_size};
ghost use Rattle.qz_circ.specs.ValidPrograms.{Valid};
ghost use Rattle.qz_io.specs.Told.{TakesBytes};
ghost use Rattle.qz_io.specs.Transfers.{source_shown};
ghost use Rattle.qz_top.specs.Answer.{shelf_shown, shown, IsCarriedOut};
ghost use Rattle.qz_top.specs.Check.{program_file, of_file, check_limit, check_refusal, verdict_text, IsVerdict, Checks, RefusesFileBytes, IsFileProgram, HasProgram, IsChecked, IsCheckedBy, EndsByPrograms};
ghost use Rattle.qz_top.specs.Files.{TellsFile, TakesFile, TakesFileFor};
ghost use Rattle.qz_top.specs.Inputs.{most_input_bytes};
ghost use Rattle.qz_top.specs.Making.{EndsEarly, EndsUnread, IsMadeOfInput};
ghost use Rattle.qz_top.specs.Status.{IsBeforeInput, WritesNothing};

use crate::files::{FileLimit, file_in};
use crate::inputs::{program_in, program_of};
use crate::status::Status;
use crate::writing::write_text;
use qz_check::halves_of;
use qz_circ::{Inst, Memory, Program, Which, total_size};
use qz_io::{Shelf, Sink, Source};
use std::alloc::Global;

// What becomes of a status of an input's program where it is that of the file.
fn of_file(status: Status) -> Status
    ensures { result ≡ of_file status }
{
    match status {
        Status::Qasm(fault) => Status::FileQasm(fault),
        status => status,
    }
}

// The program in the bytes of the file; or the status of their first fault, or that memory ran out.
fn program_of_file(alloc: Global, bytes: &[u8]) -> Result<Program, Status>
    requires { length bytes.now ≤ most_input_bytes }
    ensures read { MatchResult result (λ program. program_of bytes.now ≡ Ok program) (λ status. RefusesFileBytes status bytes.now ⊎ (status ≡ Status.Memory)) }
    ensures valid { IfOk result Valid }
{
    match program_of(alloc, bytes) {
        Ok(program) => Ok(program),
        Err(status) => Err(of_file(status)),
    }
}

// Reads the program in the file with this name; or gives the status that the command ends with before it has it.
fn program_in_file<F: Shelf>(alloc: Global, name: &str, shelf: &mut F) -> Result<Program, Status>
    ensures made { let storage = shelf_shown F.Shelf shelf.old shelf.new in
        MatchResult result (λ program. IsFileProgram name.now program storage) (λ status. EndsUnread (Checks name.now) status storage) }
    ensures valid { IfOk result Valid }
    ensures at_end { OnOk result (IsAtEnd (F.rest shelf.new)) }
    ensures taken { (file : List ℕ) → TellsFile (F.files shelf.old) name.now file → TakesFileFor program_file file (F.rest shelf.old) (F.rest shelf.new) result }
    ensures files { F.files shelf.new ≡ F.files shelf.old }
    ensures faults { F.faults shelf.old ≤ F.faults shelf.new }
{
    let limit = FileLimit {
        most: 4_194_304,
        which: Which::FileBytes,
    };
    match file_in(alloc, name, limit, shelf) {
        Ok(bytes) => program_of_file(alloc, &bytes),
        Err(status) => Err(status),
    }
}

// How many qubits a program has.
fn qubits_of(program: &Program) -> u64
    requires { Valid program.now }
    ensures { result ≡ total_size program.now.qregs }
{
    u64::from(total_size(program.qregs()))
}

// The first limit that two circuits on q qubits pass, if they do.
#[tactic(auto, using(std::proofs::lemmas::Bool::Decides::nat_tests))]
fn check_limit(q: u64, a: &[Inst], c: &[Inst]) -> Option<Which>
    requires first { length a.now ≤ most_gates }
    requires second { length c.now ≤ most_gates }
    ensures limit { result ≡ check_limit q a.now c.now }
    ensures few { result ≡ None → q ≤ 6 }
    ensures halves { result ≡ None → program_halves a.now + program_halves c.now ≤ 120 }
{
    if q > 6 {
        return Some(Which::CheckQubits);
    }
    if halves_of(a) + halves_of(c) > 120 {
        return Some(Which::CheckHalves);
    }
    if a.len() + c.len() > 4000 {
        return Some(Which::CheckGates);
    }
    None
}

// Why two programs are not compared, if they aren't.
fn refusal(program: &Program, file: &Program) -> Option<Status>
    requires valid { Valid program.now }
    requires file_valid { Valid file.now }
    ensures refusal { result ≡ check_refusal program.now file.now }
    ensures few { result ≡ None → total_size program.now.qregs ≤ 6 }
    ensures same { result ≡ None → total_size program.now.qregs ≡ total_size file.now.qregs }
    ensures halves { result ≡ None → program_halves program.now.gates + program_halves file.now.gates ≤ 120 }
{
    let q = qubits_of(program);
    let other = qubits_of(file);
    if q != other {
        return Some(Status::Shapes {
            input: q,
            file: other,
        });
    }
    let which = check_limit(q, program.gates(), file.gates())?;
    Some(Status::Limit(which))
}

// What is told of programs that are equivalent or not.
fn verdict_text(same: bool) -> &'static str
    ensures { result.now ≡ verdict_text same }
{
    if same { "equivalent\n" } else { "different\n" }
}

// What is told of two programs, by their gates alone.
fn verdict(alloc: Global, program: &Program, file: &Program) -> Result<&'static str, Memory>
    requires valid { Valid program.now }
    requires file_valid { Valid file.now }
    requires few { total_size program.now.qregs ≤ 6 }
    requires same { total_size program.now.qregs ≡ total_size file.now.qregs }
    requires halves { program_halves program.now.gates + program_halves file.now.gates ≤ 120 }
    ensures { IfOk result (λ text. IsVerdict program.now file.now text.now) }
{
    let q = qubits_of(program);
    let same = qz_check::check(alloc, program.gates(), file.gates(), q)?;
    Ok(verdict_text(same))
}

// What is told of two programs; or the status that a command ends with before it compares them, or that memory ran out.
fn checked(alloc: Global, program: &Program, file: &Program) -> Result<&'static str, Status>
    requires valid { Valid program.now }
    requires file_valid { Valid file.now }
    ensures { MatchResult result (λ text. IsChecked program.now file.now text.now) (λ status. (check_refusal program.now file.now ≡ Some status) ⊎ (status ≡ Status.Memory)) }
{
    if let Some(status) = refusal(program, file) {
        return Err(status);
    }
    match verdict(alloc, program, file) {
        Ok(text) => Ok(text),
        Err(_) => Err(Status::Memory),
    }
}

// Reads the input, and gives the text for the output; or the status that the command ends with before it writes.
fn checked_input<I: Source>(
    alloc: Global,
    file: &Program,
    input: &mut I,
) -> Result<&'static str, Status>
    requires { Valid file.now }
    ensures made { let seen = source_shown I.Source input.old input.new in
        MatchResult result (λ text. IsMadeOfInput (λ program. IsChecked program file.now text.now) seen) (λ status. EndsByPrograms file.now status seen) }
    ensures at_end { OnOk result (IsAtEnd (I.left input.new)) }
    ensures taken { TakesBytes (I.left input.old) (I.left input.new) (λ n. n ≤ most_input_bytes + 1) }
    ensures within { result ≢ Err (Status.Limit Which.InputBytes) → TakesBytes (I.left input.old) (I.left input.new) (λ n. n ≤ most_input_bytes) }
    ensures faults { I.faults input.old ≤ I.faults input.new }
{
    match program_in(alloc, input) {
        Ok(program) => checked(alloc, &program, file),
        Err(status) => Err(status),
    }
}

// Reads the file's program and then the input, and gives the text for the output; or the status that the command ends with
// before it writes.
fn checked_by<I: Source, F: Shelf>(
    alloc: Global,
    name: &str,
    input: &mut I,
    shelf: &mut F,
) -> Result<&'static str, Status>
    ensures made { let seen = source_shown I.Source input.old input.new in
        let storage = shelf_shown F.Shelf shelf.old shelf.new in
        MatchResult result (λ text. IsCheckedBy name.now text.now seen storage) (λ status. EndsEarly (Checks name.now) status seen storage) }
    ensures at_end { OnOk result (IsAtEnd (I.left input.new)) }
    ensures taken { TakesBytes (I.left input.old) (I.left input.new) (λ n. n ≤ most_input_bytes + 1) }
    ensures within { result ≢ Err (Status.Limit Which.InputBytes) → TakesBytes (I.left input.old) (I.left input.new) (λ n. n ≤ most_input_bytes) }
    ensures unread { (input.new ≡ input.old) ⊎ HasProgram name.now (shelf_shown F.Shelf shelf.old shelf.new) }
    ensures before { IfErr result (λ status. IsBeforeInput status → input.new ≡ input.old) }
    ensures read_fault { result ≡ Err Status.ReadFault → HasProgram name.now (shelf_shown F.Shelf shelf.old shelf.new) }
    ensures file_at_end { OnOk result (IsAtEnd (F.rest shelf.new)) }
    ensures file_taken { (file : List ℕ) → TellsFile (F.files shelf.old) name.now file → TakesFileFor program_file file (F.rest shelf.old) (F.rest shelf.new) result }
    ensures files { F.files shelf.new ≡ F.files shelf.old }
    ensures input_faults { I.faults input.old ≤ I.faults input.new }
    ensures shelf_faults { F.faults shelf.old ≤ F.faults shelf.new }
{
    match program_in_file(alloc, name, shelf) {
        Ok(file) => checked_input(alloc, &file, input),
        Err(status) => Err(status),
    }
}

// Reads the program in the file with this name and then the input, each to its end, and writes whether they are equivalent.
pub(crate) fn check<I: Source, F: Shelf, O: Sink>(
    alloc: Global,
    name: &str,
    input: &mut I,
    shelf: &mut F,
    out: &mut O,
) -> Status
    ensures carried_out { IsCarriedOut (Checks name.now) result
        (shown I.Source F.Shelf O.Sink input.old input.new shelf.old shelf.new out.old out.new) }
    ensures at_end { result ≡ Status.Ok → IsAtEnd (I.left input.new) }
    ensures taken { TakesBytes (I.left input.old) (I.left input.new) (λ n. n ≤ most_input_bytes + 1) }
    ensures within { result ≢ Status.Limit Which.InputBytes → TakesBytes (I.left input.old) (I.left input.new) (λ n. n ≤ most_input_bytes) }
    ensures unread { (input.new ≡ input.old) ⊎ HasProgram name.now (shelf_shown F.Shelf shelf.old shelf.new) }
    ensures before { IsBeforeInput result → input.new ≡ input.old }
    ensures read_fault { result ≡ Status.ReadFault → HasProgram name.now (shelf_shown F.Shelf shelf.old shelf.new) }
    ensures untouched { WritesNothing result → out.new ≡ out.old }
    ensures file_at_end { result ≡ Status.Ok → IsAtEnd (F.rest shelf.new) }
    ensures file_taken { (file : List ℕ) → TellsFile (F.files shelf.old) name.now file → TakesFile program_file file (F.rest shelf.old) (F.rest shelf.new) result }
    ensures files { F.files shelf.new ≡ F.files shelf.old }
    ensures input_faults { I.faults input.old ≤ I.faults input.new }
    ensures shelf_faults { F.faults shelf.old ≤ F.faults shelf.new }
    ensures faults { O.faults out.old ≤ O.faults out.new }
    ensures wants { O.wants out.old ≤ O.wants out.new }
{
    match checked_by(alloc, name, input, shelf) {
        Ok(text) => write_text(text.as_bytes(), out),
        Err(status) => status,
    }
}
