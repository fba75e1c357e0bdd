//! The command that optimises a program by the rules of a file.
ghost use Rattle.std.specs.Prelude.{◌≡◌, ◌≢◌, ℕ, ◌+◌, ◌≤◌, ◌⊎◌, List, IsTrue, Ok, Err, IfOk, IfErr, OnOk, MatchResult};
ghost use Rattle.std.specs.Io.KnownBytes.{IsAtEnd};
ghost use Rattle.qz_circ.specs.RuleFiles.{Reads};
ghost use Rattle.qz_circ.specs.Search.{PlanNumbers};
ghost use Rattle.qz_circ.specs.declared.fault.RuleFault.{RuleFault};
ghost use Rattle.qz_circ.specs.ValidPrograms.{Valid};
ghost use Rattle.qz_io.specs.Told.{TakesBytes};
ghost use Rattle.qz_io.specs.Transfers.{source_shown};
ghost use Rattle.qz_top.specs.Answer.{shelf_shown, shown, IsCarriedOut};
ghost use Rattle.qz_top.specs.Inputs.{most_input_bytes};
ghost use Rattle.qz_top.specs.Making.{EndsEarly, EndsUnread, AreRulesRead, HasRules, IsMadeOfInput, EndsByInput};
ghost use Rattle.qz_top.specs.Files.{TellsFile, TakesFile, TakesFileFor};
ghost use Rattle.qz_top.specs.Optimise.{rule_file, status_of_rule_fault, Optimises};
ghost use Rattle.qz_top.specs.Optimised.{IsFound, IsOptimised, IsOptimisedBy, WritesOptimised};
ghost use Rattle.qz_top.specs.Status.{IsBeforeInput, WritesNothing};
ghost use Rattle.qz_top.specs.Words.{AreWorkers};

use crate::files::{FileLimit, file_in};
use crate::inputs::program_in;
use crate::status::Status;
use crate::words::limit_of;
use crate::writing::{text_of, write_text};
use qz_circ::{Inst, Memory, Program, RuleFault, Which};
use qz_crew::Turnstile;
use qz_hunt::hunt;
use qz_io::{Shelf, Sink, Source};
use qz_rulefile::{Rules, read};
use qz_search::{Plan, search};
use std::alloc::Global;
use std::sync::Wait;
use std::thread::Threads;

// The status of a fault of a rule file. Want of memory has a status of its own.
fn status_of_rule_fault(fault: RuleFault) -> Status
    ensures { result ≡ status_of_rule_fault fault }
{
    match fault {
        RuleFault::Syntax { place } => Status::RuleSyntax { place },
        RuleFault::Limit(refused) => Status::Limit(limit_of(refused)),
        RuleFault::Unsound { class, member } => Status::Unsound { class, member },
        RuleFault::Memory => Status::Memory,
    }
}

// The rules that the bytes of a file say; or the status of their first fault, or that memory ran out.
fn rules_of(alloc: Global, bytes: &[u8]) -> Result<Rules, Status>
    ensures { MatchResult result (λ rules. Reads bytes.now (Ok rules)) (λ status. ((e : RuleFault) × Reads bytes.now (Err e) × (status ≡ status_of_rule_fault e)) ⊎ (status ≡ Status.Memory)) }
{
    match read(alloc, bytes) {
        Ok(rules) => Ok(rules),
        Err(fault) => Err(status_of_rule_fault(fault)),
    }
}

// Reads the rules in the file with this name; or gives the status that the command ends with before it has them.
fn rules_in<F: Shelf>(alloc: Global, name: &str, shelf: &mut F) -> Result<Rules, Status>
    // Whatever the plan is.
    ensures made { (plan : PlanNumbers) → let storage = shelf_shown F.Shelf shelf.old shelf.new in
        MatchResult result (λ rules. AreRulesRead name.now rules storage) (λ status. EndsUnread (Optimises name.now plan) status storage) }
    ensures file_at_end { OnOk result (IsAtEnd (F.rest shelf.new)) }
    ensures file_taken { (file : List ℕ) → TellsFile (F.files shelf.old) name.now file → TakesFileFor rule_file file (F.rest shelf.old) (F.rest shelf.new) result }
    ensures files { F.files shelf.new ≡ F.files shelf.old }
    ensures faults { F.faults shelf.old ≤ F.faults shelf.new }
{
    let limit = FileLimit {
        most: 134_217_728,
        which: Which::RuleBytes,
    };
    match file_in(alloc, name, limit, shelf) {
        Ok(bytes) => rules_of(alloc, &bytes),
        Err(status) => Err(status),
    }
}

// The circuit that the search by these rules and with this plan finds from a program's.
pub(crate) fn found(
    alloc: Global,
    rules: &Rules,
    plan: Plan,
    program: &Program,
) -> Result<Vec<Inst>, Memory>
    requires { Valid program.now }
    ensures { IfOk result (λ circuit. IsFound rules.now plan program.now circuit.items) }
{
    search(alloc, rules, program.gates(), plan)
}

// The same by so many workers.
pub(crate) fn found_by<R: Threads + Wait + Sync, T: Turnstile>(
    rt: &R,
    alloc: Global,
    rules: &Rules,
    plan: Plan,
    program: &Program,
    workers: u64,
    stile: &T,
) -> Result<Vec<Inst>, Memory>
    requires valid { Valid program.now }
    requires workers { AreWorkers workers }
    ensures { IfOk result (λ circuit. IsFound rules.now plan program.now circuit.items) }
{
    hunt(rt, alloc, rules, program.gates(), plan, workers, stile)
}

// The text of the program with the circuit that is found as its gates, unless memory runs out.
fn optimised<S: FnOnce(&Rules, Plan, &Program) -> Result<Vec<Inst>, Memory>>(
    alloc: Global,
    rules: &Rules,
    plan: Plan,
    program: Program,
    find: S,
) -> Result<Vec<u8>, Status>
    requires valid { Valid program }
    requires ready { (r p : _) → Valid p.now → S.pre find r plan p }
    requires finds { (r p circuit : _) → S.post find r plan p circuit → IfOk circuit (λ c. IsFound r.now plan p.now c.items) }
    ensures { MatchResult result (λ text. IsOptimised rules.now plan program text.items) (λ status. status ≡ Status.Memory) }
{
    let Ok(circuit) = find(rules, plan, &program) else {
        return Err(Status::Memory);
    };
    let changed = program.with_gates(circuit);
    text_of(alloc, &changed)
}

// Reads the input, and gives the text for the output; or the status that the command ends with before it writes.
fn optimised_input<I: Source, S: FnOnce(&Rules, Plan, &Program) -> Result<Vec<Inst>, Memory>>(
    alloc: Global,
    rules: &Rules,
    plan: Plan,
    input: &mut I,
    find: S,
) -> Result<Vec<u8>, Status>
    requires ready { (r p : _) → Valid p.now → S.pre find r plan p }
    requires finds { (r p circuit : _) → S.post find r plan p circuit → IfOk circuit (λ c. IsFound r.now plan p.now c.items) }
    ensures made { let seen = source_shown I.Source input.old input.new in
        MatchResult result (λ text. IsMadeOfInput (λ program. IsOptimised rules.now plan program text.items) seen) (λ status. EndsByInput status seen) }
    ensures at_end { OnOk result (IsAtEnd (I.left input.new)) }
    ensures taken { TakesBytes (I.left input.old) (I.left input.new) (λ n. n ≤ most_input_bytes + 1) }
    ensures within { result ≢ Err (Status.Limit Which.InputBytes) → TakesBytes (I.left input.old) (I.left input.new) (λ n. n ≤ most_input_bytes) }
    ensures faults { I.faults input.old ≤ I.faults input.new }
{
    match program_in(alloc, input) {
        Ok(program) => optimised(alloc, rules, plan, program, find),
        Err(status) => Err(status),
    }
}

// Reads the rules and then the input, and gives the text for the output; or the status that the command ends with before it writes.
fn optimised_by<
    I: Source,
    F: Shelf,
    S: FnOnce(&Rules, Plan, &Program) -> Result<Vec<Inst>, Memory>,
>(
    alloc: Global,
    name: &str,
    plan: Plan,
    input: &mut I,
    shelf: &mut F,
    find: S,
) -> Result<Vec<u8>, Status>
    requires ready { (r p : _) → Valid p.now → S.pre find r plan p }
    requires finds { (r p circuit : _) → S.post find r plan p circuit → IfOk circuit (λ c. IsFound r.now plan p.now c.items) }
    ensures made { let seen = source_shown I.Source input.old input.new in
        let storage = shelf_shown F.Shelf shelf.old shelf.new in
        MatchResult result (λ text. IsOptimisedBy name.now plan text.items seen storage) (λ status. EndsEarly (Optimises name.now plan) status seen storage) }
    ensures at_end { OnOk result (IsAtEnd (I.left input.new)) }
    ensures taken { TakesBytes (I.left input.old) (I.left input.new) (λ n. n ≤ most_input_bytes + 1) }
    ensures within { result ≢ Err (Status.Limit Which.InputBytes) → TakesBytes (I.left input.old) (I.left input.new) (λ n. n ≤ most_input_bytes) }
    ensures unread { (input.new ≡ input.old) ⊎ HasRules name.now (shelf_shown F.Shelf shelf.old shelf.new) }
    ensures before { IfErr result (λ status. IsBeforeInput status → input.new ≡ input.old) }
    ensures read_fault { result ≡ Err Status.ReadFault → HasRules name.now (shelf_shown F.Shelf shelf.old shelf.new) }
    ensures file_at_end { OnOk result (IsAtEnd (F.rest shelf.new)) }
    ensures file_taken { (file : List ℕ) → TellsFile (F.files shelf.old) name.now file → TakesFileFor rule_file file (F.rest shelf.old) (F.rest shelf.new) result }
    ensures files { F.files shelf.new ≡ F.files shelf.old }
    ensures input_faults { I.faults input.old ≤ I.faults input.new }
    ensures shelf_faults { F.faults shelf.old ≤ F.faults shelf.new }
{
    match rules_in(alloc, name, shelf) {
        Ok(rules) => optimised_input(alloc, &rules, plan, input, find),
        Err(status) => Err(status),
    }
}

// Reads the rules in the file with this name and then the input, each to its end, and writes the text of the input's program
// with the circuit of the search as its gates.
pub(crate) fn optimise<
    I: Source,
    F: Shelf,
    O: Sink,
    S: FnOnce(&Rules, Plan, &Program) -> Result<Vec<Inst>, Memory>,
>(
    alloc: Global,
    name: &str,
    plan: Plan,
    input: &mut I,
    shelf: &mut F,
    out: &mut O,
    find: S,
) -> Status
    requires ready { (r p : _) → Valid p.now → S.pre find r plan p }
    requires finds { (r p circuit : _) → S.post find r plan p circuit → IfOk circuit (λ c. IsFound r.now plan p.now c.items) }
    ensures carried_out { IsCarriedOut (Optimises name.now plan) result
        (shown I.Source F.Shelf O.Sink input.old input.new shelf.old shelf.new out.old out.new) }
    ensures optimised { result ≡ Status.Ok → WritesOptimised name.now plan
        (shown I.Source F.Shelf O.Sink input.old input.new shelf.old shelf.new out.old out.new) }
    ensures at_end { result ≡ Status.Ok → IsAtEnd (I.left input.new) }
    ensures taken { TakesBytes (I.left input.old) (I.left input.new) (λ n. n ≤ most_input_bytes + 1) }
    ensures within { result ≢ Status.Limit Which.InputBytes → TakesBytes (I.left input.old) (I.left input.new) (λ n. n ≤ most_input_bytes) }
    ensures unread { (input.new ≡ input.old) ⊎ HasRules name.now (shelf_shown F.Shelf shelf.old shelf.new) }
    ensures before { IsBeforeInput result → input.new ≡ input.old }
    ensures read_fault { result ≡ Status.ReadFault → HasRules name.now (shelf_shown F.Shelf shelf.old shelf.new) }
    ensures untouched { WritesNothing result → out.new ≡ out.old }
    ensures file_at_end { result ≡ Status.Ok → IsAtEnd (F.rest shelf.new) }
    ensures file_taken { (file : List ℕ) → TellsFile (F.files shelf.old) name.now file → TakesFile rule_file file (F.rest shelf.old) (F.rest shelf.new) result }
    ensures files { F.files shelf.new ≡ F.files shelf.old }
    ensures input_faults { I.faults input.old ≤ I.faults input.new }
    ensures shelf_faults { F.faults shelf.old ≤ F.faults shelf.new }
    ensures faults { O.faults out.old ≤ O.faults out.new }
    ensures wants { O.wants out.old ≤ O.wants out.new }
{
    match optimised_by(alloc, name, plan, input, shelf, find) {
        Ok(text) => write_text(&text, out),
        Err(status) => status,
    }
}
