//! A command with one worker, from its words to what it writes.
ghost use Rattle.std.specs.Prelude.{◌≡◌, ◌≢◌, ℕ, Bool, true, ◌+◌, ◌≤◌, ◌⊎◌, List, [], length, map, slice_index_or, string_bytes, Some, None, IfOk};
ghost use Rattle.std.specs.Io.KnownBytes.{IsAtEnd};
ghost use Rattle.qz_circ.specs.Circuit.{Limits};
ghost use Rattle.qz_circ.specs.declared.fault.Which.TheVariants.{InputBytes};
ghost use Rattle.qz_circ.specs.Search.{PlanNumbers};
ghost use Rattle.qz_circ.specs.ValidPrograms.{Valid};
ghost use Rattle.qz_io.specs.Counts.{Rose};
ghost use Rattle.qz_io.specs.Told.{TakesBytes};
ghost use Rattle.qz_top.specs.Answer.{Answer, Given, shelf_shown, shown, IsCarriedOut};
ghost use Rattle.qz_top.specs.FaultTexts.{status_text};
ghost use Rattle.qz_top.specs.Files.{TellsFile, TakesFile};
ghost use Rattle.qz_top.specs.Generate.{AreMade, WritesCompleteRules};
ghost use Rattle.qz_top.specs.Inputs.{most_input_bytes};
ghost use Rattle.qz_top.specs.Optimised.{IsFound, WritesOptimised};
ghost use Rattle.qz_top.specs.Reports.{IsReportText, end_text};
ghost use Rattle.qz_top.specs.Run.{status_of_words, NamedFile, file_of, file_asked, CommandAnswers, WordsAnswer, CommandNeedsProgram, NeedsProgram, IsOfProgram, AsksOfProgram, IsForErr, Tells};
ghost use Rattle.qz_top.specs.Status.{IsBeforeInput, WritesNothing};
ghost use Rattle.qz_top.specs.Words.{IsLawfulCommand, IsWithinWords, command_of};

use crate::check::check;
use crate::generate::{rules_of, written};
use crate::optimise::{found, optimise};
use crate::status::Status;
use crate::telling::{tell, tell_end};
use crate::tidy::tidy;
use crate::trial::trial;
use crate::words::{Command, WordFault, read_words, word};
use qz_circ::{Bounds, Inst, Memory, Program, Report};
use qz_io::{Shelf, Sink, Source};
use qz_rulefile::Rules;
use qz_search::Plan;
use std::alloc::Global;

// The status of words that are refused.
fn status_of_words(fault: WordFault) -> Status
    ensures { result ≡ status_of_words fault }
{
    match fault {
        WordFault::Usage => Status::Usage,
        WordFault::Limit(which) => Status::Limit(which),
    }
}

// Carries out a command, which may name some of the words, with what makes the rules of some bounds and their report, and what finds the
// circuit of a search. Answers the report where it is to be told.
pub(crate) fn carry_out<
    I: Source,
    F: Shelf,
    O: Sink,
    G: FnOnce(Bounds, u64) -> Result<(Vec<u8>, Report), Memory>,
    S: FnOnce(&Rules, Plan, &Program) -> Result<Vec<Inst>, Memory>,
>(
    alloc: Global,
    words: &[String],
    command: Command,
    input: &mut I,
    shelf: &mut F,
    out: &mut O,
    make: G,
    find: S,
) -> (Status, Option<Report>)
    requires makes { (b : Limits) (workers seed : ℕ) (report : Bool) → command ≡ Command.Generate b workers seed report → G.pre make b seed × ((made : _) → G.post make b seed made → IfOk made (λ m. AreMade b seed m.0.items m.1)) }
    requires ready { (k : ℕ) (plan : PlanNumbers) (workers : ℕ) → command ≡ Command.Optimise k plan workers → (r p : _) → Valid p.now → S.pre find r plan p }
    requires finds { (k : ℕ) (plan : PlanNumbers) (workers : ℕ) → command ≡ Command.Optimise k plan workers → (r p circuit : _) → S.post find r plan p circuit → IfOk circuit (λ c. IsFound r.now plan p.now c.items) }
    requires within { IsWithinWords (length words.now) command }
    requires lawful { IsLawfulCommand command }
    ensures carried_out { IsCarriedOut (CommandAnswers (map string_bytes words.now) command) result.0
        (shown I.Source F.Shelf O.Sink input.old input.new shelf.old shelf.new out.old out.new) }
    ensures rules { (b : Limits) (workers seed : ℕ) (report : Bool) → command ≡ Command.Generate b workers seed report → result.0 ≡ Status.Ok → WritesCompleteRules b (O.written out.old) (O.written out.new) }
    ensures optimised { (k : ℕ) (plan : PlanNumbers) (workers : ℕ) → command ≡ Command.Optimise k plan workers → result.0 ≡ Status.Ok → WritesOptimised (slice_index_or (map string_bytes words.now) k []) plan
        (shown I.Source F.Shelf O.Sink input.old input.new shelf.old shelf.new out.old out.new) }
    ensures read_fault { result.0 ≡ Status.ReadFault → CommandNeedsProgram (map string_bytes words.now) command (shelf_shown F.Shelf shelf.old shelf.new) }
    ensures at_end { IsOfProgram command → result.0 ≡ Status.Ok → IsAtEnd (I.left input.new) }
    ensures taken { TakesBytes (I.left input.old) (I.left input.new) (λ n. n ≤ most_input_bytes + 1) }
    ensures within { result.0 ≢ Status.Limit InputBytes → TakesBytes (I.left input.old) (I.left input.new) (λ n. n ≤ most_input_bytes) }
    ensures unread { (input.new ≡ input.old) ⊎ CommandNeedsProgram (map string_bytes words.now) command (shelf_shown F.Shelf shelf.old shelf.new) }
    ensures before { IsBeforeInput result.0 → input.new ≡ input.old }
    ensures untouched { WritesNothing result.0 → out.new ≡ out.old }
    ensures shelf_fault { result.0 ≡ Status.ShelfFault → file_of command ≢ None }
    ensures unopened { file_of command ≡ None → shelf.new ≡ shelf.old }
    ensures file_taken { (named : NamedFile) (file : List ℕ) → file_of command ≡ Some named → TellsFile (F.files shelf.old) (slice_index_or (map string_bytes words.now) named.word []) file
        → TakesFile named.limit file (F.rest shelf.old) (F.rest shelf.new) result.0 }
    ensures file_at_end { file_of command ≢ None → result.0 ≡ Status.Ok → IsAtEnd (F.rest shelf.new) }
    ensures files { F.files shelf.new ≡ F.files shelf.old }
    ensures input_faults { I.faults input.old ≤ I.faults input.new }
    ensures shelf_faults { F.faults shelf.old ≤ F.faults shelf.new }
    ensures faults { O.faults out.old ≤ O.faults out.new }
    ensures wants { O.wants out.old ≤ O.wants out.new }
    ensures told { IsForErr command result.0 (end_text result.0 result.1) }
{
    match command {
        Command::Generate {
            bounds,
            seed,
            report,
            ..
        } => {
            let made = make(bounds, seed);
            written(made, report, out)
        }
        Command::Tidy => (tidy(alloc, input, out), None),
        Command::Optimise { rules, plan, .. } => {
            let status = optimise(alloc, word(words, rules), plan, input, shelf, out, find);
            (status, None)
        }
        Command::Trial {
            seed,
            qubits,
            gates,
        } => (trial(alloc, seed, qubits, gates, out), None),
        Command::Check { other } => {
            let name = word(words, other);
            let status = check(alloc, name, input, shelf, out);
            (status, None)
        }
    }
}

/// Carries out the command that the words ask for, with one worker, and then tells the error stream the text of the report, where one
/// is asked for and the command is done, or else that of the status. Nothing that happens on the error stream changes the status.
pub fn run_solo<I: Source, F: Shelf, O: Sink, E: Sink>(
    alloc: Global,
    words: &[String],
    input: &mut I,
    shelf: &mut F,
    out: &mut O,
    err: &mut E,
) -> Status
    ensures carried_out { IsCarriedOut (WordsAnswer (map string_bytes words.now)) result
        (shown I.Source F.Shelf O.Sink input.old input.new shelf.old shelf.new out.old out.new) }

    // What `generate` writes is the class list of its limits, which joins any two equivalent circuits within them, whatever the
    // workers and the seed are.
    ensures rules { (b : Limits) (workers seed : ℕ) (report : Bool) → command_of (map string_bytes words.now) ≡ Ok (Command.Generate b workers seed report) → result ≡ Status.Ok
        → WritesCompleteRules b (O.written out.old) (O.written out.new) }

    // What `optimise` writes is read as the input's program with the circuit of the search as its gates, which is equivalent to
    // the program's own, costs no more by the words' weights, and has no more gates where they give none. The plan of the search is that of the words, whatever the workers are.
    ensures optimised { (k : ℕ) (plan : PlanNumbers) (workers : ℕ) → command_of (map string_bytes words.now) ≡ Ok (Command.Optimise k plan workers) → result ≡ Status.Ok
        → WritesOptimised (slice_index_or (map string_bytes words.now) k []) plan
        (shown I.Source F.Shelf O.Sink input.old input.new shelf.old shelf.new out.old out.new) }

    // Words are refused without memory, whatever the outside is. Nothing is written at a refusal, at a read fault or at a fault of the shelf.
    ensures words { (fault : WordFault) → command_of (map string_bytes words.now) ≡ Err fault → result ≡ status_of_words fault }
    ensures untouched { WritesNothing result → out.new ≡ out.old }

    // The input is as it was, unless the command needs a program and all before it is passed. It is read at most to one byte past
    // its limit, which is then told, and to its end where such a command is done.
    ensures unread { (input.new ≡ input.old) ⊎ NeedsProgram (map string_bytes words.now) (shelf_shown F.Shelf shelf.old shelf.new) }
    ensures before { IsBeforeInput result → input.new ≡ input.old }
    ensures taken { TakesBytes (I.left input.old) (I.left input.new) (λ n. n ≤ most_input_bytes + 1) }
    ensures within { result ≢ Status.Limit InputBytes → TakesBytes (I.left input.old) (I.left input.new) (λ n. n ≤ most_input_bytes) }
    ensures at_end { AsksOfProgram (map string_bytes words.now) → result ≡ Status.Ok → IsAtEnd (I.left input.new) }
    ensures read_fault { result ≡ Status.ReadFault → NeedsProgram (map string_bytes words.now) (shelf_shown F.Shelf shelf.old shelf.new) }

    // Only `optimise` and `check` open a file of the shelf, the one that the words name. No command changes the files.
    ensures unopened { file_asked (map string_bytes words.now) ≡ None → shelf.new ≡ shelf.old }
    ensures shelf_fault { result ≡ Status.ShelfFault → file_asked (map string_bytes words.now) ≢ None }
    ensures files { F.files shelf.new ≡ F.files shelf.old }

    // The file that a command opens is read at most to one byte past its limit, which is then told, and to its end where the
    // command is done. So a fault of the shelf comes at the opening or before that byte.
    ensures file_taken { (named : NamedFile) (file : List ℕ) → file_asked (map string_bytes words.now) ≡ Some named
        → TellsFile (F.files shelf.old) (slice_index_or (map string_bytes words.now) named.word []) file → TakesFile named.limit file (F.rest shelf.old) (F.rest shelf.new) result }
    ensures file_at_end { file_asked (map string_bytes words.now) ≢ None → result ≡ Status.Ok → IsAtEnd (F.rest shelf.new) }

    ensures input_faults { I.faults input.old ≤ I.faults input.new }
    ensures shelf_faults { F.faults shelf.old ≤ F.faults shelf.new }
    ensures faults { O.faults out.old ≤ O.faults out.new }
    ensures wants { O.wants out.old ≤ O.wants out.new }

    // The error stream gets the answer's text for it, or the text of the status where that is none of the answer's: the whole text
    // where neither of the stream's two counts rose, and else a prefix of it. Where the command is done, the answer's text is that of the
    // report, if one is asked for, and else none.
    ensures err_answer { (given : Given) (answer : Answer) → WordsAnswer (map string_bytes words.now) given answer → answer.status ≡ result
        → Tells answer.err (E.written err.old) (E.written err.new) (Rose (E.faults err.old) (E.faults err.new) ⊎ Rose (E.wants err.old) (E.wants err.new)) }
    ensures err_status { result ≢ Status.Ok
        → Tells (status_text result) (E.written err.old) (E.written err.new) (Rose (E.faults err.old) (E.faults err.new) ⊎ Rose (E.wants err.old) (E.wants err.new)) }
    ensures report { (b : Limits) (workers seed : ℕ) → command_of (map string_bytes words.now) ≡ Ok (Command.Generate b workers seed true) → result ≡ Status.Ok
        → (text : List ℕ) × IsReportText b seed text × Tells text (E.written err.old) (E.written err.new) (Rose (E.faults err.old) (E.faults err.new) ⊎ Rose (E.wants err.old) (E.wants err.new)) }
    ensures err_done { result ≡ Status.Ok → ((b : Limits) (workers seed : ℕ) → command_of (map string_bytes words.now) ≢ Ok (Command.Generate b workers seed true)) → err.new ≡ err.old }
    ensures err_faults { E.faults err.old ≤ E.faults err.new }
    ensures err_wants { E.wants err.old ≤ E.wants err.new }
{
    match read_words(words) {
        Ok(command) => {
            let make = |bounds: Bounds, seed: u64| rules_of(alloc, bounds, seed);
            let find = |rules: &Rules, plan: Plan, program: &Program|
                requires { Valid program.now }
                ensures { IfOk result (λ circuit. IsFound rules.now plan program.now circuit.items) }
            { found(alloc, rules, plan, program) };
            let (status, report) = carry_out(alloc, words, command, input, shelf, out, make, find);
            tell_end(status, report, err);
            status
        }
        Err(fault) => {
            let status = status_of_words(fault);
            tell(status, err);
            status
        }
    }
}
