//! A command with as many workers as its words say.
ghost use Rattle.std.specs.Prelude.{◌≡◌, ◌≢◌, ℕ, Bool, true, ◌+◌, ◌<◌, ◌≤◌, ◌⊎◌, List, [], length, map, slice_index_or, string_bytes, Some, None, IfSome, IfOk, Ok, Err};
ghost use Rattle.std.specs.Io.KnownBytes.{IsAtEnd};
ghost use Rattle.qz_circ.specs.Circuit.{Limits};
ghost use Rattle.qz_circ.specs.declared.fault.Which.TheVariants.{InputBytes};
ghost use Rattle.qz_circ.specs.Search.{PlanNumbers};
ghost use Rattle.qz_circ.specs.ValidPrograms.{Valid};
ghost use Rattle.qz_io.specs.Counts.{Rose};
ghost use Rattle.qz_io.specs.Told.{TakesBytes};
ghost use Rattle.qz_top.specs.Answer.{Answer, Given, shelf_shown, shown, IsCarriedOut};
ghost use Rattle.qz_top.specs.FaultTexts.{status_text};
ghost use Rattle.qz_top.specs.Files.{TellsFile, TakesFile};
ghost use Rattle.qz_top.specs.Generate.{AreMade, WritesCompleteRules};
ghost use Rattle.qz_top.specs.Inputs.{most_input_bytes};
ghost use Rattle.qz_top.specs.Optimised.{IsFound, WritesOptimised};
ghost use Rattle.qz_top.specs.Reports.{IsReportText, end_text};
ghost use Rattle.qz_top.specs.Run.{status_of_words, NamedFile, file_asked, CommandAnswers, WordsAnswer, CommandNeedsProgram, NeedsProgram, IsOfProgram, AsksOfProgram, IsForErr, Tells};
ghost use Rattle.qz_top.specs.Status.{IsBeforeInput, WritesNothing};
ghost use Rattle.qz_top.specs.Words.{AreWorkers, IsLawfulCommand, IsWithinWords, workers_for, command_of};

use crate::generate::rules_by;
use crate::optimise::found_by;
use crate::solo::{carry_out, run_solo};
use crate::status::Status;
use crate::telling::tell_end;
use crate::words::{Command, WordFault, read_words};
use qz_circ::{Bounds, Program};
use qz_crew::Turnstile;
use qz_io::{Shelf, Sink, Source};
use qz_rulefile::Rules;
use qz_search::Plan;
use std::alloc::Global;
use std::sync::Wait;
use std::thread::Threads;

// How many workers carry out a command.
fn workers_for(command: &Command) -> u64
    ensures { result ≡ workers_for command.now }
{
    match command {
        Command::Generate { workers, .. } => *workers,
        Command::Optimise { workers, .. } => *workers,
        Command::Tidy | Command::Trial { .. } | Command::Check { .. } => 1,
    }
}

// The command that the words ask for, where it is carried out by several workers.
fn command_of_several(words: &[String]) -> Option<Command>
    ensures command { IfSome result (λ command. Ok command ≡ command_of (map string_bytes words.now)) }
    ensures several { IfSome result (λ command. 1 < workers_for command) }
    ensures lawful { IfSome result IsLawfulCommand }
    ensures within { IfSome result (IsWithinWords (length words.now)) }
    ensures none { (command : Command) → result ≡ None → command_of (map string_bytes words.now) ≡ Ok command → workers_for command ≤ 1 }
{
    match read_words(words) {
        Ok(command) => {
            if workers_for(&command) > 1 {
                return Some(command);
            }
            None
        }
        Err(_) => None,
    }
}

/// Carries out the command that the words ask for, with as many workers as they say, and then tells the error stream as `run_solo` does.
/// What it answers and writes is the same for every number of workers and every turnstile, and however the steps of the workers fall;
/// it waits for its workers, which work one after another where no thread can be made. Several workers share a generation, or the rounds of a
/// search, and tell the turnstile their moments. All else is done as `run_solo` does it.
pub fn run<I: Source, F: Shelf, O: Sink, E: Sink, T: Turnstile, R: Threads + Wait + Sync>(
    rt: &R,
    alloc: Global,
    words: &[String],
    input: &mut I,
    shelf: &mut F,
    out: &mut O,
    err: &mut E,
    stile: &T,
) -> Status
    ensures carried_out { IsCarriedOut (WordsAnswer (map string_bytes words.now)) result
        (shown I.Source F.Shelf O.Sink input.old input.new shelf.old shelf.new out.old out.new) }

    // What `generate` writes is the class list of its limits, which joins any two equivalent circuits within them, whatever the
    // workers and the seed are.
    ensures rules { (b : Limits) (workers seed : ℕ) (report : Bool) → command_of (map string_bytes words.now) ≡ Ok (Command.Generate b workers seed report) → result ≡ Status.Ok
        → WritesCompleteRules b (O.written out.old) (O.written out.new) }

    // What `optimise` writes is read as the input's program with the circuit of the search as its gates, which is equivalent to
    // the program's own, costs no more by the words' weights, and has no more gates where they give none. The plan of the search is that of the words, whatever the workers are.
    ensures optimised { (k : ℕ) (plan : PlanNumbers) (workers : ℕ) → command_of (map string_bytes words.now) ≡ Ok (Command.Optimise k plan workers) → result ≡ Status.Ok
        → WritesOptimised (slice_index_or (map string_bytes words.now) k []) plan
        (shown I.Source F.Shelf O.Sink input.old input.new shelf.old shelf.new out.old out.new) }

    // Words are refused without memory, whatever the outside is. Nothing is written at a refusal, at a read fault or at a fault of the shelf.
    ensures words { (fault : WordFault) → command_of (map string_bytes words.now) ≡ Err fault → result ≡ status_of_words fault }
    ensures untouched { WritesNothing result → out.new ≡ out.old }

    // The input is as it was, unless the command needs a program and all before it is passed. It is read at most to one byte past
    // its limit, which is then told, and to its end where such a command is done.
    ensures unread { (input.new ≡ input.old) ⊎ NeedsProgram (map string_bytes words.now) (shelf_shown F.Shelf shelf.old shelf.new) }
    ensures before { IsBeforeInput result → input.new ≡ input.old }
    ensures taken { TakesBytes (I.left input.old) (I.left input.new) (λ n. n ≤ most_input_bytes + 1) }
    ensures within { result ≢ Status.Limit InputBytes → TakesBytes (I.left input.old) (I.left input.new) (λ n. n ≤ most_input_bytes) }
    ensures at_end { AsksOfProgram (map string_bytes words.now) → result ≡ Status.Ok → IsAtEnd (I.left input.new) }
    ensures read_fault { result ≡ Status.ReadFault → NeedsProgram (map string_bytes words.now) (shelf_shown F.Shelf shelf.old shelf.new) }

    // Only `optimise` and `check` open a file of the shelf, the one that the words name. No command changes the files.
    ensures unopened { file_asked (map string_bytes words.now) ≡ None → shelf.new ≡ shelf.old }
    ensures shelf_fault { result ≡ Status.ShelfFault → file_asked (map string_bytes words.now) ≢ None }
    ensures files { F.files shelf.new ≡ F.files shelf.old }

    // The file that a command opens is read at most to one byte past its limit, which is then told, and to its end where the
    // command is done. So a fault of the shelf comes at the opening or before that byte.
    ensures file_taken { (named : NamedFile) (file : List ℕ) → file_asked (map string_bytes words.now) ≡ Some named
        → TellsFile (F.files shelf.old) (slice_index_or (map string_bytes words.now) named.word []) file → TakesFile named.limit file (F.rest shelf.old) (F.rest shelf.new) result }
    ensures file_at_end { file_asked (map string_bytes words.now) ≢ None → result ≡ Status.Ok → IsAtEnd (F.rest shelf.new) }

    ensures input_faults { I.faults input.old ≤ I.faults input.new }
    ensures shelf_faults { F.faults shelf.old ≤ F.faults shelf.new }
    ensures faults { O.faults out.old ≤ O.faults out.new }
    ensures wants { O.wants out.old ≤ O.wants out.new }

    // The error stream gets the answer's text for it, or the text of the status where that is none of the answer's: the whole text
    // where neither of the stream's two counts rose, and else a prefix of it. Where the command is done, the answer's text is that of the
    // report, if one is asked for, and else none.
    ensures err_answer { (given : Given) (answer : Answer) → WordsAnswer (map string_bytes words.now) given answer → answer.status ≡ result
        → Tells answer.err (E.written err.old) (E.written err.new) (Rose (E.faults err.old) (E.faults err.new) ⊎ Rose (E.wants err.old) (E.wants err.new)) }
    ensures err_status { result ≢ Status.Ok
        → Tells (status_text result) (E.written err.old) (E.written err.new) (Rose (E.faults err.old) (E.faults err.new) ⊎ Rose (E.wants err.old) (E.wants err.new)) }
    ensures report { (b : Limits) (workers seed : ℕ) → command_of (map string_bytes words.now) ≡ Ok (Command.Generate b workers seed true) → result ≡ Status.Ok
        → (text : List ℕ) × IsReportText b seed text × Tells text (E.written err.old) (E.written err.new) (Rose (E.faults err.old) (E.faults err.new) ⊎ Rose (E.wants err.old) (E.wants err.new)) }
    ensures err_done { result ≡ Status.Ok → ((b : Limits) (workers seed : ℕ) → command_of (map string_bytes words.now) ≢ Ok (Command.Generate b workers seed true)) → err.new ≡ err.old }
    ensures err_faults { E.faults err.old ≤ E.faults err.new }
    ensures err_wants { E.wants err.old ≤ E.wants err.new }
{
    match command_of_several(words) {
        Some(command) => {
            let workers = workers_for(&command);
            let make = |bounds: Bounds, seed: u64|
                requires { AreWorkers workers }
                ensures { IfOk result (λ made. AreMade bounds seed made.0.items made.1) }
            { rules_by(rt, alloc, bounds, workers, seed, stile) };
            let find = |rules: &Rules, plan: Plan, program: &Program|
                requires { Valid program.now × AreWorkers workers }
                ensures { IfOk result (λ circuit. IsFound rules.now plan program.now circuit.items) }
            { found_by(rt, alloc, rules, plan, program, workers, stile) };
            let (status, report) = carry_out(alloc, words, command, input, shelf, out, make, find);
            tell_end(status, report, err);
            status
        }
        None => run_solo(alloc, words, input, shelf, out, err),
    }
}
