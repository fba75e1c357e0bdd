//! The command that generates the rules of some bounds: what is made, by one worker or by several, and how it is written.
ghost use Rattle.std.specs.Prelude.{◌≡◌, ◌≢◌, ℕ, ◌≤◌, IsTrue, None, IfOk, IfSome};
ghost use Rattle.qz_circ.specs.Circuit.{Limits};
ghost use Rattle.qz_io.specs.Transfers.{Input};
ghost use Rattle.qz_top.specs.Answer.{Storage, IsCalm, sink_shown, IsCarriedOut};
ghost use Rattle.qz_top.specs.Generate.{Generates, AreMade, WritesCompleteRules};
ghost use Rattle.qz_top.specs.Reports.{IsReportWhere, end_text};
ghost use Rattle.qz_top.specs.Status.{WritesNothing};
ghost use Rattle.qz_top.specs.Words.{AreWorkers};

use crate::status::Status;
use crate::writing::write_text;
use qz_circ::{Bounds, Memory, Report};
use qz_crew::Turnstile;
use qz_io::Sink;
use qz_repgen::generate_one;
use qz_rulefile::print;
use std::alloc::Global;
use std::sync::Wait;
use std::thread::Threads;

// The text of the rule file of the class list, which is the same for each seed, and the report.
pub(crate) fn rules_of(alloc: Global, b: Bounds, seed: u64) -> Result<(Vec<u8>, Report), Memory>
    ensures { IfOk result (λ made. AreMade b seed made.0.items made.1) }
{
    let (classes, report) = generate_one(alloc, b, seed)?;
    let text = print(alloc, &classes)?;
    Ok((text, report))
}

// The same by so many workers.
pub(crate) fn rules_by<R: Threads + Wait + Sync, T: Turnstile>(
    rt: &R,
    alloc: Global,
    b: Bounds,
    workers: u64,
    seed: u64,
    stile: &T,
) -> Result<(Vec<u8>, Report), Memory>
    requires { AreWorkers workers }
    ensures { IfOk result (λ made. AreMade b seed made.0.items made.1) }
{
    let (classes, report) = qz_crew::generate(rt, alloc, b, workers, seed, stile)?;
    let text = print(alloc, &classes)?;
    Ok((text, report))
}

// The report, where it is wanted and the command is done.
fn report_to_tell(status: Status, wanted: bool, report: Report) -> Option<Report>
    ensures own { IfSome result (λ r. r ≡ report) }
    ensures done { IfSome result (λ r. status ≡ Status.Ok) }
    ensures wanted { IfSome result (λ r. IsTrue wanted) }
    ensures none { result ≡ None → status ≡ Status.Ok → IsTrue wanted → ⊥ }
{
    match status {
        Status::Ok if wanted => Some(report),
        _ => None,
    }
}

// Writes the text that was made to the output, unless memory ran out before. Answers the report where it is wanted and all is done.
pub(crate) fn written<O: Sink>(
    made: Result<(Vec<u8>, Report), Memory>,
    report: bool,
    out: &mut O,
) -> (Status, Option<Report>)
    // Whatever the limits and the seed are of which this was made, and the input and the shelf, as long as they have no fault.
    ensures carried_out { (b : Limits) (seed : ℕ) (input : Input) (shelf : Storage) → IfOk made (λ m. AreMade b seed m.0.items m.1) → input.faults_after ≡ input.faults_before → IsCalm shelf →
        IsCarriedOut (λ given. Generates b seed report) result.0 (record { input = input; shelf = shelf; out = sink_shown O.Sink out.old out.new }) }
    ensures begun { WritesNothing result.0 → ⊥ }
    ensures rules { (b : Limits) (seed : ℕ) → IfOk made (λ m. AreMade b seed m.0.items m.1) → result.0 ≡ Status.Ok → WritesCompleteRules b (O.written out.old) (O.written out.new) }
    ensures report { (b : Limits) (seed : ℕ) → IfOk made (λ m. AreMade b seed m.0.items m.1) → result.0 ≡ Status.Ok → IsReportWhere b seed report (end_text result.0 result.1) }
    ensures no_report { result.0 ≢ Status.Ok → result.1 ≡ None }
    ensures faults { O.faults out.old ≤ O.faults out.new }
    ensures wants { O.wants out.old ≤ O.wants out.new }
{
    let Ok((text, counts)) = made else {
        return (Status::Memory, None);
    };
    let status = write_text(&text, out);
    (status, report_to_tell(status, report, counts))
}
