//! The command that writes the canonical text of a program.
ghost use Rattle.std.specs.Prelude.{◌≡◌, ◌≢◌, ◌≤◌, ◌+◌, Err, MatchResult, OnOk};
ghost use Rattle.std.specs.Io.KnownBytes.{IsAtEnd};
ghost use Rattle.qz_circ.specs.declared.fault.Which.TheVariants.{InputBytes};
ghost use Rattle.qz_circ.specs.ProgramText.{program_text};
ghost use Rattle.qz_io.specs.Told.{TakesBytes};
ghost use Rattle.qz_io.specs.Transfers.{source_shown};
ghost use Rattle.qz_top.specs.Answer.{Storage, IsCalm, sink_shown, IsCarriedOut};
ghost use Rattle.qz_top.specs.Inputs.{most_input_bytes};
ghost use Rattle.qz_top.specs.Making.{IsMadeOfInput, EndsByInput};
ghost use Rattle.qz_top.specs.Status.{IsBeforeInput, WritesNothing};
ghost use Rattle.qz_top.specs.Tidy.{Tidies};

use crate::inputs::program_in;
use crate::status::Status;
use crate::writing::{text_of, write_text};
use qz_io::{Sink, Source};
use std::alloc::Global;

// Reads the input, and gives the text for the output; or the status that the command ends with before it writes.
fn tidied_input<I: Source>(alloc: Global, input: &mut I) -> Result<Vec<u8>, Status>
    ensures made { let seen = source_shown I.Source input.old input.new in
        MatchResult result (λ text. IsMadeOfInput (λ program. text.items ≡ program_text program) seen) (λ status. EndsByInput status seen) }
    ensures at_end { OnOk result (IsAtEnd (I.left input.new)) }
    ensures taken { TakesBytes (I.left input.old) (I.left input.new) (λ n. n ≤ most_input_bytes + 1) }
    ensures within { result ≢ Err (Status.Limit InputBytes) → TakesBytes (I.left input.old) (I.left input.new) (λ n. n ≤ most_input_bytes) }
    ensures faults { I.faults input.old ≤ I.faults input.new }
{
    match program_in(alloc, input) {
        Ok(program) => text_of(alloc, &program),
        Err(status) => Err(status),
    }
}

// Reads the input to its end, and writes the canonical text of its program to the output.
pub(crate) fn tidy<I: Source, O: Sink>(alloc: Global, input: &mut I, out: &mut O) -> Status
    // Whatever the shelf is, as long as it has no fault.
    ensures carried_out { (shelf : Storage) → IsCalm shelf → IsCarriedOut Tidies result
        (record { input = source_shown I.Source input.old input.new; shelf = shelf; out = sink_shown O.Sink out.old out.new }) }
    ensures at_end { result ≡ Status.Ok → IsAtEnd (I.left input.new) }
    ensures taken { TakesBytes (I.left input.old) (I.left input.new) (λ n. n ≤ most_input_bytes + 1) }
    ensures within { result ≢ Status.Limit InputBytes → TakesBytes (I.left input.old) (I.left input.new) (λ n. n ≤ most_input_bytes) }
    ensures untouched { WritesNothing result → out.new ≡ out.old }
    ensures late { IsBeforeInput result → ⊥ }
    ensures input_faults { I.faults input.old ≤ I.faults input.new }
    ensures faults { O.faults out.old ≤ O.faults out.new }
    ensures wants { O.wants out.old ≤ O.wants out.new }
{
    match tidied_input(alloc, input) {
        Ok(text) => write_text(&text, out),
        Err(status) => status,
    }
}
