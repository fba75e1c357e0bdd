//! Reading rule files.
ghost use Rattle.std.specs.Prelude.{◌≢◌};
ghost use Rattle.qz_circ.specs.Bounds.{IsLawful};
ghost use Rattle.qz_circ.specs.RuleFiles.{Reads};
ghost use Rattle.qz_rulefile.specs.Flat.{Tells, kept_at};
ghost use Rattle.qz_rulefile.specs.Forms.{ReadsForm, TellsClasses};

use crate::class_reader::{Kept, classes, classes_count, end};
use crate::faults::ReadError;
use crate::gate_texts::GateTexts;
use crate::head_reader::{bounds_of, read_head};
use crate::rank_lists::RankLists;
use crate::rules::Rules;
use crate::soundness::first_unsound;
use qz_circ::{Bounds, RuleFault};
use std::alloc::Global;

// The classes and the end of a file, behind its first two lines.
fn kept_behind(alloc: Global, b: Bounds, bytes: &[u8]) -> Result<(Kept, &[u8]), ReadError>
    ensures { Tells (λ x. (record { members = x.0.0.items; ends = x.0.1.items }, x.1.now)) result (kept_at b bytes.now) }
{
    let Ok(texts) = GateTexts::new(alloc, b) else {
        return Err(ReadError::Memory);
    };
    let (count, rest) = match classes_count(bytes) {
        Ok(count) => count,
        Err(n) => return Err(ReadError::Left(n)),
    };
    let (kept, rest) = match classes(alloc, &texts, count, rest) {
        Ok(kept) => kept,
        Err(fault) => return Err(fault),
    };
    match end(rest) {
        Ok(rest) => Ok((kept, rest)),
        Err(n) => Err(ReadError::Left(n)),
    }
}

// The same to the end of the bytes.
fn lists_behind(alloc: Global, b: Bounds, bytes: &[u8]) -> Result<RankLists, ReadError>
    requires { IsLawful b }
    ensures { TellsClasses b bytes.now result }
{
    let ((members, ends), rest) = match kept_behind(alloc, b, bytes) {
        Ok(kept) => kept,
        Err(fault) => return Err(fault),
    };
    if !rest.is_empty() {
        return Err(ReadError::Left(rest.len()));
    }
    Ok(RankLists::new(alloc, b, members, ends))
}

// The classes of a file, whether they are sound or not.
fn read_lists(alloc: Global, bytes: &[u8]) -> Result<RankLists, RuleFault>
    ensures { ReadsForm bytes.now result }
{
    let (head, rest) = match read_head(bytes) {
        Ok(head) => head,
        Err(n) => return Err(RuleFault::Syntax {
            place: (bytes.len() - n) as u64,
        }),
    };
    let b = match bounds_of(head) {
        Ok(b) => b,
        Err(fault) => return Err(RuleFault::Limit(fault)),
    };
    match lists_behind(alloc, b, rest) {
        Ok(lists) => Ok(lists),
        Err(ReadError::Memory) => Err(RuleFault::Memory),
        Err(ReadError::Left(n)) => Err(RuleFault::Syntax {
            place: (bytes.len() - n) as u64,
        }),
    }
}

/// The rules that a file says, or its first fault.
pub fn read(alloc: Global, bytes: &[u8]) -> Result<Rules, RuleFault>
    ensures { result ≢ Err RuleFault.Memory → Reads bytes.now result }
{
    let lists = match read_lists(alloc, bytes) {
        Ok(lists) => lists,
        Err(fault) => return Err(fault),
    };
    match first_unsound(alloc, &lists) {
        Ok(None) => Ok(Rules::of_lists(lists)),
        Ok(Some((class, member))) => Err(RuleFault::Unsound { class, member }),
        Err(_) => Err(RuleFault::Memory),
    }
}
