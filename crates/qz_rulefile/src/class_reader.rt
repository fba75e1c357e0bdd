//! Reading classes into one list of ranks.
ghost use Rattle.std.specs.Prelude.{◌∷◌, [], ◌<◌};
ghost use Rattle.qz_circ.specs.FirstFault.{Gives};
ghost use Rattle.qz_rulefile.specs.Flat.{Tells, folded_at, one_more, class_onto, with_class};
ghost use Rattle.qz_rulefile.specs.Reading as reading;

use crate::faults::ReadError;
use crate::gate_texts::GateTexts;
use crate::parts::{number, word};
use std::alloc::Global;

// The ranks of all members, class by class, and where the classes end.
pub(crate) type Kept = (Vec<u32>, Vec<usize>);

// A word and a number no less than low, on a line of their own.
#[tactic(auto, unfolding(crate::specs::Reading::count_at))]
fn count<'a>(letters: &[u8], low: u64, bytes: &'a [u8]) -> Result<(u64, &'a [u8]), usize>
    ensures { Gives (λ x. (x.0, x.1.now)) result (reading.count_at letters.now low bytes.now) }
{
    let rest = word(letters, bytes)?;
    let (n, rest) = number(b'\n', low, rest)?;
    Ok((n, rest))
}

// The line with the number of members of a class.
#[tactic(auto, unfolding(crate::specs::Reading::class_word))]
fn class_count(bytes: &[u8]) -> Result<(u64, &[u8]), usize>
    ensures { Gives (λ x. (x.0, x.1.now)) result (reading.count_at reading.class_word 2 bytes.now) }
{
    count(b"class ", 2, bytes)
}

// The line with the number of classes.
#[tactic(auto, unfolding(crate::specs::Reading::classes_word))]
pub(crate) fn classes_count(bytes: &[u8]) -> Result<(u64, &[u8]), usize>
    ensures { Gives (λ x. (x.0, x.1.now)) result (reading.count_at reading.classes_word 0 bytes.now) }
{
    count(b"classes ", 0, bytes)
}

// The last line.
#[tactic(auto, unfolding(crate::specs::Reading::end_word))]
pub(crate) fn end(bytes: &[u8]) -> Result<&[u8], usize>
    ensures { Gives (λ rest. (0, rest.now)) result (reading.one_of_at (reading.end_word ∷ []) bytes.now) }
{
    word(b"end\n", bytes)
}

// Appends the ranks of so many members.
fn members<'a>(
    texts: &GateTexts,
    ranks: &mut Vec<u32>,
    count: u64,
    bytes: &'a [u8],
) -> Result<&'a [u8], ReadError>
    ensures { Tells (λ rest. (ranks.new.items, rest.now)) result (folded_at one_more ranks.old.items (reading.member_at texts.now.bounds) count bytes.now) }
{
    let mut rest = bytes;
    for _ in 0..count {
        let (r, behind) = match texts.member(rest) {
            Ok(member) => member,
            Err(n) => return Err(ReadError::Left(n)),
        };
        if ranks.push(r as u32).is_err() {
            return Err(ReadError::Memory);
        }
        rest = behind;
    }
    Ok(rest)
}

// Appends the ranks of a class, and where it ends.
fn class<'a>(
    texts: &GateTexts,
    ranks: &mut Vec<u32>,
    ends: &mut Vec<usize>,
    bytes: &'a [u8],
) -> Result<&'a [u8], ReadError>
    ensures { Tells (λ rest. (record { members = ranks.new.items; ends = ends.new.items }, rest.now)) result (class_onto (record { members = ranks.old.items; ends = ends.old.items }) (reading.class_at texts.now.bounds bytes.now)) }
{
    let (count, rest) = match class_count(bytes) {
        Ok(count) => count,
        Err(n) => return Err(ReadError::Left(n)),
    };
    let rest = match members(texts, ranks, count, rest) {
        Ok(rest) => rest,
        Err(fault) => return Err(fault),
    };
    if ends.push(ranks.len()).is_err() {
        return Err(ReadError::Memory);
    }
    Ok(rest)
}

// The classes, so many: the ranks of all members, and where the classes end.
pub(crate) fn classes<'a>(
    alloc: Global,
    texts: &GateTexts,
    count: u64,
    bytes: &'a [u8],
) -> Result<(Kept, &'a [u8]), ReadError>
    ensures { Tells (λ x. (record { members = x.0.0.items; ends = x.0.1.items }, x.1.now)) result (folded_at with_class (record { members = []; ends = [] }) (reading.class_at texts.now.bounds) count bytes.now) }
{
    let mut ranks = Vec::new(alloc);
    let mut ends = Vec::new(alloc);
    let mut rest = bytes;
    for _ in 0..count {
        rest = match class(texts, &mut ranks, &mut ends, rest) {
            Ok(behind) => behind,
            Err(fault) => return Err(fault),
        };
    }
    Ok(((ranks, ends), rest))
}
