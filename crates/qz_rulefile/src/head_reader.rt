//! Reading the first two lines of a file: its version and its bounds, lawful or not.
ghost use Rattle.std.specs.Prelude.{◌≡◌, ◌∷◌, [], IfOk, None, Some};
ghost use Rattle.qz_circ.specs.FirstFault.{Gives};
ghost use Rattle.qz_circ.specs.RuleFiles.{head_refusal, limits_of};
ghost use Rattle.qz_rulefile.specs.Forms.{StandsForTold};
ghost use Rattle.qz_rulefile.specs.Reading as reading;

use crate::parts::{number, word};
use qz_circ::{Bounds, LimitFault};

// What the first two lines tell: the numbers of the bounds, and the grain where it is told.
#[derive(Clone, Copy)]
pub(crate) struct Head {
    pub(crate) n: u64,
    pub(crate) q: u64,
    pub(crate) m: u64,
    pub(crate) grain: Option<u64>,
}

// The word of the first line.
#[tactic(auto, unfolding(crate::specs::Reading::head_word))]
fn head_word(bytes: &[u8]) -> Result<&[u8], usize>
    ensures { Gives (λ rest. (0, rest.now)) result (reading.one_of_at (reading.head_word ∷ []) bytes.now) }
{
    word(b"quartz-rules ", bytes)
}

// The sign of the version: 0 for version 1, and 1 for version 2.
fn version_sign(bytes: &[u8]) -> Result<(u64, &[u8]), usize>
    ensures { Gives (λ x. (x.0, x.1.now)) result (reading.one_of_at reading.version_signs bytes.now) }
{
    let Some((sign, rest)) = bytes.split_first() else {
        return Err(0);
    };
    if *sign == b'1' {
        return Ok((0, rest));
    }
    if *sign == b'2' {
        return Ok((1, rest));
    }
    Err(bytes.len())
}

// The word of the second line, and the end of the line before it.
#[tactic(auto, unfolding(crate::specs::Reading::bounds_word))]
fn bounds_word(bytes: &[u8]) -> Result<&[u8], usize>
    ensures { Gives (λ rest. (0, rest.now)) result (reading.one_of_at (reading.bounds_word ∷ []) bytes.now) }
{
    word(b"\nbounds ", bytes)
}

// What stands before the numbers of the second line: 0 for version 1, and 1 for version 2.
#[tactic(auto, unfolding(crate::specs::Reading::version_at))]
fn version(bytes: &[u8]) -> Result<(u64, &[u8]), usize>
    ensures { Gives (λ x. (x.0, x.1.now)) result (reading.version_at bytes.now) }
{
    let rest = head_word(bytes)?;
    let (version, rest) = version_sign(rest)?;
    let rest = bounds_word(rest)?;
    Ok((version, rest))
}

// The numbers behind those of gates and qubits. Version 2 tells a grain.
#[tactic(auto, unfolding(crate::specs::Reading::last_numbers_at))]
fn last_numbers(first: bool, n: u64, q: u64, bytes: &[u8]) -> Result<(Head, &[u8]), usize>
    ensures { Gives (λ x. (record { n = x.0.n; q = x.0.q; m = x.0.m; grain = x.0.grain }, x.1.now)) result (reading.last_numbers_at first n q bytes.now) }
{
    if first {
        let (m, rest) = number(b'\n', 0, bytes)?;
        let grain = None;
        return Ok((Head { n, q, m, grain }, rest));
    }
    let (m, rest) = number(b' ', 0, bytes)?;
    let (grain, rest) = number(b'\n', 0, rest)?;
    let grain = Some(grain);
    Ok((Head { n, q, m, grain }, rest))
}

// The first two lines.
#[tactic(auto, unfolding(crate::specs::Reading::head_at))]
pub(crate) fn read_head(bytes: &[u8]) -> Result<(Head, &[u8]), usize>
    ensures { Gives (λ x. (record { n = x.0.n; q = x.0.q; m = x.0.m; grain = x.0.grain }, x.1.now)) result (reading.head_at bytes.now) }
{
    let (version, rest) = version(bytes)?;
    let (n, rest) = number(b' ', 0, rest)?;
    let (q, rest) = number(b' ', 0, rest)?;
    let head = last_numbers(version == 0, n, q, rest)?;
    Ok(head)
}

// A grain that stands for the one that is told, or for none. Where a grain is told that version 2 doesn't allow, it is none at all.
fn grain_for(told: Option<u64>) -> u64
    ensures { StandsForTold told result }
{
    let Some(grain) = told else {
        return 4;
    };
    if grain == 8 {
        return grain;
    }
    if grain == 16 {
        return grain;
    }
    0
}

// The bounds that the first two lines tell, or why their numbers are refused.
pub(crate) fn bounds_of(head: Head) -> Result<Bounds, LimitFault>
    ensures accepted { IfOk result (λ b. (head_refusal (record { n = head.n; q = head.q; m = head.m; grain = head.grain }) ≡ None) × (b ≡ limits_of (record { n = head.n; q = head.q; m = head.m; grain = head.grain }))) }
    ensures refused { (fault : LimitFault) → result ≡ Err fault → head_refusal (record { n = head.n; q = head.q; m = head.m; grain = head.grain }) ≡ Some fault }
{
    Bounds::with_grain(head.n, head.q, head.m, grain_for(head.grain))
}
