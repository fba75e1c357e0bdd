//! The end of a generation.
ghost use Rattle.std.specs.Prelude.{◌≡◌, IfOk};
ghost use Rattle.qz_circ.specs.Classes.{IsClassList, HasEquivalentMembers};
ghost use Rattle.qz_circ.specs.Joined.{JoinsEquivalent};
ghost use Rattle.qz_repgen.specs.Journals.{IsKeptRank};
ghost use Rattle.qz_repgen.specs.Numbers.{IsNumberOf};
ghost use Rattle.qz_repgen.specs.Reports.{IsExtended, IsReport};
ghost use Rattle.qz_repgen.specs.Shards.{ShardsHold};

use crate::counts::report_of;
use crate::listing::listed;
use qz_circ::{Bounds, Classes, Memory, Report};
use qz_shard::Shard;
use std::alloc::Global;

/// The class list, and the counts of its generation, from the shards of all kept circuits and from how many representatives have
/// fewer gates than the bounds allow.
pub fn finished(
    alloc: Global,
    b: Bounds,
    seed: u64,
    representatives: u64,
    shards: &[Shard],
) -> Result<(Classes, Report), Memory>
    requires representatives { IsNumberOf (IsExtended b) representatives }
    requires held { ShardsHold b seed (IsKeptRank b) shards.now }
    ensures bounds { IfOk result (λ k. k.0.bounds ≡ b) }
    ensures classes { IfOk result (λ k. IsClassList b k.0.lists) }
    ensures equivalent { IfOk result (λ k. HasEquivalentMembers b k.0.lists) }
    ensures complete { IfOk result (λ k. JoinsEquivalent b k.0.lists) }
    ensures report { IfOk result (λ k. IsReport b seed k.1) }
{
    let classes = listed(alloc, b, shards)?;
    let report = report_of(b, seed, representatives, shards, &classes);
    Ok((classes, report))
}
