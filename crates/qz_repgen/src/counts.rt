//! The counts of a generation.
ghost use Rattle.std.specs.Prelude.{◌≡◌, ◌≤◌, length, sum_by, All};
ghost use Rattle.qz_circ.specs.Bounds.{IsLawful};
ghost use Rattle.qz_circ.specs.Classes.{IsClassList};
ghost use Rattle.qz_repgen.specs.Journals.{IsKeptRank};
ghost use Rattle.qz_repgen.specs.Numbers.{IsNumberOf};
ghost use Rattle.qz_repgen.specs.Reports.{IsExtended, IsReport};
ghost use Rattle.qz_repgen.specs.Shards.{ShardsHold};
ghost use Rattle.qz_shard.specs.Shards.{different_prints};

use qz_circ::{Bounds, Classes, Report};
use qz_shard::Shard;

// How many circuits there are in all shards.
fn entries(shards: &[Shard]) -> u64
    requires number { length shards.now ≡ 16 }
    requires few { All (λ s. length s.journal ≤ 9000000) shards.now }
    ensures { result ≡ sum_by (λ s. length s.journal) shards.now }
{
    let mut all = 0;
    for shard in shards {
        all += shard.len();
    }
    all
}

// How many different fingerprints there are in each shard, added up.
fn prints(shards: &[Shard]) -> u64
    requires number { length shards.now ≡ 16 }
    requires few { All (λ s. length s.journal ≤ 9000000) shards.now }
    ensures { result ≡ sum_by different_prints shards.now }
{
    let mut all = 0;
    for shard in shards {
        all += shard.prints();
    }
    all
}

// How many circuits there are in all lists of a class list.
fn members(classes: &Classes) -> u64
    requires lawful { IsLawful classes.now.bounds }
    requires class_list { IsClassList classes.now.bounds classes.now.lists }
    ensures { result ≡ sum_by length classes.now.lists }
{
    let mut all = 0;
    for i in 0..classes.len() {
        all += classes.class(i).len() as u64;
    }
    all
}

// The report, from how many representatives have fewer gates than the bounds allow, the shards of all kept circuits, and the
// class list.
pub(crate) fn report_of(
    b: Bounds,
    seed: u64,
    representatives: u64,
    shards: &[Shard],
    classes: &Classes,
) -> Report
    requires representatives { IsNumberOf (IsExtended b) representatives }
    requires held { ShardsHold b seed (IsKeptRank b) shards.now }
    requires bounds { classes.now.bounds ≡ b }
    requires class_list { IsClassList b classes.now.lists }
    ensures { IsReport b seed result }
{
    Report {
        extended: representatives * b.gates(),
        kept: entries(shards),
        classes: classes.len(),
        members: members(classes),
        prints: prints(shards),
    }
}
