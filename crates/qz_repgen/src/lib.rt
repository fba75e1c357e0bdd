//! Generation of the class list: the classes of equivalent circuits within some bounds.
#![tactic(auto)]

ghost use Rattle.std.specs.Prelude.{◌≡◌, ◌<◌, IfOk};
ghost use Rattle.qz_circ.specs.Classes.{IsClassList, HasEquivalentMembers};
ghost use Rattle.qz_circ.specs.Joined.{JoinsEquivalent};
ghost use Rattle.qz_repgen.specs.Reports.{IsReport};

mod candidate;
mod counts;
mod fingerprints;
mod finish;
pub mod laws;
mod listing;
mod rounds;
mod shards;

pub use candidate::candidates;
pub use fingerprints::Fingerprints;
pub use finish::finished;
use qz_circ::{Bounds, Classes, Memory, Report, Steps};
use qz_finger::Probe;
use rounds::all_rounds;
pub use rounds::{first_shards, next_kept};
use std::alloc::Global;
use std::marker::Brand;
use std::sync::ledger::{Blank, Ledger};

/// The class list, and the counts of its generation. The class list has for each representative in order the ranks of the kept
/// circuits that are equivalent to it, in order; lists of one circuit are left out. It joins any two equivalent circuits within the
/// bounds, and is the same for each seed; of the counts only that of fingerprints goes by the seed. It goes in rounds, by the number
/// of gates, and takes up only kept circuits: memory grows with their number.
pub fn generate_one(alloc: Global, b: Bounds, seed: u64) -> Result<(Classes, Report), Memory>
    ensures bounds { IfOk result (λ k. k.0.bounds ≡ b) }
    ensures classes { IfOk result (λ k. IsClassList b k.0.lists) }
    ensures equivalent { IfOk result (λ k. HasEquivalentMembers b k.0.lists) }
    ensures complete { IfOk result (λ k. JoinsEquivalent b k.0.lists) }
    ensures report { IfOk result (λ k. IsReport b seed k.1) }
{
    generate::<Brand>(alloc, b, seed, Blank::new(1))
}

// The same, with a count of the comparisons, which nothing reads.
fn generate<L: Ledger>(
    alloc: Global,
    b: Bounds,
    seed: u64,
    blank: Blank,
) -> Result<(Classes, Report), Memory>
    requires name { blank.name ≡ L.name }
    requires parts { blank.parts ≡ L.parts }
    requires shared { 0 < L.parts }
    ensures bounds { IfOk result (λ k. k.0.bounds ≡ b) }
    ensures classes { IfOk result (λ k. IsClassList b k.0.lists) }
    ensures equivalent { IfOk result (λ k. HasEquivalentMembers b k.0.lists) }
    ensures complete { IfOk result (λ k. JoinsEquivalent b k.0.lists) }
    ensures report { IfOk result (λ k. IsReport b seed k.1) }
{
    let mut steps = Steps::<L>::new(blank);
    let probe = Probe::new(seed, b.q());
    let mut shards = first_shards(alloc, b, &probe, &mut steps)?;
    let representatives = all_rounds(alloc, b, &probe, &mut shards, &mut steps)?;
    let made = finished(alloc, b, seed, representatives, &shards)?;
    Ok(made)
}
