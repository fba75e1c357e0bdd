//! Chains of steps that join equivalent circuits, by the class list of their bounds.
#![tactic(auto)]

ghost use Rattle.std.specs.Prelude.{◌≡◌, ◌<◌, ◌++◌, length, drop, reverse, IfOk};
ghost use Rattle.qz_circ.specs.Classes.{IsClassList};
ghost use Rattle.qz_circ.specs.Order.{all_circuits};
ghost use Rattle.qz_derive.specs.Answers.{IsAnswer, LeadsByClasses};

mod chain;
mod descent;
mod index;
pub mod laws;
mod ranks;

pub use chain::{Chain, Ranks};
use descent::descend;
use index::index_of;
use qz_circ::{Classes, Memory};
use std::alloc::Global;

// The way down from the first circuit, and back up the way down from the second one, whose lowest is the first one's.
fn joined(mut first: Vec<u64>, mut second: Vec<u64>) -> Result<Vec<u64>, Memory>
    requires { 0 < length second.items }
    ensures { IfOk result (λ ranks. ranks.items ≡ first.items ++ drop 1 (reverse second.items)) }
{
    second.reverse();
    if first.extend_from_slice(second.split_at(1).1).is_err() {
        return Err(Memory);
    }
    Ok(first)
}

/// The chain that joins the circuits with ranks a and c, by the class list k of its bounds; or that they aren't equivalent. Each
/// circuit is lowered, part by part, to the representative that is equivalent to it, which is the same for both.
pub fn derive(alloc: Global, k: &Classes, a: u64, c: u64) -> Result<Chain, Memory>
    requires classes { IsClassList k.now.bounds k.now.lists }
    requires first { a < length (all_circuits k.now.bounds) }
    requires second { c < length (all_circuits k.now.bounds) }
    ensures answer { IfOk result (IsAnswer k.now.bounds a c) }
    ensures leads { IfOk result (LeadsByClasses k.now.bounds k.now.lists a c) }
{
    let b = k.bounds();
    let firsts = index_of(alloc, k)?;
    let first = descend(alloc, &firsts, b, a)?;
    let second = descend(alloc, &firsts, b, c)?;
    if first.lowest != second.lowest {
        return Ok(Chain::Different);
    }
    let ranks = joined(first.ranks, second.ranks)?;
    Ok(Chain::Joined(Ranks::of(ranks)))
}
