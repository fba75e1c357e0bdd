//! The class list, from the classes of all shards.
ghost use Rattle.std.specs.Prelude.{◌≡◌, ℕ, List, length, All, IfOk, OnOk};
ghost use Rattle.std.specs.List.{AllZip};
ghost use Rattle.qz_circ.specs.ClassLists.{AreRanks};
ghost use Rattle.qz_repgen.specs.Journals.{AreTogether};
ghost use Rattle.qz_repgen.specs.Listing.{AddsPlaces, ListsPlaces};
ghost use Rattle.qz_repgen.specs.Shards.{journals_of};
ghost use Rattle.qz_shard.specs.Journals.{AreClassesOf};

use qz_circ::{Bounds, Classes, Memory};
use qz_shard::Shard;
use std::alloc::Global;

// Where a class stands: its first member, the number of its shard, and its number there.
#[derive(Clone, Copy)]
struct Place {
    first: u64,
    shard: usize,
    class: u64,
}

// Adds the places of the classes of several members of the shard with this number.
fn add_places(places: &mut Vec<Place>, number: usize, shard: &Shard) -> Result<(), Memory>
    ensures { OnOk result (AddsPlaces shard.now.bounds number shard.now.journal places.old.items places.new.items) }
{
    for i in 0..shard.classes() {
        let class = shard.class(i);
        if class.len() > 1 {
            let place = Place {
                first: class[0],
                shard: number,
                class: i,
            };
            if places.push(place).is_err() {
                return Err(Memory);
            }
        }
    }
    Ok(())
}

// The places of all classes of several members, in the order of these classes' first members.
fn places(alloc: Global, b: Bounds, shards: &[Shard]) -> Result<Vec<Place>, Memory>
    requires { All (λ s. s.bounds ≡ b) shards.now }
    ensures { IfOk result (λ places. ListsPlaces b (journals_of shards.now) places.items) }
{
    let mut places = Vec::new(alloc);
    for (number, shard) in shards.iter().enumerate() {
        add_places(&mut places, number, shard)?;
    }
    places.sort_unstable_by_key(|place: &Place| place.first);
    Ok(places)
}

// The classes of several members, in the order of their first members.
pub(crate) fn listed(alloc: Global, b: Bounds, shards: &[Shard]) -> Result<Classes, Memory>
    requires number { length shards.now ≡ 16 }
    requires bounds { All (λ s. s.bounds ≡ b) shards.now }
    requires ranks { All (λ s. AreRanks b s.journal) shards.now }
    ensures bounds { IfOk result (λ k. k.bounds ≡ b) }
    ensures together { IfOk result (λ k. (all : List (List (List ℕ))) × AllZip (AreClassesOf b) (journals_of shards.now) all × AreTogether all k.lists) }
{
    let places = places(alloc, b, shards)?;
    let mut classes = Classes::empty(alloc, b);
    for place in &places {
        classes.push(shards[place.shard].class(place.class))?;
    }
    Ok(classes)
}
