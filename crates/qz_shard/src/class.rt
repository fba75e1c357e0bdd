//! Classes of equivalent circuits.
ghost use Rattle.std.specs.Prelude.{◌≡◌, ◌<◌, ◌≤◌, ℕ, length, slice_index, Contains, OnOk, OnErr};
ghost use Rattle.std.specs.List.Sorted.{IsStrictlyIncreasing};
ghost use Rattle.qz_shard.specs.Journals.{AddsMember};

use qz_circ::Memory;
use smallvec::SmallVec;

// A class: the fingerprint of its circuits, the number of the last class before it with the same one, and the ranks of
// its circuits, rising. Most classes have few members, which then need no memory of their own.
#[derive(Drop)]
pub(crate) struct Class {
    pub(crate) print: u64,
    pub(crate) before: Option<usize>,
    pub(crate) members: SmallVec<u64, 2>,
}

// A rank that comes to a shard, and the fingerprint of its circuit.
#[derive(Clone, Copy)]
pub(crate) struct Arrival {
    pub(crate) rank: u64,
    pub(crate) print: u64,
}

impl Class {
    // The rank of the first of its circuits.
    pub(crate) fn first(&self) -> u64
        requires { 0 < length self.now.members.items }
        ensures { result ≡ slice_index self.now.members.items 0 }
    {
        self.members.as_slice()[0]
    }
}

// How many of some rising numbers are below another one, which is none of them.
fn place_among(members: &[u64], r: u64) -> usize
    requires rising { IsStrictlyIncreasing members.now }
    requires absent { Contains members.now r → ⊥ }
    ensures within { result ≤ length members.now }
    ensures before { (k : ℕ) → k < result → slice_index members.now k < r }
    ensures after { (k : ℕ) → result ≤ k → k < length members.now → r < slice_index members.now k }
{
    match members.binary_search(&r) {
        Ok(place) => place,
        Err(place) => place,
    }
}

// Adds a rank to the class's members, in its place. After an error they are as they were.
pub(crate) fn add_member(class: &mut Class, r: u64) -> Result<(), Memory>
    requires rising { IsStrictlyIncreasing class.old.members.items }
    requires absent { Contains class.old.members.items r → ⊥ }
    ensures print { class.new.print ≡ class.old.print }
    ensures before { class.new.before ≡ class.old.before }
    ensures ok { OnOk result (AddsMember r class.old.members.items class.new.members.items) }
    ensures err { OnErr result (class.new.members.items ≡ class.old.members.items) }
{
    let place = place_among(class.members.as_slice(), r);
    if class.members.insert(place, r).is_err() {
        return Err(Memory);
    }
    Ok(())
}
