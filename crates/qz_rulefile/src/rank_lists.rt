//! Classes of circuits within bounds, as they are kept: a rank for each member, all in one list.
ghost use Rattle.std.specs.Prelude.{◌≡◌, ◌<◌, ◌≤◌, length, slice_index_or, IfOk};
ghost use Rattle.qz_circ.specs.Circuit.{Within};
ghost use Rattle.qz_circ.specs.ClassLists.{AreRanks};
ghost use Rattle.qz_circ.specs.Joined.{circuits_of_ranks};
ghost use Rattle.qz_circ.specs.RuleFiles.{AreClasses, numbered_class, numbered_member};
ghost use Rattle.qz_rulefile.specs.Layout.{parts, AreEnds, start_of};

use qz_circ::{Bounds, Memory, Op, unrank};
use std::alloc::Global;
use std::marker::Model;

/// Bounds and classes of circuits within them. Nothing is known of whether members are equivalent.
#[derive(Drop)]
pub(crate) struct RankLists {
    alloc: Global,
    bounds: Bounds,
    // the ranks of all members, class by class
    members: Vec<u32>,
    // for each class the number of members up to its end
    ends: Vec<usize>,
}

impl Model for RankLists {
    ghost use Rattle.std.specs.Prelude.{length};
    ghost use Rattle.qz_circ.specs.ClassLists.{AreRanks};
    ghost use Rattle.qz_circ.specs.RuleFiles.{RuleClasses, AreClasses};
    ghost use Rattle.qz_circ.specs.Joined.{circuits_of_ranks};
    ghost use Rattle.qz_rulefile.specs.Layout.{parts, AreEnds};

    ghost Value = { RuleClasses };

    ghost view = { λ s. record { bounds = s.bounds; classes = circuits_of_ranks s.bounds (parts s.ends.items s.members.items) } };

    ghost invariant = { λ s. AreRanks s.bounds s.members.items × AreEnds 0 s.ends.items (length s.members.items) × AreClasses s.bounds (circuits_of_ranks s.bounds (parts s.ends.items s.members.items)) };
}

// Where the class with this number begins.
fn start(ends: &[usize], c: usize) -> usize
    requires { c < length ends.now }
    ensures { result ≡ start_of 0 ends.now c }
{
    if c == 0 {
        return 0;
    }
    ends[c - 1]
}

// Where it ends.
fn end(ends: &[usize], c: usize) -> usize
    requires { c < length ends.now }
    ensures { result ≡ slice_index_or ends.now c 0 }
{
    ends[c]
}

// The rank at a place.
fn rank_at(members: &[u32], place: usize) -> u64
    requires { place < length members.now }
    ensures { result ≡ slice_index_or members.now place 0 }
{
    u64::from(members[place])
}

impl RankLists {
    /// Ranks of members, class by class, and where the classes end.
    pub(crate) fn new(
        alloc: Global,
        bounds: Bounds,
        members: Vec<u32>,
        ends: Vec<usize>,
    ) -> RankLists
        requires listed { AreRanks bounds members.items }
        requires ends { AreEnds 0 ends.items (length members.items) }
        requires fit { AreClasses bounds (circuits_of_ranks bounds (parts ends.items members.items)) }
        ensures { result ≡ record { bounds = bounds; classes = circuits_of_ranks bounds (parts ends.items members.items) } }
    {
        RankLists {
            alloc,
            bounds,
            members,
            ends,
        }
    }

    /// The bounds of the circuits.
    pub(crate) fn bounds(&self) -> Bounds
        ensures bounds { result ≡ self.now.bounds }
        ensures fit { AreClasses self.now.bounds self.now.classes }
    {
        self.bounds
    }

    /// How many classes there are.
    pub(crate) fn len(&self) -> u64
        ensures len { result ≡ length self.now.classes }
        ensures few { result < 1000000000 }
    {
        self.ends.as_slice().len() as u64
    }

    /// How many members the class with this number has. Classes are counted from 0.
    pub(crate) fn class_len(&self, c: u64) -> u64
        requires { c < length self.now.classes }
        ensures len { result ≡ length (numbered_class self.now.classes c) }
        ensures several { 2 ≤ result }
        ensures few { result < 1000000000 }
    {
        let ends = self.ends.as_slice();
        (end(ends, c as usize) - start(ends, c as usize)) as u64
    }

    /// The member with number k of the class with number c. Both are counted from 0.
    pub(crate) fn member(&self, c: u64, k: u64) -> Result<Vec<Op>, Memory>
        requires in_classes { c < length self.now.classes }
        requires in_class { k < length (numbered_class self.now.classes c) }
        ensures member { IfOk result (λ circuit. circuit.items ≡ numbered_member self.now.classes c k) }
        ensures within { IfOk result (λ circuit. Within self.now.bounds circuit.items) }
    {
        let members = self.members.as_slice();
        let place = start(self.ends.as_slice(), c as usize) + k as usize;
        let rank = rank_at(members, place);
        let circuit = unrank(self.alloc, rank, self.bounds)?;
        Ok(circuit)
    }
}
