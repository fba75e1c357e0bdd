//! What a rule file says: classes of equivalent circuits within bounds.
ghost use Rattle.std.specs.Prelude.{◌≡◌, ◌<◌, ◌≤◌, length, IfOk};
ghost use Rattle.qz_circ.specs.Circuit.{Within};
ghost use Rattle.qz_circ.specs.RuleFiles.{AreClasses, AreSound, numbered_class, numbered_member};

use crate::rank_lists::RankLists;
use qz_circ::{Bounds, Memory, Op};
use std::marker::Model;

/// Bounds, and classes of circuits within them. Each class has two members or more, each of them equivalent to the first one.
#[derive(Drop)]
pub struct Rules {
    lists: RankLists,
}

impl Model for Rules {
    ghost use Rattle.qz_circ.specs.RuleFiles.{RuleClasses, AreSound};

    ghost Value = { RuleClasses };

    ghost view = { λ r. r.lists };

    ghost invariant = { λ r. AreSound r.lists.bounds.q r.lists.classes };
}

impl Rules {
    // These lists, whose members are equivalent.
    pub(crate) fn of_lists(lists: RankLists) -> Rules
        requires { AreSound lists.bounds.q lists.classes }
        ensures { result ≡ lists }
    {
        Rules { lists }
    }

    /// The bounds of the circuits.
    pub fn bounds(&self) -> Bounds
        ensures bounds { result ≡ self.now.bounds }
        ensures fit { AreClasses self.now.bounds self.now.classes }
        ensures sound { AreSound self.now.bounds.q self.now.classes }
    {
        self.lists.bounds()
    }

    /// How many classes there are.
    pub fn len(&self) -> u64
        ensures len { result ≡ length self.now.classes }
        ensures few { result < 1000000000 }
    {
        self.lists.len()
    }

    /// How many members the class with this number has. Classes are counted from 0.
    pub fn class_len(&self, c: u64) -> u64
        requires { c < length self.now.classes }
        ensures len { result ≡ length (numbered_class self.now.classes c) }
        ensures several { 2 ≤ result }
        ensures few { result < 1000000000 }
    {
        self.lists.class_len(c)
    }

    /// The member with number k of the class with number c. Both are counted from 0.
    pub fn member(&self, c: u64, k: u64) -> Result<Vec<Op>, Memory>
        requires in_classes { c < length self.now.classes }
        requires in_class { k < length (numbered_class self.now.classes c) }
        ensures member { IfOk result (λ circuit. circuit.items ≡ numbered_member self.now.classes c k) }
        ensures within { IfOk result (λ circuit. Within self.now.bounds circuit.items) }
    {
        self.lists.member(c, k)
    }
}
