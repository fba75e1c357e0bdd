//! A list of classes of equivalent circuits, each a list of ranks within some bounds.
ghost use Rattle.std.specs.Prelude.{◌≡◌, ◌<◌, [], ◌∷◌, ◌++◌, length, slice_get, Some, OnOk, OnErr};
ghost use Rattle.qz_circ.specs.ClassLists.{AreRanks};

use crate::bound::Bounds;
use crate::fault::Memory;
use std::alloc::Global;
use std::marker::Model;

/// Lists of ranks of circuits within bounds.
#[derive(Drop)]
pub struct Classes {
    alloc: Global,
    bounds: Bounds,
    lists: Vec<Vec<u64>>,
}

impl Model for Classes {
    ghost use Rattle.std.specs.Prelude.{All};
    ghost use Rattle.qz_circ.specs.ClassLists.{ClassLists, AreRanks};
    ghost use Rattle.qz_circ.specs.Vectors.{lists_of};

    ghost Value = { ClassLists };

    ghost view = { λ c. record { bounds = c.bounds; lists = lists_of c.lists.items } };

    ghost invariant = { λ c. All (λ list. AreRanks c.bounds list.items) c.lists.items };
}

impl Classes {
    /// No lists yet. It takes no memory.
    pub fn empty(alloc: Global, b: Bounds) -> Classes
        ensures { result ≡ record { bounds = b; lists = [] } }
    {
        Classes {
            alloc,
            bounds: b,
            lists: Vec::new(alloc),
        }
    }

    /// The bounds that the ranks are for.
    pub fn bounds(&self) -> Bounds
        ensures { result ≡ self.now.bounds }
    {
        self.bounds
    }

    /// How many lists there are.
    pub fn len(&self) -> u64
        ensures { result ≡ length self.now.lists }
    {
        self.lists.len() as u64
    }

    /// The list with this number, counted from 0.
    pub fn class(&self, i: u64) -> &[u64]
        requires { i < length self.now.lists }
        ensures list { slice_get self.now.lists i ≡ Some result.now }
        ensures ranks { AreRanks self.now.bounds result.now }
    {
        self.lists[i as usize].as_slice()
    }

    /// Appends a list of ranks within the bounds. After an error nothing has changed.
    pub fn push(&mut self, list: &[u64]) -> Result<(), Memory>
        requires { AreRanks self.old.bounds list.now }
        ensures ok { OnOk result (self.new ≡ record self.old { lists = self.old.lists ++ list.now ∷ [] }) }
        ensures err { OnErr result (self.new ≡ self.old) }
    {
        let Ok(copy) = Vec::from_slice(self.alloc, list) else {
            return Err(Memory);
        };
        match self.lists.push(copy) {
            Ok(()) => Ok(()),
            Err(_) => Err(Memory),
        }
    }
}
