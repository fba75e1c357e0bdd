//! A set of circuits.
ghost use Rattle.std.specs.Prelude.{◌≡◌, [], ◌∷◌, OnOk, OnErr};
ghost use Rattle.qz_circ.specs.ProgramCircuits.{ones, program_cmp};
ghost use Rattle.qz_circ.specs.Queue.{different};
ghost use Rattle.qz_circ.specs.Search.{is_among};

use crate::place::{Seek, find};
use crate::priced::Priced;
use qz_circ::{Inst, Memory};
use std::alloc::Global;
use std::marker::Model;

// Each gate weighs 1, so that a circuit's price is its length: the same circuits are equal by all weights.
const ONES: [u8; 4] = [1, 1, 1, 1];

/// Different circuits, in the order of programs whose gates all weigh 1.
#[derive(Drop)]
pub struct Seen {
    list: Vec<Priced>,
}

impl Model for Seen {
    ghost use Rattle.std.specs.Prelude.{List};
    ghost use Rattle.qz_circ.specs.ProgramCircuits.{ProgramCircuit};
    ghost use Rattle.qz_queue.specs.Circuits.{circuits_of, IsSet};

    ghost Value = { List ProgramCircuit };

    ghost view = { λ s. circuits_of s.list.items };

    ghost invariant = { λ s. IsSet s.list.items };
}

impl Seen {
    /// No circuits. It takes no memory.
    pub fn new(alloc: Global) -> Seen
        ensures { result ≡ [] }
    {
        Seen {
            list: Vec::new(alloc),
        }
    }

    /// Puts a circuit in, unless it is there. After an error nothing has changed.
    pub fn insert(&mut self, c: Vec<Inst>) -> Result<(), Memory>
        ensures ok { OnOk result (self.new ≡ different (program_cmp ones) (c.items ∷ self.old)) }
        ensures err { OnErr result (self.new ≡ self.old) }
    {
        let price = c.len() as u128;
        let (place, found) = find(&self.list, &c, price, ONES, Seek::Ends);
        if found {
            return Ok(());
        }
        if self.list.insert(place, Priced { price, gates: c }).is_err() {
            return Err(Memory);
        }
        Ok(())
    }

    /// Whether this circuit is there.
    pub fn contains(&self, c: &[Inst]) -> bool
        ensures { result ≡ is_among self.now c.now }
    {
        find(&self.list, c, c.len() as u128, ONES, Seek::Ends).1
    }
}
