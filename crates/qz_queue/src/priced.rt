//! Circuits that are held with their prices.
ghost use Rattle.std.specs.Prelude.{◌≡◌, IfOk};

use qz_circ::{Inst, Memory};
use std::alloc::Global;

// A circuit and what it costs, so that its gates are counted once.
#[derive(Drop)]
pub(crate) struct Priced {
    pub(crate) price: u128,
    pub(crate) gates: Vec<Inst>,
}

impl Priced {
    // A copy of its own.
    pub(crate) fn copy(&self, alloc: Global) -> Result<Priced, Memory>
        ensures { IfOk result (λ p. (p.price ≡ self.now.price) × (p.gates.items ≡ self.now.gates.items)) }
    {
        let Ok(gates) = Vec::from_slice(alloc, &self.gates) else {
            return Err(Memory);
        };
        Ok(Priced {
            price: self.price,
            gates,
        })
    }
}
