//! A place of a rule in a program.
ghost use Rattle.std.specs.Prelude.{◌≡◌, ℕ, ◌<◌, ◌≤◌, length, take};

use qz_circ::Binding;
use std::marker::Model;

/// Where a rule's left side stands in a program: the positions of its gates, rising, of which there are at most 6, and what its
/// qubits and parameters stand for.
#[derive(Drop)]
pub struct Place {
    found: [u64; 6],
    count: usize,
    binding: Binding,
}

impl Model for Place {
    ghost use Rattle.std.specs.Prelude.{◌≤◌, take};
    ghost use Rattle.qz_circ.specs.Places.{PlaceParts};

    ghost Value = { PlaceParts };

    ghost view = { λ p. record { positions = take p.count p.found; binding = p.binding } };

    ghost invariant = { λ p. p.count ≤ 6 };
}

impl Place {
    // At the first positions of a list.
    pub(crate) fn new(found: &[usize; 6], count: usize, binding: Binding) -> Place
        requires { count ≤ 6 }
        ensures { result ≡ record { positions = take count found.now; binding = binding } }
    {
        let mut copied = [0u64; 6];
        for i in 0..6 {
            copied[i] = found[i] as u64;
        }
        Place {
            found: copied,
            count,
            binding,
        }
    }

    /// The positions of its gates in the program, rising.
    pub fn positions(&self) -> &[u64]
        ensures { result.now ≡ self.now.positions }
    {
        &self.found[..self.count]
    }

    /// What the rule's qubits and parameters stand for.
    pub fn binding(&self) -> Binding
        ensures { result ≡ self.now.binding }
    {
        self.binding
    }
}
