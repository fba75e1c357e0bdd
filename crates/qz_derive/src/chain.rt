//! The answer to whether two circuits are equivalent, and why.
use std::marker::Model;

/// The ranks of circuits, in order.
#[derive(Drop)]
pub struct Ranks {
    pub(crate) ranks: Vec<u64>,
}

impl Model for Ranks {
    ghost use Rattle.std.specs.Prelude.{ℕ, List};

    ghost Value = { List ℕ };

    ghost view = { λ r. r.ranks.items };

    ghost invariant = { λ r. Unit {0} };
}

/// The chain of two circuits.
#[derive(Drop)]
pub enum Chain {
    /// The circuits are equivalent: the ranks of the chain from the one to the other.
    Joined(Ranks),
    /// The circuits are not equivalent.
    Different,
}
