//! Passes: what a worker brings to each call on a table.
ghost use Rattle.std.specs.Prelude.{◌≡◌};

use crate::view::View;
use atomic_table::Seat;
use std::marker::Model;

/// A worker's right to step on one table. It borrows nothing and may go to another thread. Contracts see its table and what it
/// knows. The shares of a pass that is dropped are lost, and the table can then no longer be closed.
#[derive(Drop)]
pub struct Pass<V> {
    pub(crate) seat: Seat<Option<V>, View>,
    pub(crate) shares: u64,
    pub(crate) ended: bool,
}

impl<V> Model for Pass<V> {
    ghost use Rattle.qz_seats.specs.Parts.{PassParts, IsPass};

    ghost Value = { PassParts };

    ghost view = { λ p. record { table = p.seat.table_id; view = p.seat.me.0 } };

    ghost invariant = { λ p. IsPass p.seat.me p.shares p.ended };
}

impl<V> Pass<V> {
    /// The number of its shares, at least 1.
    pub fn shares(&self) -> u64
        ensures { result ≡ self.now.view.shares }
    {
        self.shares
    }

    /// Whether it gets no more numbers.
    pub fn ended(&self) -> bool
        ensures { result ≡ self.now.view.ended }
    {
        self.ended
    }
}
