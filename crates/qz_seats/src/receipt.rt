//! Receipts for entries.
ghost use Rattle.std.specs.Prelude.{◌≡◌};

use std::marker::Model;

/// A receipt for one entry that was put: the number of the value, the place in its journal, counted from 0, and the entry there.
/// Only `Seats::settle_one` makes one.
#[derive(Clone, Copy)]
pub struct Receipt {
    pub(crate) shard: u64,
    pub(crate) place: u64,
    pub(crate) item: u64,
}

impl Model for Receipt {
    ghost use Rattle.qz_seats.specs.Receipts.{ReceiptParts};

    ghost Value = { ReceiptParts };

    ghost view = { λ r. record { shard = r.shard; place = r.place; item = r.item } };

    ghost inverse = { λ r. record { shard = r.shard; place = r.place; item = r.item } };
}

impl Receipt {
    /// The number of the value, counted from 0.
    pub fn shard(&self) -> u64
        ensures { result ≡ self.now.shard }
    {
        self.shard
    }

    /// The place in the journal, counted from 0.
    pub fn place(&self) -> u64
        ensures { result ≡ self.now.place }
    {
        self.place
    }

    /// The entry.
    pub fn item(&self) -> u64
        ensures { result ≡ self.now.item }
    {
        self.item
    }
}
