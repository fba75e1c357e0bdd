//! A value that stands for a list of entries, with no names.
ghost use Rattle.std.specs.Prelude.{◌≡◌, ◌<◌, ◌++◌, [], ◌∷◌, IfOk, Some, None};
ghost use Rattle.qz_seats.specs.Parts.{IsOf};
ghost use Rattle.qz_seats.specs.SeatRule.{IsAt};
ghost use Rattle.qz_seats.specs.Views.{adding};

use qz_seats::{Journal, Pass, Receipt, Seats};
use std::alloc::{AllocError, Global};

#[derive(Drop)]
pub struct Log {
    pub entries: Vec<u64>,
}

impl Journal for Log {
    ghost journal = { λ log. log.entries.items };

    ghost names = { λ _. [] };

    ghost mark = { λ _. [] };

    fn len(&self) -> u64 {
        self.entries.len() as u64
    }

    fn entry(&self, i: u64) -> u64 {
        self.entries[i as usize]
    }
}

pub fn empty(alloc: Global) -> Log
    ensures { result.entries.items ≡ [] }
{
    Log {
        entries: Vec::new(alloc),
    }
}

// Puts an entry at the end.
fn longer(log: Log, item: u64) -> Result<Log, AllocError>
    ensures { IfOk result (λ new. new.entries.items ≡ log.entries.items ++ item ∷ []) }
{
    let mut log = log;
    log.entries.push(item)?;
    Ok(log)
}

// Gives value i back with one entry more.
pub fn settle(
    seats: &Seats<Log>,
    pass: &mut Pass<Log>,
    i: u64,
    log: Log,
    item: u64,
) -> Result<Receipt, AllocError>
    requires of { IsOf pass.old seats.now }
    requires held { pass.old.view.held ≡ Some (i, log.entries.items) }
    requires at { IsAt ⟦<Log as Journal>⟧.journal ⟦<Log as Journal>⟧.names ⟦<Log as Journal>⟧.mark pass.old.view.terms i log.entries.items log }
    ensures of { IfOk result (λ _. IsOf pass.new seats.now) }
    ensures view { IfOk result (λ receipt. pass.new.view ≡ adding pass.old.view receipt) }
{
    let log = longer(log, item)?;
    Ok(seats.settle_one(pass, i, log))
}
