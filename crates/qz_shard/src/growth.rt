//! How a journal and its classes grow.
ghost use Rattle.std.specs.Prelude.{◌≡◌, [], ◌∷◌, OnOk, OnErr, IfSome};
ghost use Rattle.indexmap.specs.IndexMap.{IsUnchanged};
ghost use Rattle.qz_shard.specs.Held.{IsOpenTo, Keeps, Joins, Opens, Puts};

use crate::class::{Arrival, Class, add_member};
use indexmap::IndexMap;
use qz_circ::Memory;
use smallvec::SmallVec;
use std::alloc::Global;

// Adds a rank to class number k and to the journal. After an error both are as they were.
fn join(journal: &mut Vec<u64>, classes: &mut [Class], k: usize, r: u64) -> Result<(), Memory>
    requires { IsOpenTo r classes.old k }
    ensures ok { OnOk result (Joins k r journal.old.items journal.new.items classes.old classes.new) }
    ensures err { OnErr result (Keeps journal.old.items journal.new.items classes.old classes.new) }
{
    if journal.reserve(1).is_err() {
        return Err(Memory);
    }
    add_member(&mut classes[k], r)?;
    journal.push_reserved(r);
    Ok(())
}

// The members of a class of this rank alone.
fn single(alloc: Global, r: u64) -> SmallVec<u64, 2>
    ensures { result.items ≡ r ∷ [] }
{
    let mut members = SmallVec::new(alloc);
    members.push_reserved(r);
    members
}

// Opens a class for a rank, and adds the rank to the journal. After an error all are as they were.
fn open(
    alloc: Global,
    journal: &mut Vec<u64>,
    classes: &mut Vec<Class>,
    newest: &mut IndexMap<u64, usize>,
    new: Arrival,
) -> Result<(), Memory>
    ensures ok { OnOk result (Opens new.rank new.print journal.old.items journal.new.items classes.old.items classes.new.items newest.old newest.new) }
    ensures err { OnErr result (Keeps journal.old.items journal.new.items classes.old.items classes.new.items) }
    ensures err_newest { OnErr result (IsUnchanged newest.old newest.new) }
{
    if journal.reserve(1).is_err() {
        return Err(Memory);
    }
    if classes.reserve(1).is_err() {
        return Err(Memory);
    }
    let Ok(before) = newest.insert(new.print, classes.len()) else {
        return Err(Memory);
    };
    classes.push_reserved(Class {
        print: new.print,
        before,
        members: single(alloc, new.rank),
    });
    journal.push_reserved(new.rank);
    Ok(())
}

// Adds a rank to the class with this number, or opens a class for it where there is no number, and adds it to the journal. After an
// error all are as they were.
pub(crate) fn put(
    alloc: Global,
    journal: &mut Vec<u64>,
    classes: &mut Vec<Class>,
    newest: &mut IndexMap<u64, usize>,
    new: Arrival,
    found: Option<usize>,
) -> Result<(), Memory>
    requires { IfSome found (IsOpenTo new.rank classes.old.items) }
    ensures ok { OnOk result (Puts new.rank new.print journal.old.items journal.new.items classes.old.items classes.new.items newest.old newest.new found) }
    ensures err { OnErr result (Keeps journal.old.items journal.new.items classes.old.items classes.new.items) }
    ensures err_newest { OnErr result (IsUnchanged newest.old newest.new) }
{
    match found {
        Some(k) => join(journal, classes, k, new.rank),
        None => open(alloc, journal, classes, newest, new),
    }
}
