//! The matrix of no gate.
ghost use Rattle.std.specs.Prelude.{◌≡◌, ◌^◌, ◌≤◌, IfOk};
ghost use Rattle.qz_matrix.specs.AfterGate.{identity_entry as entry_of, IsIdentity};

use qz_circ::{Memory, entries_on, states_on};
use qz_ring::Elem;
use std::alloc::Global;

// The entry of no gate in row i and column j.
fn identity_entry(alloc: Global, i: usize, j: usize) -> Result<Elem, qz_ring::Memory>
    ensures { IfOk result (λ entry. entry ≡ entry_of i j) }
{
    if i == j {
        Elem::one(alloc)
    } else {
        Ok(Elem::zero(alloc))
    }
}

// The entries of no gate on q qubits, column by column.
pub(crate) fn identity(alloc: Global, q: u64) -> Result<Vec<Elem>, Memory>
    requires { q ≤ 3 }
    ensures { IfOk result (λ v. IsIdentity (2 ^ q) v.items) }
{
    let rows = states_on(q);
    let size = entries_on(q);
    let Ok(mut entries) = Vec::with_capacity(alloc, size) else {
        return Err(Memory);
    };
    for k in 0..size {
        let Ok(entry) = identity_entry(alloc, k % rows, k / rows) else {
            return Err(Memory);
        };
        entries.push_reserved(entry);
    }
    Ok(entries)
}
