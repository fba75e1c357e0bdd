//! Values that stand for a list of entries.
ghost use Rattle.std.specs.Prelude.{◌≡◌, ℕ, ◌<◌, List, [], length, slice_get, Some};

/// A value that stands for a list of entries, its journal. Contracts see two lists more: the names, from which the entries that
/// come in are taken, and the mark, which tells what of the value stays as it was.
pub trait Journal {
    ghost journal: { Self → List ℕ };

    ghost names: { Self → List ℕ };

    ghost mark: { Self → List ℕ };

    /// The number of entries.
    fn len(&self) -> u64
        ensures { result ≡ length (journal self.now) };

    /// The entry at a place, counted from 0.
    fn entry(&self, i: u64) -> u64
        requires { i < length (journal self.now) }
        ensures { slice_get (journal self.now) i ≡ Some result };
}

/// A value with no entries, for tables of numbers alone.
#[derive(Drop)]
pub struct NoValue;

impl Journal for NoValue {
    ghost journal = { λ _. [] };

    ghost names = { λ _. [] };

    ghost mark = { λ _. [] };

    fn len(&self) -> u64 {
        0
    }

    fn entry(&self, i: u64) -> u64
        ensures { result ≡ 0 }
    {
        let _ = i;
        0
    }
}
