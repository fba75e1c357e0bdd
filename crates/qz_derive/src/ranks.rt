//! Lists of ranks.
ghost use Rattle.std.specs.Prelude.{◌≡◌};

use crate::chain::Ranks;

impl Ranks {
    /// The ranks.
    pub fn items(&self) -> &[u64]
        ensures { result.now ≡ self.now }
    {
        self.ranks.as_slice()
    }

    /// The list of these ranks.
    pub(crate) fn of(ranks: Vec<u64>) -> Ranks
        ensures { result ≡ ranks.items }
    {
        Ranks { ranks }
    }
}
