//! Which circuits are new.
ghost use Rattle.std.specs.Prelude.{◌≡◌, ℕ, List};
ghost use Rattle.qz_circ.specs.ProgramCircuits.{cost};
ghost use Rattle.qz_search.specs.Offers.{is_new};

use qz_circ::Inst;
use qz_queue::Seen;

// The most gates that a new circuit may have.
const MOST_GROWN: usize = 20_004;

// The circuits that were taken, and what a new one may cost.
#[derive(Drop)]
pub(crate) struct Filter {
    pub(crate) seen: Seen,
    pub(crate) most: u64,
}

impl Filter {
    // Whether a circuit of this cost is new: none of those that were taken, not dearer than it may be, and not too long.
    pub(crate) fn passes(&self, c: &[Inst], n: u64) -> bool
        ensures { (weights : List ℕ) → n ≡ cost weights c.now → result ≡ is_new weights self.now.seen self.now.most c.now }
    {
        n <= self.most && c.len() <= MOST_GROWN && !self.seen.contains(c)
    }
}
