//! Where text goes.
ghost use Rattle.std.specs.Prelude.{◌≡◌, ◌≢◌, ℕ, ◌<◌, ◌≤◌, Bool, IsTrue, List, Option, length, take, IfOk, OnErr};
ghost use Rattle.std.specs.Io.KnownBytes.{append_known};
ghost use Rattle.qz_io.specs.Counts.{Rose};

use crate::fault::IoFault;

/// Takes bytes, in order.
pub trait Sink {
    /// All bytes that were written, where the sink tells them.
    ghost written: { Self → Option (List ℕ) };

    /// How often it has failed. A sink that keeps this as a u64 lets it stand still at 2^64 - 1.
    ghost faults: { Self → ℕ };

    /// How often it has wanted memory in vain. It may stand still likewise.
    ghost wants: { Self → ℕ };

    /// Whether each of its faults is answered: it counts none in a call that doesn't answer `Failed`.
    ghost answers_faults: { Bool };

    /// Takes the first bytes of the piece, and answers how many: at least one, unless the piece is empty.
    fn write(&mut self, piece: &[u8]) -> Result<usize, IoFault>
        ensures within { IfOk result (λ k. k ≤ length piece.now) }
        ensures some { IfOk result (λ k. 0 < length piece.now → 0 < k) }
        ensures taken { IfOk result (λ k. written self.new ≡ append_known (written self.old) (take k piece.now)) }
        ensures nothing_taken { OnErr result (written self.new ≡ written self.old) }
        ensures failed { result ≡ Err IoFault.Failed → Rose (faults self.old) (faults self.new) }
        ensures memory { result ≡ Err IoFault.Memory → Rose (wants self.old) (wants self.new) }
        ensures faults { faults self.old ≤ faults self.new }
        ensures wants { wants self.old ≤ wants self.new }
        ensures answered { IsTrue answers_faults → result ≢ Err IoFault.Failed → faults self.new ≡ faults self.old };
}
