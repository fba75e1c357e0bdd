//! Where input comes from.
ghost use Rattle.std.specs.Prelude.{◌≡◌, ◌≢◌, ℕ, ◌<◌, ◌≤◌, Bool, false, Ok, IsTrue, List, Option, length, take, IfOk, OnErr};
ghost use Rattle.std.specs.Io.KnownBytes.{prepend_known, IsAtEnd};
ghost use Rattle.qz_io.specs.Counts.{Rose};

use crate::fault::IoFault;

/// Gives bytes, in order.
pub trait Source {
    /// All bytes that are left, where the source tells them.
    ghost left: { Self → Option (List ℕ) };

    /// How often it has failed. A source that keeps this as a u64 lets it stand still at 2^64 - 1.
    ghost faults: { Self → ℕ };

    /// Whether each of its faults is answered: it counts none in a call that doesn't answer `Failed`.
    ghost answers_faults: { Bool };

    /// Whether it has told its end. A source that doesn't keep this says no.
    ghost has_ended: { Self → Bool };

    /// How often it was read after it had told its end.
    ghost late_reads: { Self → ℕ };

    /// Puts the first bytes that are left at the front of the piece, and answers how many: none of a piece that isn't
    /// empty only at the end of the input.
    fn read(&mut self, piece: &mut [u8]) -> Result<usize, IoFault>
        ensures within { IfOk result (λ k. k ≤ length piece.old) }
        ensures taken { IfOk result (λ k. left self.old ≡ prepend_known (take k piece.new) (left self.new)) }
        ensures at_end { IfOk result (λ k. k ≡ 0 → 0 < length piece.old → IsAtEnd (left self.old)) }
        ensures nothing_taken { OnErr result (left self.new ≡ left self.old) }
        ensures failed { result ≡ Err IoFault.Failed → Rose (faults self.old) (faults self.new) }
        ensures faults { faults self.old ≤ faults self.new }
        ensures answered { IsTrue answers_faults → result ≢ Err IoFault.Failed → faults self.new ≡ faults self.old }
        ensures goes_on { result ≢ Ok 0 → has_ended self.new ≡ has_ended self.old }
        ensures in_time { has_ended self.old ≡ false → late_reads self.new ≡ late_reads self.old };
}
