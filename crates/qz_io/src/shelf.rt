//! Where files lie.
ghost use Rattle.std.specs.Prelude.{◌≡◌, ◌≢◌, ℕ, ◌<◌, ◌≤◌, Bool, true, false, IsTrue, List, Option, length, take, IfOk, OnErr};
ghost use Rattle.std.specs.Io.KnownBytes.{prepend_known, IsAtEnd};
ghost use Rattle.qz_io.specs.Counts.{Rose};
ghost use Rattle.qz_io.specs.Files.{Files, TellsWhether, IsWholeFile};

use crate::fault::IoFault;

/// Opens files by name, one at a time, and gives their bytes in order. No call changes the files.
pub trait Shelf {
    /// The files, where the shelf tells them.
    ghost files: { Self → Option Files };

    /// The rest of the file that was opened last, where the shelf tells it.
    ghost rest: { Self → Option (List ℕ) };

    /// Whether a file is open.
    ghost is_open: { Self → Bool };

    /// How often it has failed. A shelf that keeps this as a u64 lets it stand still at 2^64 - 1.
    ghost faults: { Self → ℕ };

    /// Whether each of its faults is answered: it counts none in a call that doesn't answer `Failed`.
    ghost answers_faults: { Bool };

    /// Whether the open file has told its end. A shelf that doesn't keep this says no.
    ghost has_ended: { Self → Bool };

    /// How often a file was read after it had told its end.
    ghost late_reads: { Self → ℕ };

    /// Opens the file with this name, at its beginning. Answers false where there is no such file: then no file is open
    /// in the forms of this crate, which the trait doesn't ask.
    fn open(&mut self, name: &str) -> Result<bool, IoFault>
        ensures found { IfOk result (TellsWhether (files self.old) name.now) }
        ensures opened { result ≡ Ok true → IsTrue (is_open self.new) }
        ensures whole { result ≡ Ok true → IsWholeFile (files self.old) name.now (rest self.new) }
        ensures kept_open { OnErr result (is_open self.new ≡ is_open self.old) }
        ensures kept_rest { OnErr result (rest self.new ≡ rest self.old) }
        ensures files { files self.new ≡ files self.old }
        ensures failed { result ≡ Err IoFault.Failed → Rose (faults self.old) (faults self.new) }
        ensures faults { faults self.old ≤ faults self.new }
        ensures answered { IsTrue answers_faults → result ≢ Err IoFault.Failed → faults self.new ≡ faults self.old }
        ensures begun { result ≡ Ok true → has_ended self.new ≡ false }
        ensures unread { late_reads self.new ≡ late_reads self.old };

    /// Puts the first bytes that are left of the open file at the front of the piece, and answers how many: none of a
    /// piece that isn't empty only at the end of the file.
    fn read(&mut self, piece: &mut [u8]) -> Result<usize, IoFault>
        requires { IsTrue (is_open self.old) }
        ensures within { IfOk result (λ k. k ≤ length piece.old) }
        ensures taken { IfOk result (λ k. rest self.old ≡ prepend_known (take k piece.new) (rest self.new)) }
        ensures at_end { IfOk result (λ k. k ≡ 0 → 0 < length piece.old → IsAtEnd (rest self.old)) }
        ensures nothing_taken { OnErr result (rest self.new ≡ rest self.old) }
        ensures still_open { IsTrue (is_open self.new) }
        ensures files { files self.new ≡ files self.old }
        ensures failed { result ≡ Err IoFault.Failed → Rose (faults self.old) (faults self.new) }
        ensures faults { faults self.old ≤ faults self.new }
        ensures answered { IsTrue answers_faults → result ≢ Err IoFault.Failed → faults self.new ≡ faults self.old }
        ensures goes_on { result ≢ Ok 0 → has_ended self.new ≡ has_ended self.old }
        ensures in_time { has_ended self.old ≡ false → late_reads self.new ≡ late_reads self.old };
}
