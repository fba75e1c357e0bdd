//! A source in memory that never fails.
ghost use Rattle.std.specs.Prelude.{◌≡◌, ◌≤◌, ◌++◌, length, min, take, drop, true, false, Ok, Some, IfOk};
ghost use Rattle.qz_io.specs.SureSource.{at_beginning, after};

use crate::copying::put_front;
use crate::fault::IoFault;
use crate::source::Source;
use std::marker::Model;

/// Gives the bytes that it was made of. It never fails.
#[derive(Debug, Drop)]
pub struct SureSource {
    bytes: Vec<u8>,
    done: usize,
}

impl Model for SureSource {
    ghost use Rattle.std.specs.Prelude.{◌≤◌, drop, vec_len};
    ghost use Rattle.qz_io.specs.SureSource.{Reading};

    ghost Value = { Reading };

    ghost view = { λ s. record { done = s.done; left = drop s.done s.bytes.items } };

    ghost invariant = { λ s. s.done ≤ vec_len s.bytes };
}

impl SureSource {
    /// Nothing is taken yet.
    pub fn new(bytes: Vec<u8>) -> SureSource
        ensures { result ≡ at_beginning bytes.items }
    {
        SureSource { bytes, done: 0 }
    }

    /// What is left.
    pub fn left(&self) -> &[u8]
        ensures { result.now ≡ self.now.left }
    {
        self.bytes.split_at(self.done).1
    }

    // How many bytes were taken.
    pub(crate) fn done(&self) -> u64
        ensures { result ≡ self.now.done }
    {
        self.done as u64
    }

    // Puts the first bytes that are left at the front of the piece, at most so many, and answers how many.
    pub(crate) fn take_into(&mut self, piece: &mut [u8], most: usize) -> usize
        requires { most ≤ length piece.old }
        ensures amount { result ≡ min most (length self.old.left) }
        ensures filled { piece.new ≡ take result self.old.left ++ drop result piece.old }
        ensures taken { self.new ≡ after result self.old }
    {
        let count = put_front(self.left(), piece, most);
        self.done += count;
        count
    }
}

impl Source for SureSource {
    ghost left = { λ s. Some s.left };

    ghost faults = { λ _. 0 };

    ghost answers_faults = { true };

    ghost has_ended = { λ _. false };

    ghost late_reads = { λ _. 0 };

    fn read(&mut self, piece: &mut [u8]) -> Result<usize, IoFault>
        ensures amount { result ≡ Ok (min (length piece.old) (length self.old.left)) }
        ensures filled { IfOk result (λ k. piece.new ≡ take k self.old.left ++ drop k piece.old) }
        ensures taken { IfOk result (λ k. self.new ≡ after k self.old) }
    {
        let most = piece.len();
        Ok(self.take_into(piece, most))
    }
}
