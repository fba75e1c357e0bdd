//! A shelf in memory that never fails.
ghost use Rattle.std.specs.Prelude.{◌≡◌, ◌≤◌, ◌<◌, ◌+◌, ◌^◌, ◌++◌, length, min, take, drop, true, false, is_some, IsTrue, IsNone, IfSome, IfOk, option_map, Some, None, Ok};
ghost use Rattle.qz_io.specs.Files.{files_of};
ghost use Rattle.qz_io.specs.SureSource.{at_beginning, after};
ghost use Rattle.qz_io.specs.SureShelf.{rest_of, reading_of, bytes_at};

use crate::copying::put_front;
use crate::fault::IoFault;
use crate::named::Named;
use crate::shelf::Shelf;
use std::marker::Model;

// The open file's place in the list of files, and how many of its bytes were taken.
#[derive(Clone, Copy, Debug)]
struct Place {
    file: usize,
    done: usize,
}

/// Keeps files. The first of two with equal names counts. It never fails.
#[derive(Debug, Drop)]
pub struct SureShelf {
    files: Vec<Named>,
    place: Option<Place>,
}

impl Model for SureShelf {
    ghost use Rattle.qz_io.specs.SureShelf.{Holdings};

    ghost Value = { Holdings };

    ghost use Rattle.qz_io.specs.Places.{opened_at, IsPlace};

    ghost view = { λ s. record { files = s.files.items; opened = opened_at s.files.items s.place } };

    ghost invariant = { λ s. IsPlace s.files.items s.place };
}

// The place of the first file with this name.
fn place_of(files: &[Named], name: &str) -> Option<usize>
    ensures found { IfSome result (λ k. bytes_at files.now k ≡ files_of files.now name.now) }
    ensures within { IfSome result (λ k. k < length files.now) }
    ensures missing { IsNone result → files_of files.now name.now ≡ None }
{
    for (k, file) in files.iter().enumerate() {
        if file.has_name(name) {
            return Some(k);
        }
    }
    None
}

impl SureShelf {
    /// No file is open yet.
    pub fn new(files: Vec<Named>) -> SureShelf
        ensures { result ≡ record { files = files.items; opened = None } }
    {
        SureShelf { files, place: None }
    }

    // How many bytes of the open file were taken; none where no file is open.
    pub(crate) fn done(&self) -> u64
        ensures { result ≡ (reading_of self.now.opened).done }
    {
        match self.place {
            Some(place) => place.done as u64,
            None => 0,
        }
    }

    // The bytes that are left of the open file; none where no file is open.
    fn left(&self) -> &[u8]
        ensures left { result.now ≡ (reading_of self.now.opened).left }
        ensures few { (reading_of self.now.opened).done + length result.now < 2 ^ 64 }
    {
        match self.place {
            Some(place) => self.files[place.file].bytes().split_at(place.done).1,
            None => &[],
        }
    }

    // Puts the first bytes that are left of the open file at the front of the piece, at most so many, and answers how
    // many.
    pub(crate) fn take_into(&mut self, piece: &mut [u8], most: usize) -> usize
        requires is_open { IsTrue (is_some self.old.opened) }
        requires within { most ≤ length piece.old }
        ensures amount { result ≡ min most (length (reading_of self.old.opened).left) }
        ensures filled { piece.new ≡ take result (reading_of self.old.opened).left ++ drop result piece.old }
        ensures taken { self.new ≡ record self.old { opened = Some (after result (reading_of self.old.opened)) } }
    {
        let count = put_front(self.left(), piece, most);
        if let Some(place) = &mut self.place {
            place.done += count;
        }
        count
    }
}

impl Shelf for SureShelf {
    ghost files = { λ s. Some (files_of s.files) };

    ghost rest = { λ s. rest_of s.opened };

    ghost is_open = { λ s. is_some s.opened };

    ghost faults = { λ _. 0 };

    ghost answers_faults = { true };

    ghost has_ended = { λ _. false };

    ghost late_reads = { λ _. 0 };

    fn open(&mut self, name: &str) -> Result<bool, IoFault>
        ensures found { result ≡ Ok (is_some (files_of self.old.files name.now)) }
        ensures opened { self.new ≡ record self.old { opened = option_map at_beginning (files_of self.old.files name.now) } }
    {
        self.place = place_of(&self.files, name).map(|file| Place { file, done: 0 });
        Ok(self.place.is_some())
    }

    fn read(&mut self, piece: &mut [u8]) -> Result<usize, IoFault>
        requires { IsTrue (is_some self.old.opened) }
        ensures amount { result ≡ Ok (min (length piece.old) (length (reading_of self.old.opened).left)) }
        ensures filled { IfOk result (λ k. piece.new ≡ take k (reading_of self.old.opened).left ++ drop k piece.old) }
        ensures taken { IfOk result (λ k. self.new ≡ record self.old { opened = Some (after k (reading_of self.old.opened)) }) }
    {
        let most = piece.len();
        Ok(self.take_into(piece, most))
    }
}
