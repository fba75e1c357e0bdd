//! How bytes come into a piece.
ghost use Rattle.std.specs.Prelude.{◌≡◌, ◌≤◌, ◌++◌, length, min, take, drop};

// Puts the first of the bytes at the front of the piece, at most so many, and answers how many.
pub(crate) fn put_front(bytes: &[u8], piece: &mut [u8], most: usize) -> usize
    requires { most ≤ length piece.old }
    ensures amount { result ≡ min most (length bytes.now) }
    ensures filled { piece.new ≡ take result bytes.now ++ drop result piece.old }
{
    let count = most.min(bytes.len());
    piece
        .split_at_mut(count)
        .0
        .copy_from_slice(bytes.split_at(count).0);
    count
}
