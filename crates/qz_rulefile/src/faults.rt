//! What readings answer where they give no value.

/// Why a part isn't read.
#[derive(Clone, Copy)]
pub(crate) enum ReadError {
    /// Memory ran out.
    Memory,
    /// The text stops being lawful where so many bytes are left.
    Left(usize),
}
