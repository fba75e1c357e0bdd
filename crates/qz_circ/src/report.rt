//! What a generation counts.

/// The counts of a generation within bounds.
#[derive(Clone, Copy, PartialEq, Eq)]
pub struct Report {
    /// The sum, over the lengths below the bounds' n, of the number of representatives of that length times the number
    /// of gates within the bounds.
    pub extended: u64,
    /// How many circuits were kept.
    pub kept: u64,
    /// How many lists the class list has.
    pub classes: u64,
    /// How many circuits these lists have in all.
    pub members: u64,
    /// How many different fingerprints the kept circuits have, for the given seed.
    pub prints: u64,
}
