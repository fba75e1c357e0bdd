//! What a pass knows of its table. No value of these types is made.
use crate::receipt::Receipt;
use std::collections::LinkedList;

/// What a table was opened with.
pub struct Terms {
    /// The number of shares of all passes together.
    pub seats: u64,
    /// The numbers below it are given out.
    pub limit: u64,
    /// The journal of each value at the opening.
    pub openings: LinkedList<LinkedList<u64>>,
    /// The names, which all values share; or none.
    pub names: LinkedList<u64>,
    /// The mark of each value.
    pub marks: LinkedList<LinkedList<u64>>,
}

/// What a pass knows.
pub struct View {
    pub terms: Terms,
    pub shares: u64,
    pub ended: bool,
    /// The numbers that it has drawn, also those of at least the limit.
    pub drawn: LinkedList<u64>,
    /// The value that it holds, by its number, with the journal that the value had when it was lifted.
    pub held: Option<(u64, LinkedList<u64>)>,
    pub receipts: LinkedList<Receipt>,
    /// How many of its lifts found the value out. In proofs it has no greatest value.
    pub losses: u64,
}
