//! Places of rewrite rules in programs: where the gates of a left side stand, so that they can be brought together and replaced.
#![tactic(auto)]

mod bind;
mod gather;
mod kinds;
mod neighbours;
mod place;
mod rows;
mod start;
mod usable;
mod walk;
mod words;

pub use kinds::Kinds;
pub use neighbours::{Link, Neighbours};
pub use place::Place;
pub use rows::{Cursor, Rows};
pub use start::{place_found, places_of};
pub use usable::{covers, is_usable, places};
pub use walk::{Step, Walk};
pub use words::{Way, Word, Words};
