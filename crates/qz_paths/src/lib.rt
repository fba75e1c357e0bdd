//! Laws of circuits that are equivalent or joined by steps, over all values.
#![tactic(auto)]

pub mod laws;
pub mod worked_values;
