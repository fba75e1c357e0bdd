//! Tests of commands whose outside fails, at each place where it may, or is cut off.
#![tactic(auto)]

#[cfg(test)]
mod cases;
#[cfg(test)]
mod late;
#[cfg(test)]
mod places;
