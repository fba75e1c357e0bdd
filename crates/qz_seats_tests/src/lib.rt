//! Tests of the table of numbers and values.
#![tactic(auto)]

#[cfg(test)]
mod log;
#[cfg(test)]
mod tables;
#[cfg(test)]
mod threads;
