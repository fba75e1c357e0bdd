//! Tests of how programs are read and written.
#![tactic(auto)]

#[cfg(test)]
mod angles;
#[cfg(test)]
mod programs;
#[cfg(test)]
mod reading;
#[cfg(test)]
mod tokens;
