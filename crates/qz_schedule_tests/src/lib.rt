//! Tests of several workers, in schedules in which some of them are held.
#![tactic(auto)]

#[cfg(test)]
mod generation;
#[cfg(test)]
mod holding;
#[cfg(test)]
mod meeting;
#[cfg(test)]
mod search;
