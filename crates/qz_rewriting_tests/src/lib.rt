//! Tests of places, of rewriting, of queues and of the search.
#![tactic(auto)]

#[cfg(test)]
mod places;
#[cfg(test)]
mod queue;
#[cfg(test)]
mod rewriting;
#[cfg(test)]
mod search;
