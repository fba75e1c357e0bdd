//! Tests of circuits and their order, of their sums and matrices, of which programs are equivalent, of how they are put into classes, and of chains and pruned
//! class lists.
#![tactic(auto)]

#[cfg(test)]
mod chains;
#[cfg(test)]
mod circuits;
#[cfg(test)]
mod equivalence;
#[cfg(test)]
mod fingerprints;
#[cfg(test)]
mod generation;
#[cfg(test)]
mod matrices;
#[cfg(test)]
mod orders;
#[cfg(test)]
mod programs;
#[cfg(test)]
mod shards;
#[cfg(test)]
mod sums;
