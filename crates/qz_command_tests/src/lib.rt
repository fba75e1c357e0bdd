//! Tests of the words of commands, of the texts of refusals, of the commands that take no program or two, and of workers.
#![tactic(auto)]

#[cfg(test)]
mod checks;
#[cfg(test)]
mod commands;
#[cfg(test)]
mod meeting;
#[cfg(test)]
mod texts;
#[cfg(test)]
mod trials;
#[cfg(test)]
mod workers;
