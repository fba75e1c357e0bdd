//! Tests of the commands that take a program: what they write for it, and why they refuse it or its rules.
#![tactic(auto)]

#[cfg(test)]
mod optimise;
#[cfg(test)]
mod tidy;
