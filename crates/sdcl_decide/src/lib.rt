//! Which literal a solver decides: by three rules, one order of the variables.
#![tactic(auto)]

mod bumping;
pub mod decider;
mod heap;
pub mod laws;
mod queue;
#[cfg(test)]
mod tests;

pub use decider::{DecideKind, Decider};
