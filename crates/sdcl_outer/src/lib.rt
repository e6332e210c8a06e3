//! The solver's loop over a formula: unit propagation with watched literals, decisions by one of three rules, attempts to
//! find a witness, a learned clause at each conflict and for each witness, restarts, and reductions of what was learned.
#![tactic(auto)]

pub mod attempted;
pub mod attempting;
mod deciding;
mod descending;
mod forgetting;
mod guiding;
mod recording;
mod seeking;
pub mod solving;
#[cfg(test)]
mod tests;
mod turning;

pub use attempted::Attempt;
pub use attempting::attempt;
pub use solving::{Answer, Options, SolveError, solve};
