//! Clauses of decisions with witnesses, from models of reducts.
#![tactic(auto)]

pub mod extracting;
pub mod witness;

pub use extracting::extract;
pub use witness::Witness;
