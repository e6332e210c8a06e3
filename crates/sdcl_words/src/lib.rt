//! The words of a command line, and the plan that they make.
#![tactic(auto)]

mod command;
pub mod name;
pub mod options;
pub mod plan;
mod planning;
#[cfg(test)]
mod tests;
mod value;
mod verb;

pub use name::Name;
pub use plan::{Plan, PlanError};
pub use planning::plan_of;
