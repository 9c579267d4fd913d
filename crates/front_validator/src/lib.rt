//! The validator of rules: which expressions may take nothing or cannot fail, and the errors in rules.
#![tactic(auto)]

mod cycles;
mod findings;
mod flags;
pub mod laws;
mod levels;
mod passing;
mod problems;
mod recursions;
mod relations;
mod reported;
mod tags;
pub mod validator;

pub use problems::{LoopBody, RuleFinding, RuleProblem};
