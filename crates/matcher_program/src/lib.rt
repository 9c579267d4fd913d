//! Optimized rules compiled for the matcher, with resolved names, and the leaf expressions.
#![tactic(auto)]

pub mod answers;
pub mod compile;
pub mod form;
pub mod forms;
mod indexed;
pub mod laws;
pub mod properties;
mod released;
mod sets;
pub mod texts;
