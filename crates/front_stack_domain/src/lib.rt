//! The abstract domain of the stack pass: abstract stacks, and readings, the abstract outcomes of
//! expressions.
#![tactic(auto)]

pub mod laws;
mod reading;
mod stack;

pub use crate::reading::{Reading, Walk, after_failure, join_any};
pub use crate::stack::{Base, Stack};
