//! Programs of operations in bytes, from which they are run; docs/FORMAT.md has the form.
#![tactic(auto)]

pub mod code;
mod lists;
mod operations;
pub mod sections;
