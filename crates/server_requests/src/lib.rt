//! The requests of the Language Server Protocol that are answered by the tokens of a text alone.
#![tactic(auto)]

pub mod builtins;
pub mod completions;
pub mod context;
pub mod locations;
pub mod names;
pub mod semantic;
pub mod structure;
pub mod symbols;
