//! The parser of the meta-grammar.
#![tactic(auto)]

pub mod events;
mod expecting;
pub mod grammar;
pub mod trees;
