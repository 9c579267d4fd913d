//! The meta-grammar, and laws of it.
#![tactic(auto)]

pub mod laws;
