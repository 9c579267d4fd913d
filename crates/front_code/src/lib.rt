//! The code of the meta-grammar.
#![tactic(auto)]

pub mod bytes;
pub mod constants;
pub mod laws;
pub mod numbers;
pub mod runs;
