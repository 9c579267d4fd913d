//! The reader turns the token trees of a grammar's text into its rules.
#![tactic(auto)]

pub mod laws;
pub mod rules;
