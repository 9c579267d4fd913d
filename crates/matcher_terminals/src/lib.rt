//! What a text was missing. In exposed rules, each terminal is a rule of its own. So the names that
//! are expected at a failure are those of terminals.
#![tactic(auto)]

pub mod exposed;
pub mod labels;
pub mod laws;
