//! Trees as nodes, each before those inside it.
#![tactic(auto)]

pub mod forest;
pub mod nodes;
