//! Public calls with their contracts. Every function calls one of them and repeats its clauses, so that
//! mutants which change the meaning of a call are refused in a crate that is proved fast.
#![tactic(auto)]

pub mod binary;
pub mod front_end;
pub mod json;
pub mod matcher;
pub mod names;
pub mod passes;
pub mod places;
pub mod programs;
pub mod reader;
pub mod validators;
pub mod values;
pub mod warnings;
