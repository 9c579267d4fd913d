//! The base of the front end: the meaning of expressions, and the types that every layer above uses.
#![tactic(auto)]

pub mod derived;
pub mod grammar;
pub mod laws;
pub mod runtime;
