//! Compiled grammars as blocks of bytes, and the matcher that runs them.
#![tactic(auto)]

pub mod attempts;
pub mod block;
pub mod codes;
pub mod laws;
mod limits;
pub mod mark;
pub mod matcher;
mod packrat;
pub mod paths;
pub mod tracer;
pub mod walk;
