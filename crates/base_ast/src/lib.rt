//! Rules and expressions as values: as they are read, and as they are optimized.
#![tactic(auto)]

pub mod ast;
pub mod deep;
pub mod derived;
pub mod optimized;
pub mod printing;
pub mod rebuilt;
pub mod sameness;
pub mod shape;
pub mod texts;
mod walks;
