//! Programs of operations that match texts, the functions by which operations read a text, and which code
//! does which task of a grammar.
#![tactic(auto)]

pub mod bytecode;
pub mod code;
pub mod comments;
pub mod fused;
mod halves;
pub mod laws;
mod operations;
pub mod ranges;
pub mod reading;
pub mod sets;
pub mod stack_uses;
pub mod state;
pub mod words;
