//! Programs of operations, run on texts.
#![tactic(auto)]

mod comments;
mod events;
mod expansion;
pub mod frame;
mod fused_operations;
mod fused_running;
pub mod kinds;
pub mod laws;
pub mod machine;
mod memo;
mod memory;
mod operations;
pub mod packrat;
pub mod recognizing;
mod remembering;
pub mod running;
pub mod stack;
mod stack_operations;
mod texts;
