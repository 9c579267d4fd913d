//! The restorer, which wraps expressions that may fail and change the stack, if an alternative is
//! tried next.
#![tactic(auto)]

mod bodies;
mod calls;
mod changes;
mod flags;
mod frames;
pub mod laws;
mod names;
mod restored;
mod restorer;
mod summaries;

pub use restorer::{child_modifies_state, restore_on_err, restore_rules};
