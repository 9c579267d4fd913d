//! The requests of the Language Server Protocol that the front end answers, and the diagnostics of documents.
#![tactic(auto)]

pub mod actions;
pub mod diagnoses;
pub mod diagnostics;
mod earlier;
mod facts;
pub mod formatting;
pub mod hovers;
pub mod notes;
pub mod remedies;
pub mod renames;
