//! Graphs whose nodes are numbers: depth-first search, strongly connected components, and the least flags
//! that follow from one another. Nothing is promised of the search, since the callers check what they
//! take from it.
#![tactic(auto)]

mod components;
mod least;
mod links;
mod listeners;
mod search;

pub use components::{Components, find_components, numbers, postorder};
pub use least::{Inference, is_set, least_flags};
pub use links::Link;
pub use listeners::{DependencyGraph, DependencyVisitor, Listeners, find_listeners};
