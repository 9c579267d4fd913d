//! Warnings about what a grammar repeats: lists that pest runs otherwise than they are written,
//! alternatives and bodies that are there twice, and counted repetitions of which the optimizer makes
//! many copies. And about starts that never ask for the end of a text.
#![tactic(auto)]

mod alternatives;
mod bodies;
mod copies;
mod ends;
mod keys;
pub mod laws;
mod lists;
mod names;
mod passes;
mod sizes;

pub use crate::alternatives::repeated_alternatives;
pub use crate::bodies::{first_bodies, repeated_bodies};
pub use crate::copies::many_copies;
pub use crate::ends::open_starts;
pub use crate::lists::rewritten_lists;
