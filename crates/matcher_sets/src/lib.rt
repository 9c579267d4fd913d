//! Sets of characters as ranges, for forms and for texts.
#![tactic(auto)]

pub mod characters;
pub mod difference;
pub mod first_sets;
pub mod learning;
pub mod modes;
mod ranges;
pub mod sizes;
pub mod texts;
