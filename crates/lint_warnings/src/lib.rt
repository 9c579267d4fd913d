//! Warnings that are certain: rules that no other rule calls, alternatives that are never taken, and ranges
//! that match nothing.
#![tactic(auto)]

mod beginners;
mod choices;
pub mod laws;
mod literals;
mod nodes;
mod ranges;
mod rules;
mod skipping;
mod suspects;
mod tokens;

pub use crate::choices::{UnreachableChoice, unreachable_alternatives, unreachable_choices};
pub use crate::rules::{
    add_name, is_blank_name, is_blank_name_in_any_case, is_named, is_start, names_of, needed_names,
    uncalled_rules,
};
pub use crate::suspects::{Suspect, is_any, suspect_spans};
pub use crate::tokens::blanks_in_tokens;
