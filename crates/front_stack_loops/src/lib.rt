//! The stack pass, an abstract interpretation: which repetitions certainly never end because of the stack.
#![tactic(auto)]

mod apart;
mod copies;
mod facts;
mod groups;
mod kinds;
mod loops;
mod memory;
mod names;
mod owners;
mod reader;
mod recursion;
mod repetitions;
mod reportable;
mod table;
mod visits;
mod waiting;

pub use crate::repetitions::{sorted_reports, sorted_reports_in, validate_stack_repetition};
