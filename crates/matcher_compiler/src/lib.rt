//! Programs of operations for rules, and the check that they are those of the rules.
#![tactic(auto)]

mod calls;
mod check;
mod columns;
pub mod compile;
mod compounds;
mod extent;
mod firsts;
mod forms;
pub mod laws;
pub mod names;
pub mod plan;
mod planning;
pub mod points;
mod routines;
mod sequences;
pub mod sets;
mod shortcuts;
mod skips;
mod spans;
mod stacks;
mod switches;
mod table_writer;
mod tables;
mod trivia;
