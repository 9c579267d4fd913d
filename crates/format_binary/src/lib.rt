//! Rules and names in binary form, rules read back, and tokens as numbers; docs/FORMAT.md has both forms.
#![tactic(auto)]

mod expressions;
mod input;
pub mod laws;
mod names;
mod nodes;
mod operators;
mod rules;
mod scalars;
mod tokens;
mod trees;

pub use input::BinaryRefusal;
pub use names::push_names;
pub use rules::{push_optimized_rules, push_rules, read_optimized_rules};
pub use tokens::tokens_numbers;
