//! Rules, names, errors and tokens as JSON, and rules read back; docs/FORMAT.md has the format.
#![tactic(auto)]

mod answers;
mod ast;
mod errors;
mod expressions;
pub mod laws;
mod members;
mod nodes;
mod optimized;
mod placed;
mod refusal;
mod rule_names;
mod rules;
mod tokens;
mod versions;

pub use answers::answer_text;
pub use errors::{errors_text, names_text};
pub use placed::nodes_text;
pub use refusal::{Refusal, RefusalLocation, RefusalReason, refusal_text};
pub use rule_names::rule_named;
pub use rules::{optimized_rules_text, read_optimized_rules, read_rules, rules_text};
pub use tokens::tokens_text;
pub use versions::version_text;
