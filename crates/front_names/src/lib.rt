//! The names of a grammar: what a builtin does, which names are defined and which are called, and errors
//! about names that no rule may have, that are defined twice or not at all.
#![tactic(auto)]

mod builtin;
mod char_set;
mod findings;
mod found;
mod keywords;
pub mod laws;
mod messages;
mod pairs;
mod said;
mod tables;
mod undefined;

pub use builtin::Builtin;
pub use char_set::CharSet;
pub use findings::{NameError, NameFinding};
pub use keywords::{validate_already_defined, validate_pest_keywords, validate_rust_keywords};
pub use messages::{
    NameProblem, arrow, cannot_fail, left_recursion, non_progressing, repeated_expression,
    tag_on_builtin, tag_on_silent_rule, unreachable_choices,
};
pub use pairs::{check_forest, check_names, collect_builtins, collect_in_forest, validate_pairs};
pub use said::name_errors;
pub use tables::{comment_name, is_builtin, unicode_property_names, whitespace_name};
pub use undefined::validate_undefined;
