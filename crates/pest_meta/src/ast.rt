//! Rules and expressions as values, and rules by their names.
pub use base_ast::ast::{Expr, ExprTopDownIterator, Rule, RuleType, release};
pub use front_analysis::rule_number;
