//! The answer for a grammar's text, as JSON.
ghost use Rattle.std.specs.Prelude.{◌≡◌, IfOk, string_bytes};
ghost use Rattle.serde_json.specs.View.{view};
ghost use Rattle.serde_json.specs.Written.{compact_text};
ghost use Rattle.format_json.specs.Errors.{answer_data};

use crate::errors::names_value;
use crate::rules::optimized_rules_value;
use base_ast::optimized::OptimizedRule;
use serde_json::{Value, json};
use std::alloc::{AllocError, Global};

/// Returns the builtins that a grammar uses and its optimized rules, as JSON. The only error is an allocation
/// failure.
#[tactic(auto, using(crate::proofs::Floats::answer_without_floats))]
pub fn answer_text(
    alloc: Global,
    builtins: &[&str],
    rules: &[OptimizedRule],
) -> Result<String, AllocError>
    ensures { IfOk result (λ text. string_bytes text ≡ compact_text (answer_data builtins.now rules.now)) }
{
    answer_value(alloc, builtins, rules)?.to_string(alloc)
}

/// Returns the builtins and the rules as a value.
fn answer_value(
    alloc: Global,
    builtins: &[&str],
    rules: &[OptimizedRule],
) -> Result<Value, AllocError>
    ensures { IfOk result (λ value. view value ≡ answer_data builtins.now rules.now) }
{
    json!(in alloc; {
        "builtins": names_value(alloc, builtins)?,
        "rules": optimized_rules_value(alloc, rules)?
    })
}
