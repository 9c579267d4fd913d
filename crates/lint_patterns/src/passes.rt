//! Bodies before the listing.
ghost use Rattle.std.specs.Prelude.{◌≡◌, IfOk};
ghost use Rattle.base_ast.specs.Ast.{expression_of, rule_of_code, rule_type_of};
ghost use Rattle.lint_patterns.specs.Rewritten.{IsPassed, IsRotatedRule};
ghost use Rattle.front_spanned.specs.Nodes.{rule_view};

use base_ast::ast::Rule;
use base_ast::deep::Deep;
use base_language::runtime::Fault;
use front_optimizer::{concatenate, factor, rotate, unroll};
use front_spanned::{ParserRule, copy_rule};
use std::alloc::{AllocError, Global};

/// A rule without spans, as the first pass leaves it.
pub(crate) fn rotated_rule(alloc: Global, rule: &ParserRule<'_>) -> Result<Deep<Rule>, AllocError>
    ensures { IfOk result (λ rotated. IsRotatedRule (rule_view rule.now) (rule_of_code rotated.value)) }
{
    let copy = copy_rule(alloc, rule)?;
    match rotate(alloc, copy.into_inner()) {
        Ok(rule) => Ok(Deep { value: rule }),
        Err(_) => Err(AllocError),
    }
}

/// A rule as the passes from `unroll` to `factor` leave it.
pub(crate) fn passed_rule(alloc: Global, rule: Deep<Rule>) -> Result<Deep<Rule>, AllocError>
    ensures { IfOk result (λ passed. IsPassed (rule_type_of rule.value.ty)
        (expression_of rule.value.expr) (expression_of passed.value.expr)) }
{
    match run_passes(alloc, rule.into_inner()) {
        Ok(rule) => Ok(Deep { value: rule }),
        Err(_) => Err(AllocError),
    }
}

/// Runs the passes from `unroll` to `factor`.
fn run_passes(alloc: Global, rule: Rule) -> Result<Rule, Fault>
    ensures { IfOk result (λ passed. IsPassed (rule_type_of rule.ty) (expression_of rule.expr)
        (expression_of passed.expr)) }
{
    let rule = unroll(alloc, rule)?;
    let rule = concatenate(alloc, rule)?;
    factor(alloc, rule)
}
