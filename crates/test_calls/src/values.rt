//! Rules and expressions as values.
ghost use Rattle.std.specs.Prelude.{◌≡◌, ◌↔◌, IfOk, IsTrue, encode_utf8_all, string_bytes};
ghost use Rattle.base_ast.specs.Ast.{expression_of, rule_of_code, rules_of};
ghost use Rattle.base_ast.specs.Printing.{printed};
ghost use Rattle.front_spanned.specs.Erasure.{rules_without_spans};
ghost use Rattle.front_spanned.specs.Nodes.{rule_views};

use base_ast::ast::{Expr, Rule};
use front_spanned::ParserRule;
use std::alloc::{AllocError, Global};

/// Returns whether two rules are equal.
pub fn are_same_rules(one: &Rule, other: &Rule) -> bool
    ensures { IsTrue result ↔ (rule_of_code one.now ≡ rule_of_code other.now) }
{
    *one == *other
}

/// Returns a copy of a rule.
pub fn copied_rule(rule: &Rule) -> Result<Rule, AllocError>
    ensures { IfOk result (λ copy. rule_of_code copy ≡ rule_of_code rule.now) }
{
    rule.clone()
}

/// Returns an expression as it is printed.
pub fn printed_expression(alloc: Global, expr: &Expr) -> Result<String, AllocError>
    ensures { IfOk result
        (λ text. string_bytes text ≡ encode_utf8_all (printed (expression_of expr.now))) }
{
    format!(in alloc; "{expr}")
}

/// Returns rules without their spans.
pub fn erase_spans(alloc: Global, rules: Vec<ParserRule<'_>>) -> Result<Vec<Rule>, AllocError>
    ensures { IfOk result
        (λ erased. rules_of erased.items ≡ rules_without_spans (rule_views rules.entry.items)) }
{
    front_spanned::erase_spans(alloc, rules)
}
