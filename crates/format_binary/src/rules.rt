//! Lists of rules in binary form, and read back.
ghost use Rattle.std.specs.Prelude.{◌≡◌, ℕ, List, ◌∷◌, ◌++◌, All, IfErr, IfOk, OnOk, string_bytes};
ghost use Rattle.base_ast.specs.declared.optimized.OptimizedRule.{OptimizedRule};
ghost use Rattle.format_binary.specs.declared.input.BinaryRefusal.TheVariants.{Form};
ghost use Rattle.format_binary.specs.Format.{optimized_expression_bytes, optimized_rules_bytes, rule_bytes, rules_bytes, type_byte};
ghost use Rattle.format_binary.specs.Fronts.{AreOfNoRules, BeginsWithRule, BeginsWithType, rule_item};
ghost use Rattle.format_binary.specs.Indices.{HasIndices};

use crate::expressions::{AsNodes, push_expression};
use crate::input::{BinaryRefusal, ByteInput};
use crate::scalars::{push_size, push_text};
use crate::trees::read_expression;
use base_ast::ast::{Rule, RuleType};
use base_ast::deep::Deep;
use base_ast::optimized::OptimizedRule;
use std::alloc::{AllocError, Global};

/// Appends a list of rules. The only error is an allocation failure.
pub fn push_rules(alloc: Global, out: &mut Vec<u8>, rules: &[Rule]) -> Result<(), AllocError>
    ensures { OnOk result (out.new.items ≡ out.old.items ++ rules_bytes rules.now) }
{
    push_size(out, rules.len())?;
    for rule in rules {
        push_rule(alloc, out, rule.name.as_str(), rule.ty, &rule.expr)?;
    }
    Ok(())
}

/// Appends a list of optimized rules. The only error is an allocation failure.
pub fn push_optimized_rules(
    alloc: Global,
    out: &mut Vec<u8>,
    rules: &[OptimizedRule],
) -> Result<(), AllocError>
    ensures { OnOk result (out.new.items ≡ out.old.items ++ optimized_rules_bytes rules.now) }
{
    push_size(out, rules.len())?;
    for rule in rules {
        push_rule(alloc, out, rule.name.as_str(), rule.ty, &rule.expr)?;
    }
    Ok(())
}

/// Appends a rule.
fn push_rule<E: AsNodes>(
    alloc: Global,
    out: &mut Vec<u8>,
    name: &str,
    ty: RuleType,
    body: &E,
) -> Result<(), AllocError>
    ensures { OnOk result (out.new.items ≡ out.old.items ++ rule_bytes name.now ty (E.bytes body.now)) }
{
    push_text(out, name)?;
    out.push(byte_of_type(ty))?;
    push_expression(alloc, out, body)
}

/// Returns the number of a type.
fn byte_of_type(ty: RuleType) -> u8
    ensures { result ≡ type_byte ty }
{
    match ty {
        RuleType::Normal => 0,
        RuleType::Silent => 1,
        RuleType::Atomic => 2,
        RuleType::CompoundAtomic => 3,
        RuleType::NonAtomic => 4,
    }
}

/// Reads optimized rules. Refuses bytes that are not those of a list of rules, or have more behind it. An
/// allocation failure is a refusal, too.
pub fn read_optimized_rules(
    alloc: Global,
    bytes: &[u8],
) -> Result<Vec<OptimizedRule>, BinaryRefusal>
    ensures bytes { IfOk result (λ rules. bytes.now ≡ optimized_rules_bytes rules.items) }
    ensures indices { IfOk result (λ rules. All (λ r. HasIndices r.expr) rules.items) }
    ensures refused { IfErr result (λ why. why ≡ Form → AreOfNoRules bytes.now) }
{
    let mut input = ByteInput { rest: bytes };
    let count = input.read_size()?;
    let mut rules = Deep {
        value: Vec::new(alloc),
    };
    for place in 0..count {
        let rule = Deep {
            value: read_rule(alloc, &mut input)?,
        };
        rules.push(rule)?;
    }
    if input.rest.is_empty() {
        Ok(rules.into_inner())
    } else {
        Err(BinaryRefusal::Form)
    }
}

/// Reads an optimized rule.
fn read_rule(alloc: Global, input: &mut ByteInput<'_>) -> Result<OptimizedRule, BinaryRefusal>
    ensures read { IfOk result (λ rule. input.old.rest.now ≡ rule_bytes (string_bytes rule.name) rule.ty
        (optimized_expression_bytes rule.expr) ++ input.new.rest.now) }
    ensures indices { IfOk result (λ rule. HasIndices rule.expr) }
    ensures follows { IfOk result (λ rule. (r : OptimizedRule) (rest : List ℕ)
        → input.old.rest.now ≡ rule_item r ++ rest → input.new.rest.now ≡ rest) }
    ensures refused { IfErr result (λ why. why ≡ Form → BeginsWithRule input.old.rest.now → ⊥) }
{
    let name = input.read_string(alloc)?;
    let ty = read_type(input)?;
    let expr = read_expression(alloc, input)?;
    Ok(OptimizedRule { name, ty, expr })
}

/// Reads a type.
fn read_type(input: &mut ByteInput<'_>) -> Result<RuleType, BinaryRefusal>
    ensures read { IfOk result (λ ty. input.old.rest.now ≡ type_byte ty ∷ input.new.rest.now) }
    ensures refused { IfErr result (λ why. BeginsWithType input.old.rest.now → ⊥) }
{
    match input.read_byte()? {
        0 => Ok(RuleType::Normal),
        1 => Ok(RuleType::Silent),
        2 => Ok(RuleType::Atomic),
        3 => Ok(RuleType::CompoundAtomic),
        4 => Ok(RuleType::NonAtomic),
        _ => Err(BinaryRefusal::Form),
    }
}
