//! Lists of rules as JSON, and read back.
ghost use Rattle.std.specs.Prelude.{◌≡◌, ◌≢◌, IfErr, IfOk, None, Some, codes, option_and_then, string_bytes};
ghost use Rattle.serde_json.specs.Data.{array, string};
ghost use Rattle.serde_json.specs.Find.{as_array, as_str, get};
ghost use Rattle.serde_json.specs.Read.{read};
ghost use Rattle.serde_json.specs.View.{items_view, view};
ghost use Rattle.serde_json.specs.Written.{compact_text};
ghost use Rattle.format_json.specs.Format.{nodes_of, optimized_nodes_of, optimized_rules_data, rule_data, rules_data, type_name};
ghost use Rattle.base_ast.specs.declared.ast.RuleType.{RuleType};
ghost use Rattle.format_json.specs.Refusals.{IsRefusedAsOptimized, IsRefusedAsRules, IsRefusedText, RefusesValue};
ghost use Rattle.format_json.specs.Reading.{AreOptimizedRules, AreRules, members_of, members_of_optimized, members_of_rule, rule_members};
ghost use Rattle.format_json.specs.Unread.{IsUnreadRule};

use crate::expressions::{AsNodes, FromNodes, expression_of, nodes_of};
use crate::members::put_text;
use crate::refusal::{Refusal, RefusalLocation, RefusalReason, Unread};
use base_ast::ast::{Rule, RuleType};
use base_ast::deep::Deep;
use base_ast::optimized::OptimizedRule;
use serde_json::{Map, Value, put};
use std::alloc::{AllocError, Global};

/// Returns rules as JSON. The only error is an allocation failure.
#[tactic(auto, using(crate::proofs::Floats::rules_without_floats))]
pub fn rules_text(alloc: Global, rules: &[Rule]) -> Result<String, AllocError>
    ensures text { IfOk result (λ text. string_bytes text ≡ compact_text (rules_data rules.now)) }
    ensures reads_back { IfOk result (λ text. AreRules (string_bytes text) rules.now) }
{
    rules_value(alloc, rules)?.to_string(alloc)
}

/// Returns optimized rules as JSON. The only error is an allocation failure.
#[tactic(auto, using(crate::proofs::Floats::optimized_without_floats))]
pub fn optimized_rules_text(alloc: Global, rules: &[OptimizedRule]) -> Result<String, AllocError>
    ensures text { IfOk result (λ text. string_bytes text ≡ compact_text (optimized_rules_data rules.now)) }
    ensures reads_back { IfOk result (λ text. AreOptimizedRules (string_bytes text) rules.now) }
{
    optimized_rules_value(alloc, rules)?.to_string(alloc)
}

/// Returns rules as a value.
pub(crate) fn rules_value(alloc: Global, rules: &[Rule]) -> Result<Value, AllocError>
    ensures { IfOk result (λ value. view value ≡ rules_data rules.now) }
{
    let mut values = Vec::new(alloc);
    for rule in rules {
        values.push(rule_value(alloc, rule.name.as_str(), rule.ty, &rule.expr)?)?;
    }
    Ok(Value::Array(values))
}

/// Returns optimized rules as a value.
pub(crate) fn optimized_rules_value(
    alloc: Global,
    rules: &[OptimizedRule],
) -> Result<Value, AllocError>
    ensures { IfOk result (λ value. view value ≡ optimized_rules_data rules.now) }
{
    let mut values = Vec::new(alloc);
    for rule in rules {
        values.push(rule_value(alloc, rule.name.as_str(), rule.ty, &rule.expr)?)?;
    }
    Ok(Value::Array(values))
}

/// Returns a rule as a value.
fn rule_value<E: AsNodes>(
    alloc: Global,
    name: &str,
    ty: RuleType,
    body: &E,
) -> Result<Value, AllocError>
    ensures { IfOk result (λ value. view value ≡ rule_data name.now ty (E.nodes body.now)) }
{
    let mut members = Map::new(alloc);
    let nodes = nodes_of(alloc, body)?;
    put(&mut members, alloc, "expr", Value::Array(nodes))?;
    put_text(alloc, &mut members, "name", name)?;
    put_text(alloc, &mut members, "type", name_of_type(ty))?;
    Ok(Value::Object(members))
}

/// Returns the name of a type.
pub(crate) fn name_of_type(ty: RuleType) -> &'static str
    ensures { result.now ≡ type_name ty }
{
    match ty {
        RuleType::Normal => "normal",
        RuleType::Silent => "silent",
        RuleType::Atomic => "atomic",
        RuleType::CompoundAtomic => "compound_atomic",
        RuleType::NonAtomic => "non_atomic",
    }
}

/// Reads rules from a text in JSON. Refuses a text that is no JSON, or no list, or has an object that is no
/// rule, and reports the first one. An allocation failure is a refusal, too.
pub fn read_rules(alloc: Global, text: &str) -> Result<Vec<Rule>, Refusal>
    ensures rules { IfOk result (λ rules. AreRules text.now rules.items) }
    ensures refused { IfErr result (IsRefusedText text.now) }
    ensures exact { IfErr result (IsRefusedAsRules text.now) }
{
    let value = value_of(alloc, text)?;
    let values = values_of(&value)?;
    let mut rules = Deep {
        value: Vec::new(alloc),
    };
    for (place, value) in values.iter().enumerate() {
        let rule = Deep {
            value: rule_of(alloc, value, place)?,
        };
        rules.push(rule)?;
    }
    Ok(rules.into_inner())
}

/// Reads optimized rules from a text in JSON. Refuses as `read_rules` does.
pub fn read_optimized_rules(alloc: Global, text: &str) -> Result<Vec<OptimizedRule>, Refusal>
    ensures rules { IfOk result (λ rules. AreOptimizedRules text.now rules.items) }
    ensures refused { IfErr result (IsRefusedText text.now) }
    ensures exact { IfErr result (IsRefusedAsOptimized text.now) }
{
    let value = value_of(alloc, text)?;
    let values = values_of(&value)?;
    let mut rules = Deep {
        value: Vec::new(alloc),
    };
    for (place, value) in values.iter().enumerate() {
        let rule = Deep {
            value: optimized_rule_of(alloc, value, place)?,
        };
        rules.push(rule)?;
    }
    Ok(rules.into_inner())
}

/// Reads a text as JSON.
fn value_of(alloc: Global, text: &str) -> Result<Value, Refusal>
    ensures value { IfOk result (λ value. read text.now ≡ Some (view value)) }
    ensures refused { IfErr result (IsRefusedText text.now) }
    ensures rules { IfErr result (IsRefusedAsRules text.now) }
    ensures optimized { IfErr result (IsRefusedAsOptimized text.now) }
{
    match Value::from_str(alloc, text) {
        Ok(value) => Ok(value),
        Err(error) if error.is_memory() => Err(Refusal::Memory),
        Err(error) => Err(Refusal::Text(
            RefusalLocation::Text(error.line(), error.column()),
            RefusalReason::Json,
        )),
    }
}

/// Returns the values of a list, if the value is one.
fn values_of(value: &Value) -> Result<&Vec<Value>, Refusal>
    ensures list { IfOk result (λ values. view value.now ≡ array (items_view values.now.items)) }
    ensures refused { IfErr result (λ refusal.
        (refusal ≡ Refusal.Text RefusalLocation.Whole RefusalReason.NoList)
        × (as_array (view value.now) ≡ None)) }
{
    match value {
        Value::Array(values) => Ok(values),
        _ => Err(Refusal::Text(RefusalLocation::Whole, RefusalReason::NoList)),
    }
}

/// Reads a rule from a value. `place` is its number in the list.
fn rule_of(alloc: Global, value: &Value, place: usize) -> Result<Rule, Refusal>
    ensures members { IfOk result (λ rule. members_of (view value.now) ≡ members_of_rule rule) }
    ensures refused { IfErr result (RefusesValue nodes_of (view value.now) place) }
{
    match parts_of(alloc, value) {
        Ok((name, ty, expr)) => Ok(Rule { name, ty, expr }),
        Err(why) => Err(why.in_rule(place)),
    }
}

/// Reads an optimized rule from a value. `place` is its number in the list.
fn optimized_rule_of(alloc: Global, value: &Value, place: usize) -> Result<OptimizedRule, Refusal>
    ensures members { IfOk result (λ rule. members_of (view value.now) ≡ members_of_optimized rule) }
    ensures refused { IfErr result (RefusesValue optimized_nodes_of (view value.now) place) }
{
    match parts_of(alloc, value) {
        Ok((name, ty, expr)) => Ok(OptimizedRule { name, ty, expr }),
        Err(why) => Err(why.in_rule(place)),
    }
}

/// Reads a rule's name, type and body.
fn parts_of<E: FromNodes>(alloc: Global, value: &Value) -> Result<(String, RuleType, E), Unread>
    ensures members { IfOk result (λ parts. members_of (view value.now)
        ≡ rule_members (string_bytes parts.0) parts.1 (E.nodes parts.2)) }
    ensures refused { IfErr result (IsUnreadRule E.nodes (view value.now)) }
{
    let name = String::from_str(alloc, name_in(value)?)?;
    let ty = type_in(value)?;
    let nodes = nodes_in(value)?;
    let body = expression_of(alloc, nodes.as_slice())?;
    Ok((name, ty, body))
}

/// Returns a rule's name.
fn name_in(value: &Value) -> Result<&str, Unread>
    ensures name { IfOk result (λ name. get (codes "name") (view value.now) ≡ Some (string name.now)) }
    ensures refused { IfErr result (λ unread. (unread ≡ Unread.Reason RefusalReason.Name)
        × (option_and_then as_str (get (codes "name") (view value.now)) ≡ None)) }
{
    match value.get("name") {
        Some(Value::String(name)) => Ok(name.as_str()),
        _ => Err(Unread::Reason(RefusalReason::Name)),
    }
}

/// Returns a rule's type.
fn type_in(value: &Value) -> Result<RuleType, Unread>
    ensures ty { IfOk result (λ ty. get (codes "type") (view value.now) ≡ Some (string (type_name ty))) }
    ensures refused { IfErr result (λ unread. (unread ≡ Unread.Reason RefusalReason.Type)
        × ((ty : RuleType) → get (codes "type") (view value.now) ≡ Some (string (type_name ty)) → ⊥)) }
{
    match value.get("type") {
        Some(Value::String(name)) => type_named(name.as_str()),
        _ => Err(Unread::Reason(RefusalReason::Type)),
    }
}

/// Returns a rule's nodes.
fn nodes_in(value: &Value) -> Result<&Vec<Value>, Unread>
    ensures nodes { IfOk result (λ nodes. get (codes "expr") (view value.now)
        ≡ Some (array (items_view nodes.now.items))) }
    ensures refused { IfErr result (λ unread. (unread ≡ Unread.Reason RefusalReason.Body)
        × (option_and_then as_array (get (codes "expr") (view value.now)) ≡ None)) }
{
    match value.get("expr") {
        Some(Value::Array(nodes)) => Ok(nodes),
        _ => Err(Unread::Reason(RefusalReason::Body)),
    }
}

/// Returns the type of that name.
fn type_named(name: &str) -> Result<RuleType, Unread>
    ensures ty { IfOk result (λ ty. name.now ≡ type_name ty) }
    ensures refused { IfErr result (λ unread. (unread ≡ Unread.Reason RefusalReason.Type)
        × ((ty : RuleType) → name.now ≡ type_name ty → ⊥)) }
{
    match name {
        "normal" => Ok(RuleType::Normal),
        "silent" => Ok(RuleType::Silent),
        "atomic" => Ok(RuleType::Atomic),
        "compound_atomic" => Ok(RuleType::CompoundAtomic),
        "non_atomic" => Ok(RuleType::NonAtomic),
        _ => Err(Unread::Reason(RefusalReason::Type)),
    }
}
