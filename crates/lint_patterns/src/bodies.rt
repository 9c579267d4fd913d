//! Repeated bodies.
ghost use Rattle.std.specs.Prelude.{◌≡◌, ◌++◌, ◌∷◌, [], IfOk, OnOk, List, map};
ghost use Rattle.lint_patterns.specs.Bodies as spec;
ghost use Rattle.lint_patterns.specs.BodyKeys.{HasRuleKey, KnowsBodies, type_key};
ghost use Rattle.front_spanned.specs.Nodes.{piece_of, rule_view, rule_views, type_of};
ghost use Rattle.front_spanned.specs.Spanned.{SpannedRule};

use crate::alternatives::is_plain;
use crate::keys::key_of;
use base_ast::ast::RuleType;
use base_language::runtime::Span;
use front_spanned::ParserRule;
use std::alloc::{AllocError, Global};
use std::collections::{HashMap, HashSet};

/// The spans of the names of rules with the type and the body of a rule before them, except for bodies that
/// are literals, calls or large. The only error is an allocation failure. The time is linear in the rules.
pub fn repeated_bodies<'i>(
    alloc: Global,
    rules: &[ParserRule<'i>],
) -> Result<Vec<Span<'i>>, AllocError>
    ensures { IfOk result (λ found.
        map piece_of found.items ≡ spec.repeated_bodies (rule_views rules.now)) }
{
    let mut seen = HashSet::new(alloc);
    let mut found = Vec::new(alloc);
    for rule in rules {
        add_where_same(alloc, rule, &mut seen, &mut found)?;
    }
    Ok(found)
}

/// Returns a map for rules with a repeated body. Its keys are the bytes at which the names of these rules
/// begin. Its values are the bytes of the name of the first rule that has the same type and body. The only
/// error is an allocation failure. The time is linear in the number of nodes of the rules.
pub fn first_bodies(
    alloc: Global,
    rules: &[ParserRule<'_>],
) -> Result<HashMap<usize, (usize, usize)>, AllocError> {
    let mut places = HashMap::new(alloc);
    let mut firsts = HashMap::new(alloc);
    for rule in rules {
        if let Some(key) = rule_key(alloc, rule)? {
            let (start, end) = (rule.span.start(), rule.span.end());
            let first = firsts.get(&key).copied();
            match first {
                Some(first) => places.insert(start, first)?,
                None => firsts.insert(key, (start, end))?,
            };
        }
    }
    Ok(places)
}

/// Adds the span of the name of a rule whose key is there, and else adds its key.
fn add_where_same<'i>(
    alloc: Global,
    rule: &ParserRule<'i>,
    seen: &mut HashSet<Vec<u32>>,
    found: &mut Vec<Span<'i>>,
) -> Result<(), AllocError>
    ensures spans { OnOk result ((earlier : List SpannedRule) → KnowsBodies earlier seen.old
        → map piece_of found.new.items
        ≡ map piece_of found.old.items ++ spec.span_if_same earlier (rule_view rule.now)) }
    ensures known { OnOk result ((earlier : List SpannedRule) → KnowsBodies earlier seen.old
        → KnowsBodies (earlier ++ rule_view rule.now ∷ []) seen.new) }
{
    let Some(key) = rule_key(alloc, rule)? else {
        return Ok(());
    };
    let is_new = seen.insert(key)?;
    if !is_new {
        found.push(rule.span)?;
    }
    Ok(())
}

/// The key of a rule's type and body, if the body is compared.
fn rule_key(alloc: Global, rule: &ParserRule<'_>) -> Result<Option<Vec<u32>>, AllocError>
    ensures { IfOk result (HasRuleKey (rule_view rule.now)) }
{
    if is_plain(&rule.node) {
        return Ok(None);
    }
    match key_of(alloc, &rule.node)? {
        Some(body) => Ok(Some(with_type(body, rule.ty)?)),
        None => Ok(None),
    }
}

/// A body's key with the number of a type.
fn with_type(body: Vec<u32>, ty: RuleType) -> Result<Vec<u32>, AllocError>
    ensures { IfOk result (λ key. key.items ≡ body.items ++ type_key (type_of ty) ∷ []) }
{
    let mut key = body;
    key.push(type_number(ty))?;
    Ok(key)
}

/// The number of a type.
fn type_number(ty: RuleType) -> u32
    ensures { result ≡ type_key (type_of ty) }
{
    match ty {
        RuleType::Normal => 0,
        RuleType::Silent => 1,
        RuleType::Atomic => 2,
        RuleType::CompoundAtomic => 3,
        RuleType::NonAtomic => 4,
    }
}
