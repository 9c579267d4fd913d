//! Rules between whose parts blanks are skipped.
ghost use Rattle.std.specs.Prelude.{◌≡◌, ◌++◌, ◌||◌, Bool, IfOk, OnOk, List, ℕ};
ghost use Rattle.std.specs.Str.{IsUtf8, chars};
ghost use Rattle.base_ast.specs.Ast.{text_of};
ghost use Rattle.base_language.specs.Language.Builtins.{is_one_of};
ghost use Rattle.base_language.specs.Language.Text.{Text};
ghost use Rattle.front_spanned.specs.Nodes.{rule_view, rule_views, type_of};
ghost use Rattle.lint_warnings.specs.Lists.{HasNames, has_name, texts_of};
ghost use Rattle.lint_warnings.specs.Skipping as spec;

use crate::rules::{add_calls, is_start, names_of, needed_names, needs_no_call};
use base_ast::ast::RuleType;
use front_spanned::ParserRule;
use std::alloc::{AllocError, Global};
use std::collections::HashSet;

/// Calls in a chain that are followed, at most.
const LONGEST_CHAIN: usize = 32;

/// The names of rules with which matching may start: no other rule calls them, or they call `SOI` or `EOI`.
/// If there are none, the name of the first rule.
pub(crate) fn roots_of<'n, 'i>(
    alloc: Global,
    rules: &'n [ParserRule<'i>],
) -> Result<Vec<&'n str>, AllocError>
    ensures { IfOk result (λ roots. texts_of roots.items ≡ spec.roots (rule_views rules.entry.now)) }
{
    let mut roots = listed_roots(alloc, rules)?;
    if roots.is_empty() {
        if let Some(rule) = rules.first() {
            roots.push(rule.name.as_str())?;
        }
    }
    Ok(roots)
}

/// The names of those rules that no other rule calls, or that call `SOI` or `EOI`.
fn listed_roots<'n, 'i>(
    alloc: Global,
    rules: &'n [ParserRule<'i>],
) -> Result<Vec<&'n str>, AllocError>
    ensures { IfOk result (λ roots.
        texts_of roots.items ≡ spec.listed_roots (rule_views rules.entry.now)) }
{
    let called = needed_names(alloc, &*rules, &[])?;
    let mut roots = Vec::new(alloc);
    for rule in rules {
        add_root(alloc, rule, &called, &mut roots)?;
    }
    Ok(roots)
}

/// Adds the name of a rule with which matching may start.
fn add_root<'n, 'i>(
    alloc: Global,
    rule: &'n ParserRule<'i>,
    called: &HashSet<&str>,
    roots: &mut Vec<&'n str>,
) -> Result<(), AllocError>
    ensures { OnOk result ((f : Text → Bool) → HasNames f called.now → texts_of roots.new.items
        ≡ texts_of roots.old.items ++ spec.root_at f (rule_view rule.entry.now)) }
{
    if is_root(alloc, rule, called)? {
        roots.push(rule.name.as_str())?;
    }
    Ok(())
}

/// Whether matching may start with a rule.
fn is_root(alloc: Global, rule: &ParserRule<'_>, called: &HashSet<&str>) -> Result<bool, AllocError>
    ensures { IfOk result (λ answer. (f : Text → Bool) → HasNames f called.now
        → answer ≡ spec.is_root f (rule_view rule.now)) }
{
    if is_among(&rule.name, called) {
        is_start(alloc, rule)
    } else {
        Ok(true)
    }
}

/// The names to which a chain of calls leads from these, of at most `LONGEST_CHAIN` calls, each from a rule
/// between whose parts blanks are skipped.
pub(crate) fn reached_names<'n, 'i>(
    alloc: Global,
    rules: &'n [ParserRule<'i>],
    roots: &'n [&'n str],
) -> Result<HashSet<&'n str>, AllocError>
    ensures { IfOk result (HasNames
        (spec.is_reached 32 (texts_of roots.entry.now) (rule_views rules.entry.now))) }
{
    let mut names = names_of(alloc, roots)?;
    for _calls in 0..LONGEST_CHAIN {
        names = called_names(alloc, rules, roots, &names)?;
    }
    Ok(names)
}

/// Returns the roots, and the names that are called in rules which skip blanks. The names `names` are known
/// to be called so.
fn called_names<'n, 'i>(
    alloc: Global,
    rules: &'n [ParserRule<'i>],
    roots: &'n [&'n str],
    names: &HashSet<&str>,
) -> Result<HashSet<&'n str>, AllocError>
    ensures { IfOk result (λ called. (f : Text → Bool) → HasNames f names.now → HasNames
        (spec.is_root_or_called f (texts_of roots.entry.now) (rule_views rules.entry.now)) called) }
{
    let mut called = names_of(alloc, roots)?;
    for rule in rules {
        add_calls_of(alloc, rule, names, &mut called)?;
    }
    Ok(called)
}

/// Adds the names that a rule calls, if blanks are skipped between its parts.
fn add_calls_of<'n, 'i>(
    alloc: Global,
    rule: &'n ParserRule<'i>,
    names: &HashSet<&str>,
    called: &mut HashSet<&'n str>,
) -> Result<(), AllocError>
    ensures { OnOk result ((f : Text → Bool) → HasNames f names.now → (name : List ℕ) → IsUtf8 name
        → has_name called.new name
        ≡ (has_name called.old name || spec.calls_skipping f (rule_view rule.entry.now) (chars name))) }
{
    if skips(rule, names) {
        add_calls(alloc, rule, called)?;
    }
    Ok(())
}

/// Whether blanks are skipped between the parts of a rule. The rules with the names `names` are called so.
pub(crate) fn skips(rule: &ParserRule<'_>, names: &HashSet<&str>) -> bool
    ensures { (f : Text → Bool) → HasNames f names.now → result ≡ spec.skips f (rule_view rule.now) }
{
    if needs_no_call(&rule.name) {
        return false;
    }
    match rule.ty {
        RuleType::Normal | RuleType::Silent => is_among(&rule.name, names),
        RuleType::NonAtomic => true,
        RuleType::Atomic | RuleType::CompoundAtomic => false,
    }
}

/// Whether a name is among these.
pub(crate) fn is_among(name: &String, names: &HashSet<&str>) -> bool
    ensures { (f : Text → Bool) → HasNames f names.now → result ≡ f (text_of name.now) }
{
    names.contains(&name.as_str())
}
