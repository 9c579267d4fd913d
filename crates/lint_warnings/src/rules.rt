//! Rules that no other rule calls.
ghost use Rattle.std.specs.Prelude.{◌≡◌, ◌≤◌, ◌++◌, ◌&&◌, ◌||◌, Bool, IfOk, OnOk, List, ℕ, bytes_eq, drop, flat_map, length, map, not};
ghost use Rattle.std.specs.Str.{IsAscii, IsUtf8, chars, str_eq_ignore_ascii_case};
ghost use Rattle.base_ast.specs.Ast.{text_of};
ghost use Rattle.base_language.specs.Language.Builtins.{is_one_of};
ghost use Rattle.base_language.specs.Language.Text.{Text};
ghost use Rattle.front_names.specs.Builtins.{name_of};
ghost use Rattle.front_spanned.specs.Nodes.{piece_of, rule_view, rule_views, view};
ghost use Rattle.lint_warnings.specs.Lists.{HasNames, has_name, texts_of};
ghost use Rattle.lint_warnings.specs.Rules as spec;

use base_ast::texts::same_text;
use base_language::runtime::Span;
use front_names::{Builtin, comment_name, whitespace_name};
use front_spanned::{ParserExpr, ParserNode, ParserRule, push_operands};
use std::alloc::{AllocError, Global};
use std::collections::HashSet;

/// The spans of the names of rules that are not needed, in order. A rule is needed if a rule of another name
/// calls it, if it is among `starts`, if it calls `SOI` or `EOI`, or if it is `WHITESPACE` or `COMMENT`. If
/// no rule calls `SOI` or `EOI`, the first rule but these two is taken for the start; if it is needed, the
/// start is unknown, and there are none. The only error is an allocation failure.
pub fn uncalled_rules<'n, 'i>(
    alloc: Global,
    rules: &'n [ParserRule<'i>],
    starts: &'n [&'n str],
) -> Result<Vec<Span<'i>>, AllocError>
    ensures { IfOk result (λ found. map piece_of found.items
        ≡ spec.uncalled_rules (texts_of starts.entry.now) (rule_views rules.entry.now)) }
{
    let needed = needed_names(alloc, rules, starts)?;
    if knows_start(&needed) {
        uncalled_among(alloc, rules, &needed)
    } else {
        let first = first_judged(rules, &needed);
        uncalled_among(alloc, &rules[first..], &needed)
    }
}

/// Whether one of these names is a builtin at an end of the text.
fn knows_start(needed: &HashSet<&str>) -> bool
    ensures { (f : Text → Bool) → HasNames f needed.now → result ≡ spec.knows_start f }
{
    has_builtin(needed, Builtin::Soi) || has_builtin(needed, Builtin::Eoi)
}

/// Whether the name of a builtin is among these names.
fn has_builtin(needed: &HashSet<&str>, builtin: Builtin) -> bool
    ensures { (f : Text → Bool) → HasNames f needed.now → result ≡ f (name_of builtin) }
{
    needed.contains(&builtin.name())
}

/// The index after the first rule that is no `WHITESPACE` or `COMMENT`, or the length if that one is needed
/// or there is none.
fn first_judged(rules: &[ParserRule<'_>], needed: &HashSet<&str>) -> usize
    ensures within { result ≤ length rules.now }
    ensures rest { (f : Text → Bool) → HasNames f needed.now
        → rule_views (drop result rules.now) ≡ spec.after_first f (rule_views rules.now) }
{
    for (i, rule) in rules.iter().enumerate() {
        if !needs_no_call(&rule.name) {
            return if is_needed(&rule.name, needed) {
                rules.len()
            } else {
                i + 1
            };
        }
    }
    rules.len()
}

/// Whether a name is among those that are needed.
fn is_needed(name: &String, needed: &HashSet<&str>) -> bool
    ensures { (f : Text → Bool) → HasNames f needed.now → result ≡ f (text_of name.now) }
{
    needed.contains(&name.as_str())
}

/// The spans of the names of those rules that are not needed.
fn uncalled_among<'i>(
    alloc: Global,
    others: &[ParserRule<'i>],
    needed: &HashSet<&str>,
) -> Result<Vec<Span<'i>>, AllocError>
    ensures { IfOk result (λ found. (f : Text → Bool) → HasNames f needed.now
        → map piece_of found.items ≡ flat_map (spec.uncalled_at f) (rule_views others.now)) }
{
    let mut found = Vec::new(alloc);
    for rule in others {
        add_where_uncalled(alloc, rule, needed, &mut found)?;
    }
    Ok(found)
}

/// The needed names. These are the starts, and the names that a rule of another name calls.
pub fn needed_names<'n, 'i>(
    alloc: Global,
    rules: &'n [ParserRule<'i>],
    starts: &'n [&'n str],
) -> Result<HashSet<&'n str>, AllocError>
    ensures { IfOk result
        (HasNames (spec.is_needed (texts_of starts.entry.now) (rule_views rules.entry.now))) }
{
    let mut needed = names_of(alloc, starts)?;
    for rule in rules {
        add_calls(alloc, rule, &mut needed)?;
    }
    Ok(needed)
}

/// The set of some names.
pub fn names_of<'n>(alloc: Global, names: &'n [&'n str]) -> Result<HashSet<&'n str>, AllocError>
    ensures { IfOk result (HasNames (is_one_of (texts_of names.entry.now))) }
{
    let mut set = HashSet::new(alloc);
    for name in names {
        add_name(*name, &mut set)?;
    }
    Ok(set)
}

/// Adds a name to a set.
pub fn add_name<'n>(name: &'n str, set: &mut HashSet<&'n str>) -> Result<(), AllocError>
    ensures { OnOk result ((other : List ℕ) → IsUtf8 other → has_name set.new other
        ≡ (has_name set.old other || bytes_eq (chars name.entry.now) (chars other))) }
{
    set.insert(name)?;
    Ok(())
}

/// Adds the names that a rule calls, except for its own.
pub(crate) fn add_calls<'n, 'i>(
    alloc: Global,
    rule: &'n ParserRule<'i>,
    called: &mut HashSet<&'n str>,
) -> Result<(), AllocError>
    ensures { OnOk result ((name : List ℕ) → IsUtf8 name → has_name called.new name
        ≡ (has_name called.old name || spec.calls_another (rule_view rule.entry.now) (chars name))) }
{
    let mut stack = Vec::new(alloc);
    stack.push(&rule.node)?;
    while let Some(next) = stack.pop() {
        add_call(&rule.name, next, called)?;
        push_operands(next, &mut stack)?;
    }
    Ok(())
}

/// Adds the name that a node calls, if it is a call of another name than this one.
fn add_call<'n, 'i>(
    own: &String,
    node: &'n ParserNode<'i>,
    called: &mut HashSet<&'n str>,
) -> Result<(), AllocError>
    ensures { OnOk result ((name : List ℕ) → IsUtf8 name → has_name called.new name
        ≡ (has_name called.old name || (not (bytes_eq (text_of own.now) (chars name))
        && is_one_of (spec.name_called (view node.entry.now)) (chars name)))) }
{
    if let ParserExpr::Ident(name) = &node.expr {
        if !same_text(name, own) {
            called.insert(name.as_str())?;
        }
    }
    Ok(())
}

/// Adds the span of a rule's name, if it is not needed.
fn add_where_uncalled<'i>(
    alloc: Global,
    rule: &ParserRule<'i>,
    needed: &HashSet<&str>,
    found: &mut Vec<Span<'i>>,
) -> Result<(), AllocError>
    ensures { OnOk result ((f : Text → Bool) → HasNames f needed.now → map piece_of found.new.items
        ≡ map piece_of found.old.items ++ spec.uncalled_at f (rule_view rule.now)) }
{
    if is_uncalled(alloc, rule, needed)? {
        found.push(rule.span)?;
    }
    Ok(())
}

/// Whether a rule is not needed, and no start.
fn is_uncalled(
    alloc: Global,
    rule: &ParserRule<'_>,
    needed: &HashSet<&str>,
) -> Result<bool, AllocError>
    ensures { IfOk result (λ answer. (f : Text → Bool) → HasNames f needed.now
        → answer ≡ spec.is_uncalled f (rule_view rule.now)) }
{
    if needs_no_call(&rule.name) || is_needed(&rule.name, needed) {
        return Ok(false);
    }
    let is_start = is_start(alloc, rule)?;
    Ok(!is_start)
}

/// Whether a rule calls `SOI` or `EOI`.
pub fn is_start(alloc: Global, rule: &ParserRule<'_>) -> Result<bool, AllocError>
    ensures { IfOk result (λ answer. answer ≡ spec.is_start (rule_view rule.now)) }
{
    let mut stack = Vec::new(alloc);
    stack.push(&rule.node)?;
    while let Some(next) = stack.pop() {
        if is_end(next) {
            return Ok(true);
        }
        push_operands(next, &mut stack)?;
    }
    Ok(false)
}

/// Whether a node is a call of `SOI` or `EOI`.
fn is_end(node: &ParserNode<'_>) -> bool
    ensures { result ≡ spec.names_end (spec.name_called (view node.now)) }
{
    match &node.expr {
        ParserExpr::Ident(name) => is_named(name, Builtin::Soi) || is_named(name, Builtin::Eoi),
        _ => false,
    }
}

/// Whether a name is a builtin's.
pub fn is_named(name: &String, builtin: Builtin) -> bool
    ensures { result ≡ bytes_eq (text_of name.now) (name_of builtin) }
{
    name.as_str() == builtin.name()
}

/// Whether a name is that of a rule which is skipped between others, without a call.
pub(crate) fn needs_no_call(name: &String) -> bool
    ensures { result ≡ spec.needs_no_call (text_of name.now) }
{
    is_blank_name(name.as_str())
}

/// Whether a name is `WHITESPACE` or `COMMENT`, whose rules are skipped between others without a call.
pub fn is_blank_name(name: &str) -> bool
    ensures { result ≡ spec.needs_no_call (chars name.now) }
{
    is_literal(name, whitespace_name()) || is_literal(name, comment_name())
}

/// Whether a name is one of these two except for the case of its letters.
pub fn is_blank_name_in_any_case(name: &str) -> bool
    ensures { result ≡ spec.is_blank_name_in_any_case name.now }
{
    is_literal_in_any_case(name, whitespace_name()) || is_literal_in_any_case(name, comment_name())
}

/// Whether a name is a literal's text.
fn is_literal(name: &str, literal: &str) -> bool
    requires { IsAscii literal.now }
    ensures { result ≡ bytes_eq (chars name.now) literal.now }
{
    name == literal
}

/// Whether a name is a literal's text except for the case of its letters.
fn is_literal_in_any_case(name: &str, literal: &str) -> bool
    ensures { result ≡ str_eq_ignore_ascii_case name.now literal.now }
{
    name.eq_ignore_ascii_case(literal)
}
