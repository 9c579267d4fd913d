//! Starts that never ask for the end of a text.
ghost use Rattle.std.specs.Prelude.{◌≡◌, ◌++◌, ◌==◌, ◌&&◌, ◌||◌, Bool, IfOk, OnOk, List, ℕ, flat_map, length, map, nat_lt, true};
ghost use Rattle.std.specs.Str.{IsUtf8, chars};
ghost use Rattle.base_ast.specs.Ast.{text_of};
ghost use Rattle.base_language.specs.Language.Builtins.{is_one_of};
ghost use Rattle.base_language.specs.Language.Text.{Text};
ghost use Rattle.front_spanned.specs.Nodes.{piece_of, rule_view, rule_views, view};
ghost use Rattle.lint_patterns.specs.Ends as spec;
ghost use Rattle.lint_warnings.specs.Lists.{HasNames, has_name, texts_of};
ghost use Rattle.lint_warnings.specs.Rules.{needs_no_call};

use crate::names::is_among;
use base_language::runtime::Span;
use front_names::Builtin;
use front_spanned::{ParserExpr, ParserNode, ParserRule, push_operands};
use lint_warnings::{add_name, is_any, is_blank_name, is_named, is_start, names_of, needed_names};
use std::alloc::{AllocError, Global};
use std::collections::HashSet;

/// Calls in a chain that are followed to the end of a text, and one more.
const LONGEST_CHAIN: usize = 32;

/// The spans of the names of starts that never ask for the end of a text, so that matching leaves the rest of
/// some texts, in order. A start is a rule that no other rule calls, if it calls `SOI` or is the only such
/// rule of several. `EOI`, `!ANY`, `ANY*` and `ANY+` ask for the end, in it or by a chain of at most 32
/// calls. If `starts` names several rules and no rule asks for the end, there are none. The only error is an
/// allocation failure. The time is linear in the rules.
pub fn open_starts<'n, 'i>(
    alloc: Global,
    rules: &'n [ParserRule<'i>],
    starts: &'n [&'n str],
) -> Result<Vec<Span<'i>>, AllocError>
    ensures { IfOk result (λ found. map piece_of found.items
        ≡ spec.open_starts (texts_of starts.entry.now) (rule_views rules.entry.now)) }
{
    if wants_fronts(alloc, &*rules, starts)? {
        return Ok(Vec::new(alloc));
    }
    let called = needed_names(alloc, &*rules, &[])?;
    let asking = asking_names(alloc, &*rules)?;
    let entries = entry_spans(alloc, &*rules, &called)?;
    let is_only = is_only_entry(&*rules, &entries);
    open_among(alloc, rules, &called, &asking, is_only)
}

/// Whether exactly one of several rules is an entry. `entries` has the spans of the entries.
fn is_only_entry(rules: &[ParserRule<'_>], entries: &[Span<'_>]) -> bool
    ensures { result ≡ (nat_lt 1 (length rules.now) && length entries.now == 1) }
{
    rules.len() > 1 && entries.len() == 1
}

/// Whether several rules have names that are given as starts, and no rule asks for the end.
fn wants_fronts<'n, 'i>(
    alloc: Global,
    rules: &'n [ParserRule<'i>],
    starts: &'n [&'n str],
) -> Result<bool, AllocError>
    ensures { IfOk result (λ answer. answer
        ≡ spec.wants_fronts (texts_of starts.entry.now) (rule_views rules.entry.now)) }
{
    let names = names_of(alloc, starts)?;
    let named = named_spans(alloc, &*rules, &names)?;
    let has_end = uses_end(alloc, rules)?;
    Ok(named.len() > 1 && !has_end)
}

/// The spans of the names of rules that have one of these names.
fn named_spans<'i>(
    alloc: Global,
    rules: &[ParserRule<'i>],
    names: &HashSet<&str>,
) -> Result<Vec<Span<'i>>, AllocError>
    ensures { IfOk result (λ found. (f : Text → Bool) → HasNames f names.now
        → map piece_of found.items ≡ flat_map (spec.named_at f) (rule_views rules.now)) }
{
    let mut found = Vec::new(alloc);
    for rule in rules {
        add_where_named(rule, names, &mut found)?;
    }
    Ok(found)
}

/// Adds the span of the name of such a rule.
fn add_where_named<'i>(
    rule: &ParserRule<'i>,
    names: &HashSet<&str>,
    found: &mut Vec<Span<'i>>,
) -> Result<(), AllocError>
    ensures { OnOk result ((f : Text → Bool) → HasNames f names.now → map piece_of found.new.items
        ≡ map piece_of found.old.items ++ spec.named_at f (rule_view rule.now)) }
{
    if is_among(&rule.name, names) {
        found.push(rule.span)?;
    }
    Ok(())
}

/// Whether a rule asks for the end of the text by itself.
fn uses_end(alloc: Global, rules: &[ParserRule<'_>]) -> Result<bool, AllocError>
    ensures { IfOk result (λ answer. answer ≡ spec.uses_end (rule_views rules.now)) }
{
    let none = HashSet::new(alloc);
    for rule in rules {
        if asks_end(alloc, rule, &none)? {
            return Ok(true);
        }
    }
    Ok(false)
}

/// The names of rules that ask for the end of the text, by a chain of fewer than `LONGEST_CHAIN` calls. The
/// first round that finds the same names as the one before is the last.
fn asking_names<'n, 'i>(
    alloc: Global,
    rules: &'n [ParserRule<'i>],
) -> Result<HashSet<&'n str>, AllocError>
    ensures { IfOk result (HasNames (spec.is_asking 32 (rule_views rules.entry.now))) }
{
    let mut names = HashSet::new(alloc);
    for _calls in 0..LONGEST_CHAIN {
        let found = names_asking(alloc, rules, &names)?;
        if have_same_names(&found, &names) {
            return Ok(names);
        }
        names = found;
    }
    Ok(names)
}

/// Whether two sets have the same names.
fn have_same_names(names: &HashSet<&str>, others: &HashSet<&str>) -> bool
    ensures { result ≡ true → (name : List ℕ) → has_name names.now name ≡ has_name others.now name }
{
    names == others
}

/// Returns the names of rules that ask for the end of the text. The rules with the names `known` are known
/// to.
fn names_asking<'n, 'i>(
    alloc: Global,
    rules: &'n [ParserRule<'i>],
    known: &HashSet<&str>,
) -> Result<HashSet<&'n str>, AllocError>
    ensures { IfOk result (λ names. (f : Text → Bool) → HasNames f known.now
        → HasNames (spec.is_asking_by f (rule_views rules.entry.now)) names) }
{
    let mut names = HashSet::new(alloc);
    for rule in rules {
        add_asking(alloc, rule, known, &mut names)?;
    }
    Ok(names)
}

/// Adds the name of a rule that asks for the end of the text.
fn add_asking<'n, 'i>(
    alloc: Global,
    rule: &'n ParserRule<'i>,
    known: &HashSet<&str>,
    names: &mut HashSet<&'n str>,
) -> Result<(), AllocError>
    ensures { OnOk result ((f : Text → Bool) → HasNames f known.now → (name : List ℕ) → IsUtf8 name
        → has_name names.new name
        ≡ (has_name names.old name || is_one_of (spec.asking_at f (rule_view rule.entry.now)) (chars name))) }
{
    if asks_end(alloc, rule, known)? {
        add_name(rule.name.as_str(), names)?;
    }
    Ok(())
}

/// Whether a rule asks for the end of the text. The rules with the names `known` are known to.
fn asks_end(alloc: Global, rule: &ParserRule<'_>, known: &HashSet<&str>) -> Result<bool, AllocError>
    ensures { IfOk result (λ answer. (f : Text → Bool) → HasNames f known.now
        → answer ≡ spec.asks_end f (rule_view rule.now)) }
{
    let mut stack = Vec::new(alloc);
    stack.push(&rule.node)?;
    while let Some(next) = stack.pop() {
        if asks_at(next, known) {
            return Ok(true);
        }
        push_operands(next, &mut stack)?;
    }
    Ok(false)
}

/// Whether a node asks for the end of the text: as a call, or as `!ANY`, `ANY*` or `ANY+`.
fn asks_at(node: &ParserNode<'_>, known: &HashSet<&str>) -> bool
    ensures { (f : Text → Bool) → HasNames f known.now → result ≡ spec.asks_at f (view node.now) }
{
    match &node.expr {
        ParserExpr::Ident(name) => is_named(name, Builtin::Eoi) || is_among(name, known),
        ParserExpr::NegPred(inner) => is_any(inner),
        ParserExpr::Rep(inner) | ParserExpr::RepOnce(inner) => is_any(inner),
        _ => false,
    }
}

/// The spans of the names of rules that no other rule calls, except for those that are skipped between
/// others.
fn entry_spans<'i>(
    alloc: Global,
    rules: &[ParserRule<'i>],
    called: &HashSet<&str>,
) -> Result<Vec<Span<'i>>, AllocError>
    ensures { IfOk result (λ found. (f : Text → Bool) → HasNames f called.now
        → map piece_of found.items ≡ flat_map (spec.entry_at f) (rule_views rules.now)) }
{
    let mut found = Vec::new(alloc);
    for rule in rules {
        add_where_entry(rule, called, &mut found)?;
    }
    Ok(found)
}

/// Adds the span of the name of such a rule.
fn add_where_entry<'i>(
    rule: &ParserRule<'i>,
    called: &HashSet<&str>,
    found: &mut Vec<Span<'i>>,
) -> Result<(), AllocError>
    ensures { OnOk result ((f : Text → Bool) → HasNames f called.now → map piece_of found.new.items
        ≡ map piece_of found.old.items ++ spec.entry_at f (rule_view rule.now)) }
{
    if is_entry(rule, called) {
        found.push(rule.span)?;
    }
    Ok(())
}

/// Whether no other rule calls a rule, and it is not skipped between others.
fn is_entry(rule: &ParserRule<'_>, called: &HashSet<&str>) -> bool
    ensures { (f : Text → Bool) → HasNames f called.now → result ≡ spec.is_entry f (rule_view rule.now) }
{
    !is_skipped(&rule.name) && !is_among(&rule.name, called)
}

/// Whether a name is that of a rule which is skipped between others.
fn is_skipped(name: &String) -> bool
    ensures { result ≡ needs_no_call (text_of name.now) }
{
    is_blank_name(name.as_str())
}

/// Returns the spans of the names of starts that never ask for the end. The rules with the names `called` are
/// called, and those with the names `asking` ask for the end. `is_only` says whether exactly one rule is an
/// entry.
fn open_among<'i>(
    alloc: Global,
    rules: &[ParserRule<'i>],
    called: &HashSet<&str>,
    asking: &HashSet<&str>,
    is_only: bool,
) -> Result<Vec<Span<'i>>, AllocError>
    ensures { IfOk result (λ found. (f g : Text → Bool) → HasNames f called.now → HasNames g asking.now
        → map piece_of found.items ≡ flat_map (spec.open_at f g is_only) (rule_views rules.now)) }
{
    let mut found = Vec::new(alloc);
    for rule in rules {
        add_where_open(alloc, rule, called, asking, is_only, &mut found)?;
    }
    Ok(found)
}

/// Adds the span of the name of such a start.
fn add_where_open<'i>(
    alloc: Global,
    rule: &ParserRule<'i>,
    called: &HashSet<&str>,
    asking: &HashSet<&str>,
    is_only: bool,
    found: &mut Vec<Span<'i>>,
) -> Result<(), AllocError>
    ensures { OnOk result ((f g : Text → Bool) → HasNames f called.now → HasNames g asking.now
        → map piece_of found.new.items
        ≡ map piece_of found.old.items ++ spec.open_at f g is_only (rule_view rule.now)) }
{
    if is_open(alloc, rule, called, asking, is_only)? {
        found.push(rule.span)?;
    }
    Ok(())
}

/// Whether a rule is a start that never asks for the end.
fn is_open(
    alloc: Global,
    rule: &ParserRule<'_>,
    called: &HashSet<&str>,
    asking: &HashSet<&str>,
    is_only: bool,
) -> Result<bool, AllocError>
    ensures { IfOk result (λ answer. (f g : Text → Bool) → HasNames f called.now → HasNames g asking.now
        → answer ≡ spec.is_open f g is_only (rule_view rule.now)) }
{
    if !is_entry(rule, called) {
        return Ok(false);
    }
    let calls_end = is_start(alloc, rule)?;
    let has_end = asks_end(alloc, rule, asking)?;
    Ok((is_only || calls_end) && !has_end)
}
