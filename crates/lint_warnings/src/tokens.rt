//! Repetitions of characters between which blanks are skipped.
ghost use Rattle.std.specs.Prelude.{◌≡◌, ◌++◌, ◌||◌, Bool, IfOk, OnOk, List, ℕ, Some, flat_map, map, option_map, take};
ghost use Rattle.front_names.specs.Builtins.{meaning_of};
ghost use Rattle.std.specs.Str.{IsUtf8, chars};
ghost use Rattle.base_ast.specs.Ast.{text_of};
ghost use Rattle.base_language.specs.Language.Builtins.{builtin_of, is_one_of};
ghost use Rattle.base_language.specs.Language.Text.{Text};
ghost use Rattle.front_spanned.specs.Nodes.{piece_of, rule_view, rule_views, type_of, view};
ghost use Rattle.lint_warnings.specs.Lists.{HasNames, has_name};
ghost use Rattle.lint_warnings.specs.Tokens as spec;

use crate::rules::{add_name, is_named, needs_no_call};
use crate::skipping::{is_among, reached_names, roots_of, skips};
use base_ast::ast::RuleType;
use base_language::runtime::Span;
use front_names::{Builtin, CharSet, is_builtin};
use front_spanned::{ParserExpr, ParserNode, ParserRule, push_operands};
use std::alloc::{AllocError, Global};
use std::collections::HashSet;

/// Calls in a chain that are followed to a class of characters, at most.
const LONGEST_CLASS: usize = 8;

/// Returns the spans of repetitions of characters between which blanks are skipped. An example is
/// `ASCII_DIGIT+` in a rule without `@`, if `WHITESPACE` is defined: it matches `1 2`. The spans are in text
/// order, and only the first one of each rule is returned. A rule is considered if a chain of at most 32
/// calls leads to it from a start, and if its type is not `!`. The only error is an allocation failure. The
/// time is linear in the number of nodes of the rules.
pub fn blanks_in_tokens<'i>(
    alloc: Global,
    rules: &[ParserRule<'i>],
) -> Result<Vec<Span<'i>>, AllocError>
    ensures { IfOk result (λ found.
        map piece_of found.items ≡ spec.blanks_in_tokens (rule_views rules.now)) }
{
    if !defines_blanks(rules) {
        return Ok(Vec::new(alloc));
    }
    let roots = roots_of(alloc, &*rules)?;
    let called = reached_names(alloc, &*rules, &roots)?;
    let classes = class_rules(alloc, &*rules)?;
    loose_among(alloc, rules, &called, &classes)
}

/// Whether a rule for blanks is defined.
fn defines_blanks(rules: &[ParserRule<'_>]) -> bool
    ensures { result ≡ spec.defines_blanks (rule_views rules.now) }
{
    for rule in rules {
        if needs_no_call(&rule.name) {
            return true;
        }
    }
    false
}

/// The names of rules that are classes of characters, by a chain of fewer than `LONGEST_CLASS` calls.
fn class_rules<'n, 'i>(
    alloc: Global,
    rules: &'n [ParserRule<'i>],
) -> Result<HashSet<&'n str>, AllocError>
    ensures { IfOk result (HasNames (spec.is_class_rule 8 (rule_views rules.entry.now))) }
{
    let mut names = HashSet::new(alloc);
    for _calls in 0..LONGEST_CLASS {
        names = class_names(alloc, rules, &names)?;
    }
    Ok(names)
}

/// Returns the names of rules that are classes of characters. Those with the names `names` are known to be.
fn class_names<'n, 'i>(
    alloc: Global,
    rules: &'n [ParserRule<'i>],
    known: &HashSet<&str>,
) -> Result<HashSet<&'n str>, AllocError>
    ensures { IfOk result (λ names. (f : Text → Bool) → HasNames f known.now
        → HasNames (spec.is_class_by f (rule_views rules.entry.now)) names) }
{
    let mut names = HashSet::new(alloc);
    for rule in rules {
        add_class(alloc, rule, known, &mut names)?;
    }
    Ok(names)
}

/// Adds the name of a rule that is a class of characters.
fn add_class<'n, 'i>(
    alloc: Global,
    rule: &'n ParserRule<'i>,
    known: &HashSet<&str>,
    names: &mut HashSet<&'n str>,
) -> Result<(), AllocError>
    ensures { OnOk result ((f : Text → Bool) → HasNames f known.now → (name : List ℕ) → IsUtf8 name
        → has_name names.new name
        ≡ (has_name names.old name || is_one_of (spec.class_at f (rule_view rule.entry.now)) (chars name))) }
{
    if is_class(alloc, &rule.node, known)? {
        add_name(rule.name.as_str(), names)?;
    }
    Ok(())
}

/// Returns the spans of repetitions of classes in rules that skip blanks. The rules with the names `called`
/// are called so.
fn loose_among<'i>(
    alloc: Global,
    rules: &[ParserRule<'i>],
    called: &HashSet<&str>,
    classes: &HashSet<&str>,
) -> Result<Vec<Span<'i>>, AllocError>
    ensures { IfOk result (λ found. (f g : Text → Bool) → HasNames f called.now → HasNames g classes.now
        → map piece_of found.items ≡ flat_map (spec.loose_in_rule f g) (rule_views rules.now)) }
{
    let mut found = Vec::new(alloc);
    for rule in rules {
        add_of_rule(alloc, rule, called, classes, &mut found)?;
    }
    Ok(found)
}

/// Adds the span of the first repetition of a class in a rule, if it skips blanks and is not marked so.
fn add_of_rule<'i>(
    alloc: Global,
    rule: &ParserRule<'i>,
    called: &HashSet<&str>,
    classes: &HashSet<&str>,
    found: &mut Vec<Span<'i>>,
) -> Result<(), AllocError>
    ensures { OnOk result ((f g : Text → Bool) → HasNames f called.now → HasNames g classes.now
        → map piece_of found.new.items
        ≡ map piece_of found.old.items ++ spec.loose_in_rule f g (rule_view rule.now)) }
{
    if skips_unasked(rule, called) {
        let spans = repetitions_in(alloc, &rule.node, classes)?;
        push_first(&spans, found)?;
    }
    Ok(())
}

/// Adds the first of some spans, if there is one.
fn push_first<'i>(spans: &[Span<'i>], found: &mut Vec<Span<'i>>) -> Result<(), AllocError>
    ensures { OnOk result (map piece_of found.new.items
        ≡ map piece_of found.old.items ++ take 1 (map piece_of spans.now)) }
{
    match spans.first() {
        Some(first) => found.push(*first)?,
        None => {}
    }
    Ok(())
}

/// Whether blanks are skipped between the parts of a rule, as by `skips`, and no `!` marks it so.
fn skips_unasked(rule: &ParserRule<'_>, called: &HashSet<&str>) -> bool
    ensures { (f : Text → Bool) → HasNames f called.now → result ≡ spec.skips_unasked f (rule_view rule.now) }
{
    !is_marked(rule.ty) && skips(rule, called)
}

/// Whether a type is that of rules which `!` marks.
fn is_marked(ty: RuleType) -> bool
    ensures { result ≡ spec.is_marked (type_of ty) }
{
    match ty {
        RuleType::NonAtomic => true,
        RuleType::Normal | RuleType::Silent => false,
        RuleType::Atomic | RuleType::CompoundAtomic => false,
    }
}

/// The spans of repetitions of classes in a body.
fn repetitions_in<'i>(
    alloc: Global,
    body: &ParserNode<'i>,
    classes: &HashSet<&str>,
) -> Result<Vec<Span<'i>>, AllocError>
    ensures { IfOk result (λ found. (f : Text → Bool) → HasNames f classes.now
        → map piece_of found.items ≡ spec.repetitions_in f (view body.now)) }
{
    let mut found = Vec::new(alloc);
    let mut stack = Vec::new(alloc);
    stack.push(body)?;
    while let Some(next) = stack.pop() {
        add_where_class(alloc, next, classes, &mut found)?;
        push_operands(next, &mut stack)?;
    }
    Ok(found)
}

/// Adds the span of a node that repeats a class.
fn add_where_class<'i>(
    alloc: Global,
    node: &ParserNode<'i>,
    classes: &HashSet<&str>,
    found: &mut Vec<Span<'i>>,
) -> Result<(), AllocError>
    ensures { OnOk result ((f : Text → Bool) → HasNames f classes.now → map piece_of found.new.items
        ≡ map piece_of found.old.items ++ spec.repetition_at f (view node.now)) }
{
    if repeats_class(alloc, node, classes)? {
        found.push(node.span)?;
    }
    Ok(())
}

/// Whether a node repeats a class.
fn repeats_class(
    alloc: Global,
    node: &ParserNode<'_>,
    classes: &HashSet<&str>,
) -> Result<bool, AllocError>
    ensures { IfOk result (λ answer. (f : Text → Bool) → HasNames f classes.now
        → answer ≡ spec.repeats_class f (view node.now)) }
{
    match repeated_operand(node) {
        Some(inner) => is_class(alloc, inner, classes),
        None => Ok(false),
    }
}

/// The operand that a node repeats, if it may be more than once.
fn repeated_operand<'n, 'i>(node: &'n ParserNode<'i>) -> Option<&'n ParserNode<'i>>
    ensures { option_map (λ inner. view inner.now) result ≡ spec.repeated_operand (view node.entry.now) }
{
    match &node.expr {
        ParserExpr::Rep(inner) | ParserExpr::RepOnce(inner) => Some(inner),
        ParserExpr::RepMin(inner, _) => Some(inner),
        ParserExpr::RepExact(inner, most) | ParserExpr::RepMax(inner, most) if *most > 1 => Some(
            inner,
        ),
        ParserExpr::RepMinMax(inner, _, most) if *most > 1 => Some(inner),
        _ => None,
    }
}

/// Whether a node is a class of characters: ranges, builtins, rules of the names `classes` and literals of
/// one character, of which not all are literals.
fn is_class(
    alloc: Global,
    node: &ParserNode<'_>,
    classes: &HashSet<&str>,
) -> Result<bool, AllocError>
    ensures { IfOk result (λ answer. (f : Text → Bool) → HasNames f classes.now
        → answer ≡ spec.is_class f (view node.now)) }
{
    let mut has_class = false;
    let mut stack = Vec::new(alloc);
    stack.push(node)?;
    while let Some(next) = stack.pop() {
        if !is_part(next, classes) {
            return Ok(false);
        }
        has_class |= is_class_node(next, classes);
        push_operands(next, &mut stack)?;
    }
    Ok(has_class)
}

/// Whether a node is a class, a literal of one character or a choice.
fn is_part(node: &ParserNode<'_>, classes: &HashSet<&str>) -> bool
    ensures { (f : Text → Bool) → HasNames f classes.now → result ≡ spec.is_part f (view node.now) }
{
    is_class_node(node, classes) || is_letter_or_choice(node)
}

/// Whether a node is a range, a builtin that is a set of characters, or a call of one of these names.
fn is_class_node(node: &ParserNode<'_>, classes: &HashSet<&str>) -> bool
    ensures { (f : Text → Bool) → HasNames f classes.now → result ≡ spec.is_class_node f (view node.now) }
{
    match &node.expr {
        ParserExpr::Range(_, _) => true,
        ParserExpr::Ident(name) => is_class_name(name) || is_among(name, classes),
        _ => false,
    }
}

/// Whether a name is a builtin's that is a set of characters, but `ANY` and `ASCII`.
fn is_class_name(name: &String) -> bool
    ensures { result ≡ spec.is_class_name (text_of name.now) }
{
    !is_named(name, Builtin::Set(CharSet::Any))
        && !is_named(name, Builtin::Set(CharSet::Ascii))
        && is_set_name(name)
}

/// Whether a name is a builtin's that is a set of characters.
fn is_set_name(name: &String) -> bool
    ensures { result ≡ spec.is_set (builtin_of (text_of name.now)) }
{
    let text = name.as_str();
    match Builtin::from_name(text) {
        Some(builtin) => is_set(builtin),
        None => is_builtin(text),
    }
}

/// Whether a builtin is a set of characters.
fn is_set(builtin: Builtin) -> bool
    ensures { result ≡ spec.is_set (Some (meaning_of builtin)) }
{
    match builtin {
        Builtin::Set(_) => true,
        Builtin::Soi
        | Builtin::Eoi
        | Builtin::Newline
        | Builtin::Peek
        | Builtin::Pop
        | Builtin::Drop
        | Builtin::PeekAll
        | Builtin::PopAll => false,
    }
}

/// Whether a node is a literal of one character, or a choice.
fn is_letter_or_choice(node: &ParserNode<'_>) -> bool
    ensures { result ≡ spec.is_letter_or_choice (view node.now) }
{
    match &node.expr {
        ParserExpr::Str(text) | ParserExpr::Insens(text) => is_single(text.as_str()),
        ParserExpr::Choice(_, _) => true,
        _ => false,
    }
}

/// Whether a text is one character.
fn is_single(text: &str) -> bool
    ensures { result ≡ spec.is_single (chars text.now) }
{
    let mut characters = text.chars();
    match characters.next() {
        Some(_) => characters.as_str().is_empty(),
        None => false,
    }
}
