//! Nodes that are suspect by themselves: ranges, counts, tests and sequences that do not do what they look
//! like.
ghost use Rattle.std.specs.Prelude.{◌≡◌, ◌++◌, IfOk, OnOk, map};
ghost use Rattle.std.specs.Str.{chars};
ghost use Rattle.base_ast.specs.Ast.{text_of};
ghost use Rattle.front_spanned.specs.Nodes.{piece_of, rule_views, view};
ghost use Rattle.lint_warnings.specs.Suspects as spec;

use crate::ranges::is_reversed;
use crate::rules::is_named;
use base_language::runtime::Span;
use front_names::{Builtin, CharSet};
use front_spanned::{ParserExpr, ParserNode, ParserRule, push_operands};
use std::alloc::{AllocError, Global};

/// Why a node is suspect.
#[derive(Clone, Copy, Debug, PartialEq, Eq)]
pub enum Suspect {
    /// A range whose first bound is above its last, as `'z'..'a'`, which matches nothing.
    ReversedRange,
    /// A count whose first number is above its last, as `e{3,1}`: `e` is repeated as often as the last says.
    ReversedCount,
    /// A test of what cannot fail, as `&e*`, or an option of it, as `e*?`.
    IdleTest,
    /// An expression that matches nowhere, as `!e*`, and `ANY*` before a literal.
    Unmatchable,
    /// A call that reads the stack, as `POP`: no bound is known for the time of matches.
    StackRead,
}

/// The spans of the nodes that are suspect for a reason, in the order of the text. The only error is an
/// allocation failure. The time is linear in the rules.
pub fn suspect_spans<'i>(
    alloc: Global,
    reason: Suspect,
    rules: &[ParserRule<'i>],
) -> Result<Vec<Span<'i>>, AllocError>
    ensures { IfOk result (λ found.
        map piece_of found.items ≡ spec.suspects reason (rule_views rules.now)) }
{
    let mut found = Vec::new(alloc);
    for rule in rules {
        add_of_body(alloc, reason, &rule.node, &mut found)?;
    }
    Ok(found)
}

/// Adds the spans of the suspect nodes of a body.
fn add_of_body<'i>(
    alloc: Global,
    reason: Suspect,
    body: &ParserNode<'i>,
    found: &mut Vec<Span<'i>>,
) -> Result<(), AllocError>
    ensures { OnOk result (map piece_of found.new.items
        ≡ map piece_of found.old.items ++ spec.suspects_in reason (view body.now)) }
{
    let mut stack = Vec::new(alloc);
    stack.push(body)?;
    while let Some(next) = stack.pop() {
        add_where_suspect(reason, next, found)?;
        push_operands(next, &mut stack)?;
    }
    Ok(())
}

/// Adds the span of a node that is suspect.
fn add_where_suspect<'i>(
    reason: Suspect,
    node: &ParserNode<'i>,
    found: &mut Vec<Span<'i>>,
) -> Result<(), AllocError>
    ensures { OnOk result (map piece_of found.new.items
        ≡ map piece_of found.old.items ++ spec.suspects_at reason (view node.now)) }
{
    if is_suspect(reason, node) {
        found.push(node.span)?;
    }
    Ok(())
}

/// Whether a node is suspect for a reason.
fn is_suspect(reason: Suspect, node: &ParserNode<'_>) -> bool
    ensures { result ≡ spec.is_suspect reason (view node.now) }
{
    match reason {
        Suspect::ReversedRange => is_reversed(node),
        Suspect::ReversedCount => has_reversed_count(node),
        Suspect::IdleTest => is_idle_test(node),
        Suspect::Unmatchable => is_unmatchable(node),
        Suspect::StackRead => is_stack_read(node),
    }
}

/// Whether a node is a count whose first number is above its last.
fn has_reversed_count(node: &ParserNode<'_>) -> bool
    ensures { result ≡ spec.has_reversed_count (view node.now) }
{
    match &node.expr {
        ParserExpr::RepMinMax(_, least, most) => *most < *least,
        _ => false,
    }
}

/// Whether a node is a test or an option of what cannot fail.
fn is_idle_test(node: &ParserNode<'_>) -> bool
    ensures { result ≡ spec.is_idle_test (view node.now) }
{
    match &node.expr {
        ParserExpr::PosPred(inner) | ParserExpr::Opt(inner) => is_optional(inner),
        _ => false,
    }
}

/// Whether a node matches nowhere.
fn is_unmatchable(node: &ParserNode<'_>) -> bool
    ensures { result ≡ spec.is_unmatchable (view node.now) }
{
    match &node.expr {
        ParserExpr::NegPred(inner) => is_optional(inner),
        ParserExpr::Seq(left, right) => takes_rest(left) && takes_character(right),
        _ => false,
    }
}

/// Whether a node reads the stack.
fn is_stack_read(node: &ParserNode<'_>) -> bool
    ensures { result ≡ spec.is_stack_read (view node.now) }
{
    match &node.expr {
        ParserExpr::PeekSlice(_, _) => true,
        ParserExpr::Ident(name) => reads_stack(name),
        _ => false,
    }
}

/// Whether a name is that of a builtin which reads the stack.
fn reads_stack(name: &String) -> bool
    ensures { result ≡ spec.reads_stack (text_of name.now) }
{
    is_named(name, Builtin::Peek)
        || is_named(name, Builtin::PeekAll)
        || is_named(name, Builtin::Pop)
        || is_named(name, Builtin::PopAll)
        || is_named(name, Builtin::Drop)
}

/// Whether a node cannot fail, as an option and a repetition that may be of no turns.
fn is_optional(node: &ParserNode<'_>) -> bool
    ensures { result ≡ spec.is_optional (view node.now) }
{
    match &node.expr {
        ParserExpr::Opt(_) | ParserExpr::Rep(_) | ParserExpr::RepMax(_, _) => true,
        _ => false,
    }
}

/// Whether a node ends with `ANY*` or `ANY+`, after which nothing is left.
fn takes_rest(node: &ParserNode<'_>) -> bool
    ensures { result ≡ spec.takes_rest (view node.now) }
{
    let mut last = node;
    'parts: loop {
        match &last.expr {
            ParserExpr::Seq(_, right) => last = right,
            _ => return repeats_any(last),
        }
    }
}

/// Whether a node is `ANY*` or `ANY+`.
fn repeats_any(node: &ParserNode<'_>) -> bool
    ensures { result ≡ spec.repeats_any (view node.now) }
{
    match &node.expr {
        ParserExpr::Rep(inner) | ParserExpr::RepOnce(inner) => is_any(inner),
        _ => false,
    }
}

/// Whether a node begins with what takes a character: a literal, a range or `ANY`.
fn takes_character(node: &ParserNode<'_>) -> bool
    ensures { result ≡ spec.takes_character (view node.now) }
{
    let mut first = node;
    'parts: loop {
        match &first.expr {
            ParserExpr::Seq(left, _) => first = left,
            _ => return is_character(first),
        }
    }
}

/// Whether a node is a literal that is not empty, a range or `ANY`.
fn is_character(node: &ParserNode<'_>) -> bool
    ensures { result ≡ spec.is_character (view node.now) }
{
    match &node.expr {
        ParserExpr::Str(text) | ParserExpr::Insens(text) => has_character(text.as_str()),
        ParserExpr::Range(_, _) => true,
        _ => is_any(node),
    }
}

/// Whether a text is not empty.
fn has_character(text: &str) -> bool
    ensures { result ≡ spec.has_character (chars text.now) }
{
    match text.chars().next() {
        Some(_) => true,
        None => false,
    }
}

/// Whether a node is the builtin `ANY`.
pub fn is_any(node: &ParserNode<'_>) -> bool
    ensures { result ≡ spec.is_any (view node.now) }
{
    match &node.expr {
        ParserExpr::Ident(name) => is_named(name, Builtin::Set(CharSet::Any)),
        _ => false,
    }
}
