//! Alternatives that are never taken.
ghost use Rattle.std.specs.Prelude.{◌≡◌, ◌++◌, ◌+◌, ◌<◌, IfOk, OnOk, List, length, map};
ghost use Rattle.base_language.specs.Language.Builtins.{is_one_of};
ghost use Rattle.base_language.specs.Language.Text.{Text};
ghost use Rattle.front_spanned.specs.Erasure.{without_spans};
ghost use Rattle.front_spanned.specs.Nodes.{piece_of, rule_views, view};
ghost use Rattle.front_spanned.specs.Spanned.{Span as Piece, Spanned};
ghost use Rattle.front_spanned.specs.Walk.{preorder, waiting};
ghost use Rattle.lint_warnings.specs.Choices as spec;
ghost use Rattle.lint_warnings.specs.Choices.{alternatives, beginning_of, first_call_of};
ghost use Rattle.lint_warnings.specs.Groups.{pieces_of};
ghost use Rattle.lint_warnings.specs.Lists.{CollectsUnreachable, HasNames, Knows, left_over};

use crate::beginners::beginner_of;
use crate::literals::{Literals, beginning, call, first_call, literal};
use crate::nodes::{Operands, operands_of, push_both};
use crate::rules::add_name;
use base_language::runtime::Span;
use front_spanned::{ParserNode, ParserRule, push_operands};
use std::alloc::{AllocError, Global};
use std::collections::HashSet;

/// A choice with alternatives that are never taken.
#[derive(Drop)]
pub struct UnreachableChoice<'i> {
    /// The spans of these alternatives, in order.
    pub spans: Vec<Span<'i>>,
    /// The bytes of the alternative that begins the first of them.
    pub begun_by: Option<(usize, usize)>,
}

/// The spans of alternatives that are never taken, as by `unreachable_choices`, one after another.
pub fn unreachable_alternatives<'i>(
    alloc: Global,
    rules: &[ParserRule<'i>],
) -> Result<Vec<Span<'i>>, AllocError>
    ensures { IfOk result (λ found.
        map piece_of found.items ≡ spec.unreachable_alternatives (rule_views rules.now)) }
{
    let choices = unreachable_choices(alloc, rules)?;
    let mut found = Vec::new(alloc);
    for choice in &choices {
        add_spans(choice, &mut found)?;
    }
    Ok(found)
}

/// Adds the spans of a choice.
fn add_spans<'i>(
    choice: &UnreachableChoice<'i>,
    found: &mut Vec<Span<'i>>,
) -> Result<(), AllocError>
    ensures { OnOk result (map piece_of found.new.items
        ≡ map piece_of found.old.items ++ pieces_of choice.now) }
{
    found.extend_from_slice(choice.spans.as_slice())?;
    Ok(())
}

/// The choices with alternatives that are never taken, since one before them in their choice is a literal or
/// a call with which all that they match begins, as `"ab"` and `"a" ~ b` after `"a"`, and `a` and `a ~ b`
/// after `a`: rule by rule, and in a body choice by choice. A choice inside a choice is part of it. The only
/// error is an allocation failure.
///
/// For each alternative there is a look-up for each length that a literal of its choice has, so the time is
/// at most the text's length times the square root of that.
pub fn unreachable_choices<'i>(
    alloc: Global,
    rules: &[ParserRule<'i>],
) -> Result<Vec<UnreachableChoice<'i>>, AllocError>
    ensures { IfOk result (λ found.
        map pieces_of found.items ≡ spec.unreachable_choices (rule_views rules.now)) }
{
    let mut found = Vec::new(alloc);
    for rule in rules {
        add_of_body(alloc, &rule.node, &mut found)?;
    }
    Ok(found)
}

/// Adds what there is of a body: of the choice that it is, and of those that it contains.
fn add_of_body<'i>(
    alloc: Global,
    body: &ParserNode<'i>,
    found: &mut Vec<UnreachableChoice<'i>>,
) -> Result<(), AllocError>
    ensures { OnOk result (map pieces_of found.new.items
        ≡ map pieces_of found.old.items ++ spec.choices_in (view body.now)) }
{
    add_of_choice(alloc, body, found)?;
    let mut stack = Vec::new(alloc);
    stack.push(body)?;
    while let Some(next) = stack.pop() {
        add_of_parts(alloc, next, found)?;
        push_operands(next, &mut stack)?;
    }
    Ok(())
}

/// Adds what there is of the choices that the operands of a node are, if it is no choice itself.
fn add_of_parts<'i>(
    alloc: Global,
    node: &ParserNode<'i>,
    found: &mut Vec<UnreachableChoice<'i>>,
) -> Result<(), AllocError>
    ensures { OnOk result (map pieces_of found.new.items
        ≡ map pieces_of found.old.items ++ spec.choices_in_parts (view node.now)) }
{
    match operands_of(node) {
        Operands::None | Operands::Choice(_, _) => Ok(()),
        Operands::One(inner) => add_of_choice(alloc, inner, found),
        Operands::Sequence(left, right) => {
            add_of_choice(alloc, left, found)?;
            add_of_choice(alloc, right, found)
        }
    }
}

/// Adds a choice, if alternatives of it are never taken.
fn add_of_choice<'i>(
    alloc: Global,
    whole: &ParserNode<'i>,
    found: &mut Vec<UnreachableChoice<'i>>,
) -> Result<(), AllocError>
    ensures { OnOk result (map pieces_of found.new.items
        ≡ map pieces_of found.old.items ++ spec.choice_at (view whole.now)) }
{
    let spans = unreachable_where_choice(alloc, whole)?;
    if spans.as_slice().is_empty() {
        return Ok(());
    }
    let begun_by = beginner_of(alloc, whole, spans[0].start())?;
    found.push(UnreachableChoice { spans, begun_by })?;
    Ok(())
}

/// The spans of the alternatives of a node that are never taken. A node that is no choice has none.
fn unreachable_where_choice<'i>(
    alloc: Global,
    whole: &ParserNode<'i>,
) -> Result<Vec<Span<'i>>, AllocError>
    ensures { IfOk result (λ found. map piece_of found.items ≡ spec.unreachable_at (view whole.now)) }
{
    match operands_of(whole) {
        Operands::Choice(_, _) => unreachable_of(alloc, whole),
        _ => Ok(Vec::new(alloc)),
    }
}

/// The spans of the alternatives of a choice that are never taken.
fn unreachable_of<'i>(alloc: Global, whole: &ParserNode<'i>) -> Result<Vec<Span<'i>>, AllocError>
    ensures { IfOk result (λ found. map piece_of found.items ≡ spec.unreachable_at (view whole.now)) }
{
    let mut found = Vec::new(alloc);
    let mut literals = Literals::new(alloc);
    let mut calls = HashSet::new(alloc);
    let mut stack = Vec::new(alloc);
    stack.push(whole)?;
    while let Some(next) = stack.pop() {
        take_alternative(next, &mut stack, &mut literals, &mut calls, &mut found)?;
    }
    Ok(found)
}

/// Pushes both sides of a choice on a stack, the left one on top; any other node is the next alternative.
fn take_alternative<'n, 'i>(
    node: &'n ParserNode<'i>,
    stack: &mut Vec<&'n ParserNode<'i>>,
    literals: &mut Literals<'n>,
    calls: &mut HashSet<&'n str>,
    found: &mut Vec<Span<'i>>,
) -> Result<(), AllocError>
    ensures collected { OnOk result ((all : List Piece) (earlier : List Spanned)
        → CollectsUnreachable all earlier (alternatives (view node.entry.now) ++ left_over stack.old.items)
        literals.old calls.old (map piece_of found.old.items)
        → (later : List Spanned) × CollectsUnreachable all later (left_over stack.new.items)
        literals.new calls.new (map piece_of found.new.items)) }
    ensures less { OnOk result (length (waiting stack.new.items)
        < length (preorder (view node.entry.now)) + length (waiting stack.old.items)) }
{
    match operands_of(node) {
        Operands::Choice(left, right) => push_both(left, right, stack)?,
        _ => {
            add_where_begun(node, literals, calls, found)?;
            add_literal(node, literals)?;
            add_own_call(node, calls)?;
        }
    }
    Ok(())
}

/// Adds the span of an alternative that one of these literals or calls begins.
fn add_where_begun<'i>(
    alternative: &ParserNode<'i>,
    literals: &Literals<'_>,
    calls: &HashSet<&str>,
    found: &mut Vec<Span<'i>>,
) -> Result<(), AllocError>
    ensures { OnOk result ((texts names : List Text) → Knows texts literals.now
        → HasNames (is_one_of names) calls.now → map piece_of found.new.items
        ≡ map piece_of found.old.items ++ spec.span_if_begun texts names (view alternative.now)) }
{
    if is_begun(alternative, literals, calls) {
        found.push(alternative.span)?;
    }
    Ok(())
}

/// Whether one of these literals or calls begins all that an alternative matches.
fn is_begun(alternative: &ParserNode<'_>, literals: &Literals<'_>, calls: &HashSet<&str>) -> bool
    ensures { (texts names : List Text) → Knows texts literals.now → HasNames (is_one_of names) calls.now
        → result ≡ spec.is_begun texts names (view alternative.now) }
{
    is_begun_by_literal(alternative, literals) || is_called_first(alternative, calls)
}

/// Whether one of these literals begins all that an alternative matches.
fn is_begun_by_literal(alternative: &ParserNode<'_>, literals: &Literals<'_>) -> bool
    ensures { (texts : List Text) → Knows texts literals.now
        → result ≡ spec.begins_so texts (beginning_of (without_spans (view alternative.now))) }
{
    match beginning(alternative) {
        Some(text) => literals.begin(text),
        None => false,
    }
}

/// Whether an alternative calls one of these names first.
fn is_called_first(alternative: &ParserNode<'_>, calls: &HashSet<&str>) -> bool
    ensures { (names : List Text) → HasNames (is_one_of names) calls.now
        → result ≡ spec.is_call_of names (first_call_of (without_spans (view alternative.now))) }
{
    match first_call(alternative) {
        Some(name) => calls.contains(&name),
        None => false,
    }
}

/// Adds the literal that an alternative is, if it is one.
fn add_literal<'n, 'i>(
    alternative: &'n ParserNode<'i>,
    literals: &mut Literals<'n>,
) -> Result<(), AllocError>
    ensures { OnOk result ((texts : List Text) → Knows texts literals.old
        → Knows (texts ++ spec.own_literal (view alternative.entry.now)) literals.new) }
{
    match literal(alternative) {
        Some(text) => literals.add(text),
        None => Ok(()),
    }
}

/// Adds the name that an alternative calls, if it is a call.
fn add_own_call<'n, 'i>(
    alternative: &'n ParserNode<'i>,
    calls: &mut HashSet<&'n str>,
) -> Result<(), AllocError>
    ensures { OnOk result ((names : List Text) → HasNames (is_one_of names) calls.old
        → HasNames (is_one_of (names ++ spec.own_call (view alternative.entry.now))) calls.new) }
{
    match call(alternative) {
        Some(name) => add_name(name, calls),
        None => Ok(()),
    }
}
