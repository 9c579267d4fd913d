//! Repeated alternatives.
ghost use Rattle.std.specs.Prelude.{◌≡◌, ◌+◌, ◌<◌, ◌++◌, ◌∷◌, [], IfOk, OnOk, List, false, length, map};
ghost use Rattle.lint_patterns.specs.Duplicates as spec;
ghost use Rattle.lint_patterns.specs.DuplicateLists.{CollectsRepeated, KnowsKeys, inner_spans, nodes_left, spans_left};
ghost use Rattle.front_spanned.specs.Erasure.{without_spans};
ghost use Rattle.front_spanned.specs.Nodes.{piece_of, rule_views, view};
ghost use Rattle.front_spanned.specs.Spanned.{Span as Piece, Spanned};
ghost use Rattle.front_spanned.specs.Walk.{preorder, waiting};
ghost use Rattle.lint_warnings.specs.Choices.{alternatives};
ghost use Rattle.lint_warnings.specs.Lists.{left_over};

use crate::keys::key_of;
use base_language::runtime::Span;
use front_spanned::{ParserExpr, ParserNode, ParserRule};
use std::alloc::{AllocError, Global};
use std::collections::HashSet;

/// The spans of alternatives that are the same as one before them in their choice, except for literals, calls
/// and large ones: rule by rule, and in a body choice by choice. A choice inside a choice is part of it. The
/// only error is an allocation failure. The time is linear in the rules.
pub fn repeated_alternatives<'i>(
    alloc: Global,
    rules: &[ParserRule<'i>],
) -> Result<Vec<Span<'i>>, AllocError>
    ensures { IfOk result (λ found.
        map piece_of found.items ≡ spec.repeated_alternatives (rule_views rules.now)) }
{
    let mut found = Vec::new(alloc);
    for rule in rules {
        add_of_body(alloc, &rule.node, &mut found)?;
    }
    Ok(found)
}

/// A node, and whether it is an alternative.
#[derive(Clone, Copy)]
pub(crate) struct Placed<'n, 'i> {
    pub node: &'n ParserNode<'i>,
    pub is_alternative: bool,
}

/// Adds the spans of a body.
fn add_of_body<'i>(
    alloc: Global,
    body: &ParserNode<'i>,
    found: &mut Vec<Span<'i>>,
) -> Result<(), AllocError>
    ensures { OnOk result (map piece_of found.new.items
        ≡ map piece_of found.old.items ++ spec.repeated_in false (view body.now)) }
{
    let mut stack = Vec::new(alloc);
    stack.push(Placed {
        node: body,
        is_alternative: false,
    })?;
    while let Some(next) = stack.pop() {
        add_of_node(alloc, next, found)?;
        push_inner(next.node, &mut stack)?;
    }
    Ok(())
}

/// Adds the spans in the choice that a node is, if it is no alternative.
fn add_of_node<'i>(
    alloc: Global,
    place: Placed<'_, 'i>,
    found: &mut Vec<Span<'i>>,
) -> Result<(), AllocError>
    ensures { OnOk result (map piece_of found.new.items ≡ map piece_of found.old.items
        ++ spec.repeated_here place.entry.is_alternative (view place.entry.node.now)) }
{
    match &place.node.expr {
        ParserExpr::Choice(_, _) if !place.is_alternative => add_of_choice(
            alloc, place.node, found,
        ),
        _ => Ok(()),
    }
}

/// Pushes the operands of a node on a stack, the left one on top.
fn push_inner<'n, 'i>(
    node: &'n ParserNode<'i>,
    stack: &mut Vec<Placed<'n, 'i>>,
) -> Result<(), AllocError>
    ensures spans { OnOk result (spans_left stack.new.items
        ≡ inner_spans (view node.entry.now) ++ spans_left stack.old.items) }
    ensures less { OnOk result (nodes_left stack.new.items
        < length (preorder (view node.entry.now)) + nodes_left stack.old.items) }
{
    match &node.expr {
        ParserExpr::Choice(left, right) => push_both(left, right, true, stack),
        ParserExpr::Seq(left, right) => push_both(left, right, false, stack),
        ParserExpr::PosPred(inner)
        | ParserExpr::NegPred(inner)
        | ParserExpr::Opt(inner)
        | ParserExpr::Rep(inner)
        | ParserExpr::RepOnce(inner)
        | ParserExpr::RepExact(inner, _)
        | ParserExpr::RepMin(inner, _)
        | ParserExpr::RepMax(inner, _)
        | ParserExpr::RepMinMax(inner, _, _)
        | ParserExpr::Push(inner)
        | ParserExpr::NodeTag(inner, _) => {
            stack.push(Placed {
                node: inner,
                is_alternative: false,
            })?;
            Ok(())
        }
        _ => Ok(()),
    }
}

/// Pushes two nodes on a stack, the left one on top.
fn push_both<'n, 'i>(
    left: &'n ParserNode<'i>,
    right: &'n ParserNode<'i>,
    is_alternative: bool,
    stack: &mut Vec<Placed<'n, 'i>>,
) -> Result<(), AllocError>
    ensures spans { OnOk result (spans_left stack.new.items
        ≡ spec.repeated_in is_alternative (view left.entry.now)
        ++ (spec.repeated_in is_alternative (view right.entry.now) ++ spans_left stack.old.items)) }
    ensures nodes { OnOk result (nodes_left stack.new.items
        ≡ length (preorder (view left.entry.now))
        + (length (preorder (view right.entry.now)) + nodes_left stack.old.items)) }
{
    stack.push(Placed {
        node: right,
        is_alternative,
    })?;
    stack.push(Placed {
        node: left,
        is_alternative,
    })?;
    Ok(())
}

/// Adds the spans in a choice.
fn add_of_choice<'i>(
    alloc: Global,
    whole: &ParserNode<'i>,
    found: &mut Vec<Span<'i>>,
) -> Result<(), AllocError>
    ensures { OnOk result (map piece_of found.new.items
        ≡ map piece_of found.old.items ++ spec.repeated_at (view whole.now)) }
{
    let mut seen = HashSet::new(alloc);
    let mut stack = Vec::new(alloc);
    stack.push(whole)?;
    while let Some(next) = stack.pop() {
        take_alternative(alloc, next, &mut stack, &mut seen, found)?;
    }
    Ok(())
}

/// Pushes both sides of a choice on a stack, the left one on top; any other node is the next alternative.
fn take_alternative<'n, 'i>(
    alloc: Global,
    node: &'n ParserNode<'i>,
    stack: &mut Vec<&'n ParserNode<'i>>,
    seen: &mut HashSet<Vec<u32>>,
    found: &mut Vec<Span<'i>>,
) -> Result<(), AllocError>
    ensures collected { OnOk result ((all : List Piece) (earlier : List Spanned)
        → CollectsRepeated all earlier (alternatives (view node.entry.now) ++ left_over stack.old.items)
        seen.old (map piece_of found.old.items)
        → (later : List Spanned) × CollectsRepeated all later (left_over stack.new.items)
        seen.new (map piece_of found.new.items)) }
    ensures less { OnOk result (length (waiting stack.new.items)
        < length (preorder (view node.entry.now)) + length (waiting stack.old.items)) }
{
    match &node.expr {
        ParserExpr::Choice(left, right) => {
            stack.push(right)?;
            stack.push(left)?;
            Ok(())
        }
        _ => add_where_repeated(alloc, node, seen, found),
    }
}

/// Adds the span of an alternative whose key is there, and else adds its key.
fn add_where_repeated<'i>(
    alloc: Global,
    alternative: &ParserNode<'i>,
    seen: &mut HashSet<Vec<u32>>,
    found: &mut Vec<Span<'i>>,
) -> Result<(), AllocError>
    ensures spans { OnOk result ((earlier : List Spanned) → KnowsKeys earlier seen.old
        → map piece_of found.new.items
        ≡ map piece_of found.old.items ++ spec.span_if_repeated earlier (view alternative.now)) }
    ensures known { OnOk result ((earlier : List Spanned) → KnowsKeys earlier seen.old
        → KnowsKeys (earlier ++ view alternative.now ∷ []) seen.new) }
{
    if is_plain(alternative) {
        return Ok(());
    }
    if let Some(key) = key_of(alloc, alternative)? {
        let is_new = seen.insert(key)?;
        if !is_new {
            found.push(alternative.span)?;
        }
    }
    Ok(())
}

/// Whether a node is a literal or a call.
pub(crate) fn is_plain(node: &ParserNode<'_>) -> bool
    ensures { result ≡ spec.is_plain (without_spans (view node.now)) }
{
    match &node.expr {
        ParserExpr::Str(_) | ParserExpr::Ident(_) => true,
        _ => false,
    }
}
