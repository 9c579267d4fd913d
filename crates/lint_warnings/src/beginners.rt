//! Alternatives that begin another one.
ghost use Rattle.std.specs.Prelude.{◌+◌, ◌<◌, OnOk, length};
ghost use Rattle.front_spanned.specs.Nodes.{view};
ghost use Rattle.front_spanned.specs.Walk.{preorder, waiting};

use crate::literals::{beginning, call, first_call, literal};
use crate::nodes::{Operands, operands_of, push_both};
use front_spanned::ParserNode;
use std::alloc::{AllocError, Global};

/// The bytes of the first alternative of a choice that begins the one at a byte.
pub(crate) fn beginner_of<'n, 'i>(
    alloc: Global,
    whole: &'n ParserNode<'i>,
    start: usize,
) -> Result<Option<(usize, usize)>, AllocError> {
    let mut earlier = alternatives_to(alloc, whole, start)?;
    match earlier.pop() {
        Some(begun) => Ok(first_beginner(earlier, begun)),
        None => Ok(None),
    }
}

/// The bytes of the first of some alternatives that begins another.
fn first_beginner<'n, 'i>(
    earlier: Vec<&'n ParserNode<'i>>,
    begun: &'n ParserNode<'i>,
) -> Option<(usize, usize)> {
    let mut first = None;
    let mut rest = earlier;
    while let Some(alternative) = rest.pop() {
        if begins(alternative, begun) {
            first = Some((alternative.span.start(), alternative.span.end()));
        }
    }
    first
}

/// The alternatives of a choice, in order, up to the one that begins at a byte.
fn alternatives_to<'n, 'i>(
    alloc: Global,
    whole: &'n ParserNode<'i>,
    start: usize,
) -> Result<Vec<&'n ParserNode<'i>>, AllocError> {
    let mut found = Vec::new(alloc);
    let mut stack = Vec::new(alloc);
    stack.push(whole)?;
    while let Some(next) = stack.pop() {
        push_alternative(next, start, &mut stack, &mut found)?;
    }
    Ok(found)
}

/// Pushes both sides of a choice on a stack, the left one on top; adds any other node up to a byte.
fn push_alternative<'n, 'i>(
    node: &'n ParserNode<'i>,
    last: usize,
    stack: &mut Vec<&'n ParserNode<'i>>,
    found: &mut Vec<&'n ParserNode<'i>>,
) -> Result<(), AllocError>
    ensures { OnOk result (length (waiting stack.new.items)
        < length (preorder (view node.entry.now)) + length (waiting stack.old.items)) }
{
    match operands_of(node) {
        Operands::Choice(left, right) => push_both(left, right, stack)?,
        _ => push_until(node, last, found)?,
    }
    Ok(())
}

/// Adds a node that begins at a byte or before.
fn push_until<'n, 'i>(
    node: &'n ParserNode<'i>,
    last: usize,
    found: &mut Vec<&'n ParserNode<'i>>,
) -> Result<(), AllocError> {
    if node.span.start() <= last {
        found.push(node)?;
    }
    Ok(())
}

/// Whether an alternative is a literal or a call with which all that another matches begins.
fn begins(alternative: &ParserNode<'_>, other: &ParserNode<'_>) -> bool {
    is_front(literal(alternative), beginning(other))
        || is_same(call(alternative), first_call(other))
}

/// Whether a text begins another, if both are there.
fn is_front(front: Option<&str>, text: Option<&str>) -> bool {
    match (front, text) {
        (Some(front), Some(text)) => text.starts_with(front),
        _ => false,
    }
}

/// Whether two names are there and the same.
fn is_same(name: Option<&str>, other: Option<&str>) -> bool {
    match (name, other) {
        (Some(name), Some(other)) => name == other,
        _ => false,
    }
}
