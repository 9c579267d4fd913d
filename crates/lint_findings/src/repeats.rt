//! Repeated alternatives.
use front_spanned::{ParserExpr, ParserNode, ParserRule, push_operands};
use std::alloc::{AllocError, Global};
use std::collections::HashSet;

/// The bytes at which literals and calls begin that are alternatives of a choice and equal one before them.
/// The time is linear in the rules. The only error is an allocation failure.
pub(crate) fn repeated_leaves(
    alloc: Global,
    rules: &[ParserRule<'_>],
) -> Result<HashSet<usize>, AllocError> {
    let mut repeats = HashSet::new(alloc);
    for rule in rules {
        add_of_body(alloc, &rule.node, &mut repeats)?;
    }
    Ok(repeats)
}

/// Adds those in a body.
fn add_of_body(
    alloc: Global,
    body: &ParserNode<'_>,
    repeats: &mut HashSet<usize>,
) -> Result<(), AllocError> {
    let mut stack = Vec::new(alloc);
    stack.push(body)?;
    for _ in 0..u64::MAX {
        let Some(node) = stack.pop() else {
            break;
        };
        match &node.expr {
            ParserExpr::Choice(_, _) => add_of_choice(alloc, node, &mut stack, repeats)?,
            _ => push_operands(node, &mut stack)?,
        }
    }
    Ok(())
}

/// Adds those of a choice, and pushes its other alternatives on a stack.
fn add_of_choice<'n, 'i>(
    alloc: Global,
    choice: &'n ParserNode<'i>,
    stack: &mut Vec<&'n ParserNode<'i>>,
    repeats: &mut HashSet<usize>,
) -> Result<(), AllocError> {
    let mut literals = HashSet::new(alloc);
    let mut calls = HashSet::new(alloc);
    let mut alternatives = Vec::new(alloc);
    alternatives.push(choice)?;
    for _ in 0..u64::MAX {
        let Some(node) = alternatives.pop() else {
            break;
        };
        match &node.expr {
            ParserExpr::Choice(_, _) => push_operands(node, &mut alternatives)?,
            ParserExpr::Str(text) => {
                if !literals.insert(text.as_str())? {
                    repeats.insert(node.span.start())?;
                }
            }
            ParserExpr::Ident(name) => {
                if !calls.insert(name.as_str())? {
                    repeats.insert(node.span.start())?;
                }
            }
            _ => stack.push(node)?,
        }
    }
    Ok(())
}
