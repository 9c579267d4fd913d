//! Sizes of rules when counts are written out.
ghost use Rattle.std.specs.Prelude.{◌≡◌, ◌+◌, ◌-◌, ◌*◌, ◌<◌, ◌≤◌, IfOk, false, nat_lt, true};
ghost use Rattle.std.specs.Option.{SomeIff};
ghost use Rattle.lint_patterns.specs.Copies.{size};
ghost use Rattle.lint_patterns.specs.CopyLists.{nodes_left};
ghost use Rattle.lint_patterns.specs.Sizes.{nodes, nodes_of_rules, nodes_on};
ghost use Rattle.front_spanned.specs.Nodes.{rule_views, view};

use crate::copies::{Branches, Copied, branches_of};
use front_spanned::{ParserNode, ParserRule};
use std::alloc::{AllocError, Global};

/// The most nodes of rules that are written out.
const MOST_NODES: u64 = 1_000_000;

/// Returns whether `rules` have more than 1,000,000 nodes if each counted repetition is written out. The time
/// is linear in the rules.
///
/// # Errors
/// `AllocError` if an allocation fails.
pub(crate) fn are_large(alloc: Global, rules: &[ParserRule<'_>]) -> Result<bool, AllocError>
    ensures { IfOk result (λ large. large ≡ nat_lt 1000000 (nodes_of_rules (rule_views rules.now))) }
{
    let mut left = MOST_NODES;
    for rule in rules {
        let Some(rest) = subtract_nodes(alloc, left, &rule.node)? else {
            return Ok(true);
        };
        left = rest;
    }
    Ok(false)
}

/// Returns `most` less the number of nodes of `body`, or `None` if `body` has more than `most` nodes.
fn subtract_nodes(
    alloc: Global,
    most: u64,
    body: &ParserNode<'_>,
) -> Result<Option<u64>, AllocError>
    ensures { IfOk result (λ left.
        SomeIff left (nodes 1 (view body.now) ≤ most) (most - nodes 1 (view body.now))) }
{
    let mut left = most;
    let mut stack = Vec::new(alloc);
    stack.push(Copied {
        node: body,
        copies: 1,
    })?;
    while let Some(next) = stack.pop() {
        if next.copies > left {
            return Ok(None);
        }
        left -= next.copies;
        if !push_operands(next, left, &mut stack)? {
            return Ok(None);
        }
    }
    Ok(Some(left))
}

/// Pushes the operands of the node of `next` on `stack`, with their numbers of copies. Returns `false` if an
/// operand has more than `most` copies.
fn push_operands<'n, 'i>(
    next: Copied<'n, 'i>,
    most: u64,
    stack: &mut Vec<Copied<'n, 'i>>,
) -> Result<bool, AllocError>
    ensures pushed { IfOk result (λ fits. fits ≡ true → nodes_on stack.new.items + next.entry.copies
        ≡ nodes_on stack.old.items + nodes next.entry.copies (view next.entry.node.now)) }
    ensures over { IfOk result (λ fits. fits ≡ false
        → most + next.entry.copies < nodes next.entry.copies (view next.entry.node.now)) }
    ensures less { IfOk result (λ fits. fits ≡ true → nodes_left stack.new.items
        < nodes_left stack.old.items + size (view next.entry.node.now)) }
{
    match branches_of(next.node) {
        Branches::None => {}
        Branches::One(node, count) => match product_within(next.copies, count, most) {
            Some(copies) => stack.push(Copied { node, copies })?,
            None => return Ok(false),
        },
        Branches::Two(left, right) => {
            let copies = next.copies;
            stack.push(Copied {
                node: right,
                copies,
            })?;
            stack.push(Copied { node: left, copies })?;
        }
    }
    Ok(true)
}

/// Returns the product of two numbers if it is at most `most`.
fn product_within(around: u64, count: u64, most: u64) -> Option<u64>
    ensures { SomeIff result (around * count ≤ most) (around * count) }
{
    match around.checked_mul(count) {
        Some(copies) if copies <= most => Some(copies),
        _ => None,
    }
}
