//! Trees as one flat list of events.
ghost use Rattle.std.specs.Prelude.{◌≡◌, ◌∷◌, ◌++◌, [], IfOk, MatchOption, OnOk, length, nat_le, reverse, suc, true};
ghost use Rattle.base_language.specs.Language.State.{Trees};
ghost use Rattle.front_syntax.specs.TokenEvents.{events_of, named_events};
ghost use Rattle.front_syntax.specs.Nodes.{AreNodesOf};
ghost use Rattle.front_syntax.specs.Writing.{GoesOn, closing, left_open, opened, start_event};

use base_language::grammar::Rule;
use front_code::numbers::rule_at;
use matcher_code::state::TreeNode;
use std::alloc::{AllocError, Global};

/// One end of a tree: where it starts, or where it ends, in bytes, and the number of its other
/// event in the list.
#[derive(Clone, Copy, Debug, PartialEq, Eq)]
pub enum TokenEvent {
    Start {
        rule: Rule,
        pos: usize,
        partner: usize,
    },
    End {
        pos: usize,
        partner: usize,
    },
}

/// A tree whose end is not written yet: the number of its first event, where it ends, in bytes, and the
/// number of nodes up to its last descendant.
#[derive(Clone, Copy)]
struct Open {
    first: usize,
    end: usize,
    after: usize,
}

/// Takes off the last open tree, if it has no descendant from a number on.
fn take_ended(pending: &mut Vec<Open>, number: usize) -> Option<Open>
    ensures { MatchOption result
        (GoesOn number (reverse pending.old.items) × (pending.new.items ≡ pending.old.items))
        (λ t. (reverse pending.old.items ≡ t ∷ reverse pending.new.items) × (nat_le t.after number ≡ true)) }
{
    let last = *pending.last()?;
    if last.after > number {
        return None;
    }
    pending.pop();
    Some(last)
}

/// Writes the ends of the open trees that have no descendant from a number on.
fn end_trees(
    events: &mut Vec<TokenEvent>,
    pending: &mut Vec<Open>,
    number: usize,
) -> Result<(), AllocError>
    ensures events { OnOk result (named_events events.new.items
        ≡ named_events events.old.items ++ closing number (reverse pending.old.items)) }
    ensures pending { OnOk result (reverse pending.new.items ≡ left_open number (reverse pending.old.items)) }
{
    'trees: while let Some(tree) = take_ended(pending, number) {
        events.push(TokenEvent::End {
            pos: tree.end,
            partner: tree.first,
        })?;
    }
    Ok(())
}

/// Writes the start of the node of a number, and its end, if it has no descendants; else its tree is open.
fn start_tree(
    events: &mut Vec<TokenEvent>,
    pending: &mut Vec<Open>,
    node: TreeNode,
    number: usize,
) -> Result<(), AllocError>
    ensures events { let first = length (named_events events.old.items) in OnOk result
        (named_events events.new.items ++ closing (suc number) (reverse pending.new.items)
        ≡ (named_events events.old.items ++ start_event node number first ∷ [])
        ++ closing (suc number) (opened node first ∷ reverse pending.old.items)) }
    ensures pending { let first = length (named_events events.old.items) in OnOk result
        (left_open (suc number) (reverse pending.new.items)
        ≡ left_open (suc number) (opened node first ∷ reverse pending.old.items)) }
{
    let first = events.len();
    let after = node.after as usize;
    let descendants = after.saturating_sub(number).saturating_sub(1);
    events.push(TokenEvent::Start {
        rule: rule_at(node.rule),
        pos: node.start as usize,
        partner: first + 1 + 2 * descendants,
    })?;
    let end = node.end as usize;
    if descendants == 0 {
        events.push(TokenEvent::End {
            pos: end,
            partner: first,
        })?;
        return Ok(());
    }
    pending.push(Open { first, end, after })?;
    Ok(())
}

/// Writes the events of trees that are given by their nodes in preorder.
pub(crate) fn write_events(alloc: Global, nodes: &[TreeNode]) -> Result<Vec<TokenEvent>, AllocError>
    ensures { (us : Trees) → AreNodesOf nodes.now us
        → IfOk result (λ es. named_events es.items ≡ events_of 0 us) }
{
    let mut events = Vec::with_capacity(alloc, 2 * nodes.len())?;
    let mut pending = Vec::new(alloc);
    for number in 0..nodes.len() {
        end_trees(&mut events, &mut pending, number)?;
        start_tree(&mut events, &mut pending, nodes[number], number)?;
    }
    end_trees(&mut events, &mut pending, nodes.len())?;
    Ok(events)
}
