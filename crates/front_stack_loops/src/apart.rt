//! Nodes independent of the stack (greatest fixpoint, by a worklist). They do the same from every stack,
//! and leave it, so they are interpreted from one stack alone.
ghost use Rattle.std.specs.Prelude.{◌≡◌, ◌<◌, ℕ, IfOk, length, true};
ghost use Rattle.base_graphs.specs.Least.{is_set_at};
ghost use Rattle.front_stack_loops.specs.Apart as spec;
ghost use Rattle.front_stack_loops.specs.Apart.{AreApart, apart_kind};
ghost use Rattle.front_stack_loops.specs.Table.{nodes_of};

use crate::facts::Nodes;
use crate::table::{NodeKind, Table};
use base_graphs::{find_listeners, is_set};
use std::alloc::{AllocError, Global};

/// Whether the body that a call leads to has a flag.
fn is_call_set(flags: &[bool], body: Option<usize>) -> bool
    ensures { result ≡ spec.apart_call (is_set_at flags.now) body }
{
    match body {
        Some(body) => is_set(flags, body),
        None => false,
    }
}

/// Whether a node is independent of the stack, if its operands and the body that it calls are.
fn is_apart<'n, 'i>(table: &Table<'n, 'i>, flags: &[bool], kind: NodeKind) -> bool
    ensures { result ≡ apart_kind table.now (is_set_at flags.now) kind }
{
    match kind {
        NodeKind::Still => true,
        NodeKind::Leaf => true,
        NodeKind::Peek => false,
        NodeKind::Pop => false,
        NodeKind::Drop => false,
        NodeKind::PeekAll => false,
        NodeKind::PopAll => false,
        NodeKind::Push(_) => false,
        NodeKind::PushLiteral(_) => false,
        NodeKind::Tag(body) => is_set(flags, body),
        NodeKind::Call(rule) => is_call_set(flags, table.followed_body(rule)),
        NodeKind::PosPred(body) => is_set(flags, body),
        NodeKind::NegPred(body) => is_set(flags, body),
        NodeKind::Opt(body) => is_set(flags, body),
        NodeKind::Seq(first, second) => is_set(flags, first) && is_set(flags, second),
        NodeKind::Choice(first, second) => is_set(flags, first) && is_set(flags, second),
        NodeKind::Repeat(body, _, _, _) => 2 <= table.limit && is_set(flags, body),
    }
}

/// Whether every flagged node is so, and every flag is that of a node.
fn all_apart<'n, 'i>(table: &Table<'n, 'i>, flags: &[bool]) -> bool
    ensures apart { result ≡ true → AreApart table.now flags.now }
    ensures within { result ≡ true → (i : ℕ) → is_set_at flags.now i ≡ true
        → i < length (nodes_of table.now) }
{
    if flags.len() > table.nodes.len() {
        return false;
    }
    for node in 0..table.nodes.len() {
        if is_set(flags, node) && !is_apart(table, flags, table.node_at(node).kind) {
            return false;
        }
    }
    true
}

/// Clears the flags of a node's listeners, and adds each listener that had one to the worklist.
fn clear_flags(
    listeners: &[usize],
    flags: &mut [bool],
    waiting: &mut Vec<usize>,
) -> Result<(), AllocError> {
    for listener in listeners {
        if let Some(flag) = flags.get_mut(*listener) {
            if *flag {
                *flag = false;
                waiting.push(*listener)?;
            }
        }
    }
    Ok(())
}

/// Returns flags of all nodes but those that read or change the stack, and those that lead to them.
fn search_apart<'n, 'i>(alloc: Global, table: &Table<'n, 'i>) -> Result<Vec<bool>, AllocError> {
    let nodes = Nodes {
        roots: table.roots.as_slice(),
        nodes: table.nodes.as_slice(),
    };
    let listeners = find_listeners(alloc, &nodes)?;
    let mut flags = vec![in alloc; true; table.nodes.len()]?;
    let mut waiting = Vec::new(alloc);
    for place in 0..table.nodes.len() {
        if !is_apart(table, flags.as_slice(), table.node_at(place).kind) {
            clear_flags(&[place], flags.as_mut_slice(), &mut waiting)?;
        }
    }
    for _node in 0..table.nodes.len() {
        if let Some(place) = waiting.pop() {
            clear_flags(listeners.of(place), flags.as_mut_slice(), &mut waiting)?;
        }
    }
    Ok(flags)
}

/// Returns flags of the nodes that are independent of the stack, or no flags if the check of the fixpoint
/// node by node fails. Only checked flags count.
pub(crate) fn apart_of<'n, 'i>(
    alloc: Global,
    table: &Table<'n, 'i>,
) -> Result<Vec<bool>, AllocError>
    ensures apart { IfOk result (λ flags. AreApart table.now flags.items) }
    ensures within { IfOk result (λ flags. (i : ℕ) → is_set_at flags.items i ≡ true
        → i < length (nodes_of table.now)) }
{
    let flags = search_apart(alloc, table)?;
    if all_apart(table, flags.as_slice()) {
        return Ok(flags);
    }
    Ok(Vec::new(alloc))
}
