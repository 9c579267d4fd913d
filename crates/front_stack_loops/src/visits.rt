//! The visit of a rule's body: the stacks from which its nodes are visited, and the reports.
ghost use Rattle.std.specs.Prelude.{◌≡◌, ◌<◌, [], ◌∷◌, ◌++◌, IfOk, OnOk};
ghost use Rattle.front_stack_loops.specs.Table.{IsOrdered, copies};
ghost use Rattle.front_stack_loops.specs.Visiting.{AddsStack, AddsAll, AddsEach, AddsWhere, Collects, IsAfter, IsReportedWhereItLoops, IsStartOf, FindsLoop, FindsIn, VisitsOn};
ghost use Rattle.front_stack_domain.specs.Views.{stack_of};

use crate::copies::{CopyCounts, Repeated, is_among};
use crate::loops::loops;
use crate::memory::Memory;
use crate::reader::{Series, follow, read, turn};
use crate::table::{Parts, Table};
use base_graphs::is_set;
use base_language::runtime::Span;
use front_stack_domain::{Stack, Walk};
use std::alloc::{AllocError, Global};

/// Adds a stack to others, if it is not among them.
fn add(stacks: &mut Vec<Stack>, stack: Stack) -> Result<(), AllocError>
    ensures { OnOk result (AddsStack stacks.old.items stacks.new.items (stack_of stack)) }
{
    if !is_among(stacks, stack) {
        stacks.push(stack)?;
    }
    Ok(())
}

/// Adds the stacks from which walks of a trace start.
fn add_all(stacks: &mut Vec<Stack>, trace: &[Walk]) -> Result<(), AllocError>
    ensures { OnOk result (AddsAll stacks.old.items stacks.new.items trace.now) }
{
    for walk in trace {
        if let Some(stack) = walk.here {
            add(stacks, stack)?;
        }
    }
    Ok(())
}

/// Adds stacks to others.
fn add_each(stacks: &mut Vec<Stack>, more: &[Stack]) -> Result<(), AllocError>
    ensures { OnOk result (AddsEach stacks.old.items stacks.new.items more.now) }
{
    for stack in more {
        add(stacks, *stack)?;
    }
    Ok(())
}

/// The first of two operands, and whether they are a choice.
#[derive(Clone, Copy)]
struct First {
    node: usize,
    choice: bool,
}

/// Adds the stack after the first of two parts: after its failure for a choice, else after its
/// success.
fn add_after(
    alloc: Global,
    table: &Table,
    memory: &mut Memory,
    first: First,
    stack: Stack,
    found: &mut Vec<Stack>,
) -> Result<(), AllocError>
    requires inside { first.node < table.now.nodes.len }
    requires ordered { IsOrdered table.now }
    ensures { OnOk result (AddsWhere table.now memory.old memory.new (λ meaning b. IsAfter
        (meaning first.node) first.choice (stack_of stack) b) found.old.items found.new.items) }
{
    let reading = read(alloc, table, memory, first.node, stack)?;
    let next = reading.next_after(first.choice, stack);
    if let Some(next) = next {
        add(found, next)?;
    }
    Ok(())
}

/// Returns the stacks after the first of two operands.
fn stacks_after(
    alloc: Global,
    table: &Table,
    memory: &mut Memory,
    first: First,
    stacks: &[Stack],
) -> Result<Vec<Stack>, AllocError>
    requires inside { first.node < table.now.nodes.len }
    requires ordered { IsOrdered table.now }
    ensures { IfOk result (λ after. Collects table.now memory.old memory.new (λ meaning. IsAfter
        (meaning first.node) first.choice) stacks.now after.items) }
{
    let mut found = Vec::new(alloc);
    for stack in stacks {
        add_after(alloc, table, memory, first, *stack, &mut found)?;
    }
    Ok(found)
}

/// Adds the stacks from which the copies of a repetition start.
fn add_starts(
    alloc: Global,
    table: &Table,
    memory: &mut Memory,
    repeated: Repeated,
    stack: Stack,
    found: &mut Vec<Stack>,
) -> Result<(), AllocError>
    requires inside { repeated.body < table.now.nodes.len }
    requires ordered { IsOrdered table.now }
    ensures { OnOk result (AddsWhere table.now memory.old memory.new
        (λ meaning b. IsStartOf table.now.limit (meaning repeated.body)
        (copies repeated.counts.required repeated.counts.optional repeated.counts.endless)
        (stack_of stack) b) found.old.items found.new.items) }
{
    let Repeated { body, counts } = repeated;
    let start = Walk {
        here: Some(stack),
        failing: false,
        still: true,
    };
    let mut trace = Vec::new(alloc);
    let required = Series {
        body,
        required: true,
        count: counts.required,
    };
    let first = follow(alloc, table, memory, required, start, &mut trace)?;
    add_all(found, &trace)?;
    let mut trace = Vec::new(alloc);
    let optional = Series {
        body,
        required: false,
        count: counts.optional,
    };
    let second = follow(alloc, table, memory, optional, first, &mut trace)?;
    add_all(found, &trace)?;
    if !counts.endless {
        return Ok(());
    }
    let mut seen = Vec::new(alloc);
    turn(alloc, table, memory, body, second, &mut seen)?;
    add_each(found, &seen)
}

/// Returns the stacks from which the copies of a repetition start.
fn starts(
    alloc: Global,
    table: &Table,
    memory: &mut Memory,
    repeated: Repeated,
    stacks: &[Stack],
) -> Result<Vec<Stack>, AllocError>
    requires inside { repeated.body < table.now.nodes.len }
    requires ordered { IsOrdered table.now }
    ensures { IfOk result (λ starts. Collects table.now memory.old memory.new
        (λ meaning. IsStartOf table.now.limit (meaning repeated.body)
        (copies repeated.counts.required repeated.counts.optional repeated.counts.endless))
        stacks.now starts.items) }
{
    let mut found = Vec::new(alloc);
    for stack in stacks {
        add_starts(alloc, table, memory, repeated, *stack, &mut found)?;
    }
    Ok(found)
}

/// Whether the loop search finds a loop from one of the stacks.
fn some_loops(
    alloc: Global,
    table: &Table,
    memory: &mut Memory,
    body: usize,
    stacks: &[Stack],
) -> Result<bool, AllocError>
    requires inside { body < table.now.nodes.len }
    requires ordered { IsOrdered table.now }
    ensures { IfOk result (FindsLoop table.now memory.old memory.new body stacks.now) }
{
    for stack in stacks {
        if loops(alloc, table, memory, body, *stack, table.turns)? {
            return Ok(true);
        }
    }
    Ok(false)
}

/// A node that is still to be visited, and the stacks from which it is.
#[derive(Drop)]
pub struct Pending {
    pub node: usize,
    pub stacks: Vec<Stack>,
}

/// Appends a repetition if it is endless, and what is repeated has a loop from one of the stacks and
/// takes something when its parts do.
fn report<'n, 'i>(
    alloc: Global,
    table: &Table<'n, 'i>,
    memory: &mut Memory,
    visited: &Pending,
    repeated: Repeated,
    found: &mut Vec<Span<'i>>,
) -> Result<(), AllocError>
    requires inside { visited.now.node < table.now.nodes.len }
    requires body_inside { repeated.body < table.now.nodes.len }
    requires ordered { IsOrdered table.now }
    ensures { OnOk result
        (IsReportedWhereItLoops table.now memory.old memory.new visited.now.node repeated.body
        repeated.counts.endless visited.now.stacks.items found.old.items found.new.items) }
{
    let Repeated { body, counts } = repeated;
    if !counts.endless {
        return Ok(());
    }
    if is_set(table.nullable.as_slice(), body) {
        return Ok(());
    }
    if some_loops(alloc, table, memory, body, &visited.stacks)? {
        found.push(*table.node_at(visited.node).span)?;
    }
    Ok(())
}

/// Visits a node. Appends the report there; adds its operands to the nodes still to be visited, so that the
/// first one is next.
fn visit_one<'n, 'i>(
    alloc: Global,
    table: &Table<'n, 'i>,
    memory: &mut Memory,
    next: Pending,
    left: &mut Vec<Pending>,
    found: &mut Vec<Span<'i>>,
) -> Result<(), AllocError>
    requires inside { next.node < table.now.nodes.len }
    requires ordered { IsOrdered table.now }
    ensures { OnOk result (VisitsOn table.now memory.old memory.new (left.old.items ++ next ∷ [])
        found.old.items left.new.items found.new.items) }
{
    match table.parts_at(next.node) {
        Parts::Nothing => Ok(()),
        Parts::Both(first, second, choice) => {
            let part = First {
                node: first,
                choice,
            };
            let behind = stacks_after(alloc, table, memory, part, &next.stacks)?;
            left.push(Pending {
                node: second,
                stacks: behind,
            })?;
            left.push(Pending {
                node: first,
                stacks: next.stacks,
            })?;
            Ok(())
        }
        Parts::Inside(body, required, optional, endless) => {
            let counts = CopyCounts {
                required,
                optional,
                endless,
            };
            let repeated = Repeated { body, counts };
            report(alloc, table, memory, &next, repeated, found)?;
            let stacks = starts(alloc, table, memory, repeated, &next.stacks)?;
            left.push(Pending { node: body, stacks })?;
            Ok(())
        }
    }
}

/// Visits a node from some stacks, and all that is inside it, and appends what is reported.
pub fn visit<'n, 'i>(
    alloc: Global,
    table: &Table<'n, 'i>,
    memory: &mut Memory,
    start: Pending,
    found: &mut Vec<Span<'i>>,
) -> Result<(), AllocError>
    requires inside { start.node < table.now.nodes.len }
    requires ordered { IsOrdered table.now }
    ensures { OnOk result (FindsIn table.now memory.old memory.new start.node start.stacks.items
        found.old.items found.new.items) }
{
    let mut left = Vec::new(alloc);
    left.push(start)?;
    while let Some(next) = left.pop() {
        visit_one(alloc, table, memory, next, &mut left, found)?;
    }
    Ok(())
}
