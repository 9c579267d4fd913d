//! Abstract interpretation of nodes, memoized and iterative.
ghost use Rattle.std.specs.Prelude.{◌≡◌, ◌<◌, [], IfOk};
ghost use Rattle.front_stack_loops.specs.Table.{IsOrdered};
ghost use Rattle.front_stack_loops.specs.Memory.{ReadsNode, Steps};
ghost use Rattle.front_stack_loops.specs.Following.{Follows, Turned};
ghost use Rattle.front_stack_loops.specs.Waiting.{ReadsOn};
ghost use Rattle.front_stack_domain.specs.Views.{stack_of, walk_of};

use crate::copies::{Begun, CopyCounts, Repeated, all_copies, foreseen, is_among, next_copy};
use crate::memory::Memory;
use crate::table::{NodeKind, Table};
use crate::waiting::{Awaited, How, ReadTask, Waiting, go_on, wait};
use front_stack_domain::{Reading, Stack, Walk};
use std::alloc::{AllocError, Global};

/// Returns the reading of a node from a stack. Nodes that wait for the reading of an operand or of a
/// repetition's body are on a list, so stack use does not depend on the depth of expressions or calls.
pub fn read(
    alloc: Global,
    table: &Table,
    memory: &mut Memory,
    node: usize,
    stack: Stack,
) -> Result<Reading, AllocError>
    requires inside { node < table.now.nodes.len }
    requires ordered { IsOrdered table.now }
    ensures { IfOk result (ReadsNode table.now memory.old memory.new node (stack_of stack)) }
{
    let mut waiting = Vec::new(alloc);
    let mut next = ReadTask::Read(node, stack);
    'steps: loop {
        match next {
            ReadTask::Read(node, stack) => {
                next = begin(alloc, table, memory, node, stack, &mut waiting)?;
            }
            ReadTask::Done(reading) => match waiting.pop() {
                Some(last) => next = go_on(table, memory, &mut waiting, last, reading)?,
                None => return Ok(reading),
            },
        }
    }
}

/// Begins to read a node: waits for the reading of an operand, or returns a reading at once.
fn begin(
    alloc: Global,
    table: &Table,
    memory: &mut Memory,
    node: usize,
    stack: Stack,
    waiting: &mut Vec<Waiting>,
) -> Result<ReadTask, AllocError>
    requires inside { node < table.now.nodes.len }
    requires ordered { IsOrdered table.now }
    ensures { IfOk result (ReadsOn table.now memory.old memory.new (ReadTask.Read node stack)
        waiting.old.items waiting.new.items) }
{
    if let Some(reading) = memory.recall(node, stack) {
        return Ok(ReadTask::Done(reading));
    }
    match table.kind_at(node) {
        NodeKind::Still => Ok(ReadTask::Done(Reading::surely(stack))),
        NodeKind::Leaf => Ok(ReadTask::Done(Reading::maybe(stack))),
        NodeKind::Peek => Ok(ReadTask::Done(Reading::top(stack, stack))),
        NodeKind::Pop => Ok(ReadTask::Done(Reading::top(stack, stack.without_top()))),
        NodeKind::Drop => Ok(ReadTask::Done(Reading::drop_top(stack))),
        NodeKind::PeekAll => Ok(ReadTask::Done(Reading::peek_all(stack))),
        NodeKind::PopAll => Ok(ReadTask::Done(Reading::pop_all(stack))),
        NodeKind::PushLiteral(blank) => Ok(ReadTask::Done(Reading::surely(stack.with_mark(blank)))),
        NodeKind::Call(rule) => match table.followed_body(rule) {
            None => Ok(ReadTask::Done(Reading::anything())),
            Some(body) => wait(waiting, node, stack, Awaited::Last(How::Same), body),
        },
        NodeKind::PosPred(body) => wait(waiting, node, stack, Awaited::Last(How::Ahead), body),
        NodeKind::NegPred(body) => wait(waiting, node, stack, Awaited::Last(How::NotAhead), body),
        NodeKind::Opt(body) => wait(waiting, node, stack, Awaited::Last(How::Optional), body),
        NodeKind::Push(body) => wait(waiting, node, stack, Awaited::Last(How::Pushed), body),
        NodeKind::Tag(body) => wait(waiting, node, stack, Awaited::Last(How::Same), body),
        NodeKind::Seq(first, second) => {
            wait(waiting, node, stack, Awaited::First(second, false), first)
        }
        NodeKind::Choice(first, second) => {
            wait(waiting, node, stack, Awaited::First(second, true), first)
        }
        NodeKind::Repeat(body, required, optional, endless) => {
            let counts = CopyCounts {
                required,
                optional,
                endless,
            };
            let copies = all_copies(alloc, table, stack, Repeated { body, counts });
            next_copy(table, memory, waiting, Begun { node, stack }, copies)
        }
    }
}

/// Follows one more copy.
fn step(
    alloc: Global,
    table: &Table,
    memory: &mut Memory,
    body: usize,
    required: bool,
    walk: Walk,
) -> Result<Walk, AllocError>
    requires inside { body < table.now.nodes.len }
    requires ordered { IsOrdered table.now }
    ensures { IfOk result (Steps table.now memory.old memory.new body required (walk_of walk)) }
{
    let Some(stack) = walk.here else {
        return Ok(walk);
    };
    let reading = read(alloc, table, memory, body, stack)?;
    Ok(walk.after_copy(reading, stack, required))
}

/// A number of copies of one kind.
#[derive(Clone, Copy)]
pub struct Series {
    pub body: usize,
    pub required: bool,
    pub count: u32,
}

/// Follows copies until they come back to a walk that was seen; `trace` gets the walks from which one of
/// them starts, without duplicates.
pub fn follow(
    alloc: Global,
    table: &Table,
    memory: &mut Memory,
    series: Series,
    start: Walk,
    trace: &mut Vec<Walk>,
) -> Result<Walk, AllocError>
    requires inside { series.body < table.now.nodes.len }
    requires ordered { IsOrdered table.now }
    requires none { trace.old.items ≡ [] }
    ensures { IfOk result (Follows table.now memory.old memory.new series.body series.required series.count
        (walk_of start) trace.new.items) }
{
    let Series { body, required, .. } = series;
    let count = series.count as usize;
    let mut walk = start;
    for done in 0..count {
        if let Some(last) = foreseen(trace, walk, count - done) {
            return Ok(last);
        }
        trace.push(walk)?;
        walk = step(alloc, table, memory, body, required, walk)?;
    }
    Ok(walk)
}

/// Follows turns without end until one starts as an earlier one; `seen` gets the stacks from which they
/// start.
pub fn turn(
    alloc: Global,
    table: &Table,
    memory: &mut Memory,
    body: usize,
    start: Walk,
    seen: &mut Vec<Stack>,
) -> Result<Walk, AllocError>
    requires inside { body < table.now.nodes.len }
    requires ordered { IsOrdered table.now }
    requires none { seen.old.items ≡ [] }
    ensures { IfOk result (Turned table.now memory.old memory.new body (walk_of start) seen.new.items) }
{
    let Some(first) = start.here else {
        return Ok(start);
    };
    let mut walk = Walk {
        here: None,
        failing: start.failing,
        still: start.still,
    };
    let mut next = Some(first);
    for taken in 0..table.limit {
        let Some(stack) = next else {
            return Ok(walk);
        };
        if is_among(seen, stack) {
            return Ok(walk);
        }
        seen.push(stack)?;
        let reading = read(alloc, table, memory, body, stack)?;
        walk = walk.after_turn(reading, stack);
        next = reading.ok;
    }
    Ok(Walk {
        here: Some(Stack::unknown()),
        failing: walk.failing,
        still: false,
    })
}
