//! Repetitions that wait for a reading of their body; copies and turns are followed one at a time.
ghost use Rattle.std.specs.Prelude.{◌≡◌, ◌≤◌, ◌<◌, [], IfOk, IfSome, IfNone, not, ◌||◌};
ghost use Rattle.front_stack_domain.specs.Stack as is;
ghost use Rattle.front_stack_domain.specs.Reading as says;
ghost use Rattle.front_stack_domain.specs.Views.{stack_of, walk_of, possible};
ghost use Rattle.front_stack_loops.specs.Table.{copies};
ghost use Rattle.front_stack_loops.specs.Memory.{Meaning};
ghost use Rattle.front_stack_loops.specs.Following.{IsWalkAt, IsForeseen, seen_stacks};
ghost use Rattle.front_stack_loops.specs.Repeating.{CopiesLead, TurnsLead, copied_reading, copies_left, most_readings};
ghost use Rattle.front_stack_loops.specs.Waiting.{AwaitsCopy, EndsWith, GoesOn, Resumes};

use crate::memory::Memory;
use crate::table::Table;
use crate::waiting::{Awaited, ReadTask, Waiting};
use front_stack_domain::{Reading, Stack, Walk};
use std::alloc::{AllocError, Global};

/// The number of copies of a repetition.
#[derive(Clone, Copy)]
pub struct CopyCounts {
    /// The number of required copies.
    pub required: u32,
    /// The number of further copies, which may fail.
    pub optional: u32,
    /// Whether turns without end follow.
    pub endless: bool,
}

/// The body of a repetition, and its counts.
#[derive(Clone, Copy)]
pub struct Repeated {
    pub body: usize,
    pub counts: CopyCounts,
}

/// A node whose reading is begun, and the stack from which it is read.
#[derive(Clone, Copy)]
pub struct Begun {
    pub node: usize,
    pub stack: Stack,
}

/// A repetition whose copies are followed.
#[derive(Drop)]
pub struct Copies {
    pub body: usize,
    /// The number of required copies that are left.
    pub required: u32,
    /// The number of optional copies that are left.
    pub optional: u32,
    /// Whether turns without end follow.
    pub endless: bool,
    /// Whether nothing can be skipped between the copies.
    pub alone: bool,
    /// The walk along the copies so far.
    pub walk: Walk,
    /// The walks from which those of the last kind started, without duplicates.
    pub trace: Vec<Walk>,
}

/// A repetition whose turns without end are followed.
#[derive(Drop)]
pub struct Turns {
    pub body: usize,
    pub alone: bool,
    /// The greatest number of turns that are left.
    pub left: usize,
    pub walk: Walk,
    /// The stacks from which turns started.
    pub seen: Vec<Stack>,
}

/// A copy that was read: the copies that are left, whether it is required, and the stack from which it was
/// read.
#[derive(Drop)]
pub struct LastCopy {
    pub copies: Copies,
    pub required: bool,
    pub from: Stack,
}

/// A turn that was read: the turns that are left, and the stack from which it was read.
#[derive(Drop)]
pub struct LastTurn {
    pub turns: Turns,
    pub from: Stack,
}

/// Whether a stack is among others.
pub fn is_among(stacks: &[Stack], stack: Stack) -> bool
    ensures { result ≡ is.is_among (seen_stacks stacks.now) (stack_of stack) }
{
    for seen in stacks {
        if stack.is_same(*seen) {
            return true;
        }
    }
    false
}

/// Returns an index at which a walk is in the trace.
fn place_of(trace: &[Walk], walk: Walk) -> Option<usize>
    ensures { IfSome result (IsWalkAt trace.now (walk_of walk)) }
{
    for (place, earlier) in trace.iter().enumerate() {
        if earlier.is_same(walk) {
            return Some(place);
        }
    }
    None
}

/// Returns the walk after `left` more copies, if none is left or the walk is in the trace already. No clause
/// refuses `None` if some are left: it costs only time.
pub fn foreseen(trace: &[Walk], walk: Walk, left: usize) -> Option<Walk>
    ensures known { IfSome result (IsForeseen trace.now (walk_of walk) left) }
    ensures unknown { IfNone result (0 < left) }
{
    if left == 0 {
        return Some(walk);
    }
    let place = place_of(trace, walk)?;
    Some(trace[place + left % (trace.len() - place)])
}

/// Whether nothing can be skipped between the copies.
fn stands_alone(skips: bool, counts: CopyCounts) -> bool
    ensures { result
        ≡ (not skips || says.is_single (copies counts.required counts.optional counts.endless)) }
{
    !skips || (!counts.endless && counts.required as u64 + counts.optional as u64 <= 1)
}

/// A repetition of which no copy has been followed yet, from a stack.
pub fn all_copies(alloc: Global, table: &Table, stack: Stack, repeated: Repeated) -> Copies
    ensures all { (meaning : Meaning)
        → copied_reading table.now meaning result (stack_of stack) (walk_of result.walk)
        ≡ says.walked table.now.limit (meaning repeated.body) table.now.skips (stack_of stack)
        (copies repeated.counts.required repeated.counts.optional repeated.counts.endless) }
    ensures body { result.body ≡ repeated.body }
    ensures none { result.trace.items ≡ [] }
    ensures few { copies_left table.now result ≤ most_readings table.now }
{
    let Repeated { body, counts } = repeated;
    Copies {
        body,
        required: counts.required,
        optional: counts.optional,
        endless: counts.endless,
        alone: stands_alone(table.skips, counts),
        walk: Walk {
            here: Some(stack),
            failing: false,
            still: true,
        },
        trace: Vec::new(alloc),
    }
}

/// Memoizes the reading of a repetition, and returns it as the next task.
fn end(memory: &mut Memory, begun: Begun, alone: bool, walk: Walk) -> Result<ReadTask, AllocError>
    ensures { IfOk result (EndsWith memory.old memory.new begun.node begun.stack alone (walk_of walk)) }
{
    let reading = walk.reading(begun.stack, alone);
    memory.remember(begun.node, begun.stack, reading)?;
    Ok(ReadTask::Done(reading))
}

/// Waits for a copy, which is read from a stack next; `copies` has the copies that are left.
fn wait_for_copy(
    waiting: &mut Vec<Waiting>,
    begun: Begun,
    mut copies: Copies,
    required: bool,
    from: Stack,
) -> Result<ReadTask, AllocError>
    ensures { IfOk result
        (AwaitsCopy waiting.old.items waiting.new.items begun.node begun.stack copies required from) }
{
    let Begun { node, stack } = begun;
    let body = copies.body;
    let walk = copies.walk;
    copies.trace.push(walk)?;
    waiting.push(Waiting {
        node,
        stack,
        awaited: Awaited::Copy(copies, required, from),
    })?;
    Ok(ReadTask::Read(body, from))
}

/// Starts the next copy of a repetition, or ends the repetition if no copy is left.
pub fn next_copy(
    table: &Table,
    memory: &mut Memory,
    waiting: &mut Vec<Waiting>,
    begun: Begun,
    mut copies: Copies,
) -> Result<ReadTask, AllocError>
    ensures { IfOk result (GoesOn table.now memory.old memory.new begun.node begun.stack
        (λ meaning. CopiesLead table.now meaning copies (stack_of begun.stack)
        (meaning begun.node (stack_of begun.stack)))
        copies.body (copies_left table.now copies) waiting.old.items waiting.new.items) }
{
    let walk = copies.walk;
    let Some(from) = walk.here else {
        return end(memory, begun, copies.alone, walk);
    };
    if copies.required > 0 {
        copies.required -= 1;
        return wait_for_copy(waiting, begun, copies, true, from);
    }
    if copies.optional > 0 {
        copies.optional -= 1;
        return wait_for_copy(waiting, begun, copies, false, from);
    }
    if !copies.endless {
        return end(memory, begun, copies.alone, walk);
    }
    let alloc = *copies.trace.allocator();
    let turns = Turns {
        body: copies.body,
        alone: copies.alone,
        left: table.limit,
        walk: Walk {
            here: None,
            failing: walk.failing,
            still: walk.still,
        },
        seen: Vec::new(alloc),
    };
    next_turn(table, memory, waiting, begun, turns, Some(from))
}

/// Continues a repetition after a copy that was read from a stack.
pub fn resume_copies(
    table: &Table,
    memory: &mut Memory,
    waiting: &mut Vec<Waiting>,
    begun: Begun,
    copy: LastCopy,
    reading: Reading,
) -> Result<ReadTask, AllocError>
    ensures { IfOk result (Resumes table.now memory.old memory.new begun.node begun.stack
        (Awaited.Copy copy.copies copy.required copy.from) reading copy.copies.body
        (copies_left table.now copy.copies) waiting.old.items waiting.new.items) }
{
    let LastCopy {
        mut copies,
        required,
        from,
    } = copy;
    copies.walk = copies.walk.after_copy(reading, from, required);
    let left = if required {
        copies.required
    } else {
        copies.optional
    };
    let Some(walk) = foreseen(&copies.trace, copies.walk, left as usize) else {
        return next_copy(table, memory, waiting, begun, copies);
    };
    copies.walk = walk;
    copies.trace = Vec::new(*copies.trace.allocator());
    if required {
        copies.required = 0;
    } else {
        copies.optional = 0;
    }
    next_copy(table, memory, waiting, begun, copies)
}

/// Starts the next turn of a repetition at `next`, or ends the repetition if no further turn matters.
fn next_turn(
    table: &Table,
    memory: &mut Memory,
    waiting: &mut Vec<Waiting>,
    begun: Begun,
    mut turns: Turns,
    next: Option<Stack>,
) -> Result<ReadTask, AllocError>
    ensures { IfOk result (GoesOn table.now memory.old memory.new begun.node begun.stack
        (λ meaning. TurnsLead table.now meaning turns (stack_of begun.stack) (possible next)
        (meaning begun.node (stack_of begun.stack)))
        turns.body turns.left waiting.old.items waiting.new.items) }
{
    let walk = turns.walk;
    if turns.left == 0 {
        let unknown = Walk {
            here: Some(Stack::unknown()),
            failing: walk.failing,
            still: false,
        };
        return end(memory, begun, turns.alone, unknown);
    }
    let Some(from) = next else {
        return end(memory, begun, turns.alone, walk);
    };
    if is_among(&turns.seen, from) {
        return end(memory, begun, turns.alone, walk);
    }
    let Begun { node, stack } = begun;
    let body = turns.body;
    turns.left -= 1;
    turns.seen.push(from)?;
    waiting.push(Waiting {
        node,
        stack,
        awaited: Awaited::Turn(turns, from),
    })?;
    Ok(ReadTask::Read(body, from))
}

/// Continues a repetition after a turn that was read from a stack.
pub fn resume_turns(
    table: &Table,
    memory: &mut Memory,
    waiting: &mut Vec<Waiting>,
    begun: Begun,
    turn: LastTurn,
    reading: Reading,
) -> Result<ReadTask, AllocError>
    ensures { IfOk result (Resumes table.now memory.old memory.new begun.node begun.stack
        (Awaited.Turn turn.turns turn.from) reading turn.turns.body turn.turns.left
        waiting.old.items waiting.new.items) }
{
    let LastTurn { mut turns, from } = turn;
    turns.walk = turns.walk.after_turn(reading, from);
    next_turn(table, memory, waiting, begun, turns, reading.ok)
}
