//! Continuation frames of the interpreter: nodes that wait for the reading of an operand.
ghost use Rattle.std.specs.Prelude.{◌≡◌, [], ◌∷◌, ◌++◌, IfOk};
ghost use Rattle.front_stack_loops.specs.Waiting.{ReadsOn, IsPut, whole_of};
ghost use Rattle.front_stack_domain.specs.Views.{reading_of, stack_of};

use crate::copies::{Begun, Copies, LastCopy, LastTurn, Turns, resume_copies, resume_turns};
use crate::memory::Memory;
use crate::table::Table;
use front_stack_domain::{Reading, Stack};
use std::alloc::AllocError;

/// How the reading of a node comes from that of its last operand.
#[derive(Clone, Copy)]
pub enum How {
    Same,
    Ahead,
    NotAhead,
    Optional,
    Pushed,
    /// By the reading of the first operand, made earlier; `true` for a choice.
    Both(Reading, bool),
}

/// Which operand is waited for.
#[derive(Drop)]
pub enum Awaited {
    /// The first of two operands: the second one, and `true` for a choice.
    First(usize, bool),
    Last(How),
    /// A copy of a repetition: the copies that are left, whether it is required, and the stack from which
    /// it is read.
    Copy(Copies, bool, Stack),
    /// A turn of a repetition: the turns that are left, and the stack from which it is read.
    Turn(Turns, Stack),
}

/// A node that waits, and the stack from which it is read.
#[derive(Drop)]
pub struct Waiting {
    pub node: usize,
    pub stack: Stack,
    pub awaited: Awaited,
}

/// The next task of the interpreter.
#[derive(Clone, Copy)]
pub enum ReadTask {
    /// Read a node from a stack.
    Read(usize, Stack),
    /// Continue with the reading of the last task.
    Done(Reading),
}

impl How {
    /// Returns the reading of the node.
    fn whole(self, reading: Reading, stack: Stack, skips: bool) -> Reading
        ensures { reading_of result ≡ whole_of self skips (stack_of stack) (reading_of reading) }
    {
        match self {
            How::Same => reading,
            How::Ahead => reading.ahead(stack),
            How::NotAhead => reading.not_ahead(stack),
            How::Optional => reading.optional(stack),
            How::Pushed => reading.push_match(),
            How::Both(before, true) => before.or(reading, stack),
            How::Both(before, false) => before.then(reading, stack, skips),
        }
    }
}

/// Waits for an operand, which is read next.
pub fn wait(
    waiting: &mut Vec<Waiting>,
    node: usize,
    stack: Stack,
    awaited: Awaited,
    operand: usize,
) -> Result<ReadTask, AllocError>
    ensures { IfOk result (IsPut waiting.old.items waiting.new.items node stack awaited operand) }
{
    waiting.push(Waiting {
        node,
        stack,
        awaited,
    })?;
    Ok(ReadTask::Read(operand, stack))
}

/// Continues the node `last` with the reading of the operand that it waited for. A complete reading of a
/// node is memoized.
pub fn go_on(
    table: &Table,
    memory: &mut Memory,
    waiting: &mut Vec<Waiting>,
    last: Waiting,
    reading: Reading,
) -> Result<ReadTask, AllocError>
    ensures { IfOk result (ReadsOn table.now memory.old memory.new (ReadTask.Done reading)
        (waiting.old.items ++ last ∷ []) waiting.new.items) }
{
    let Waiting {
        node,
        stack,
        awaited,
    } = last;
    match awaited {
        Awaited::First(second, choice) => {
            waiting.push(Waiting {
                node,
                stack,
                awaited: Awaited::Last(How::Both(reading, choice)),
            })?;
            match reading.next_after(choice, stack) {
                Some(after) => Ok(ReadTask::Read(second, after)),
                None => Ok(ReadTask::Done(Reading::impossible())),
            }
        }
        Awaited::Last(how) => {
            let whole = how.whole(reading, stack, table.skips);
            memory.remember(node, stack, whole)?;
            Ok(ReadTask::Done(whole))
        }
        Awaited::Copy(copies, required, from) => {
            let copy = LastCopy {
                copies,
                required,
                from,
            };
            resume_copies(table, memory, waiting, Begun { node, stack }, copy, reading)
        }
        Awaited::Turn(turns, from) => {
            let turn = LastTurn { turns, from };
            resume_turns(table, memory, waiting, Begun { node, stack }, turn, reading)
        }
    }
}
