//! The loop search: from a stack, turns that cannot fail and take nothing, until one starts as an earlier
//! one.
ghost use Rattle.std.specs.Prelude.{◌≡◌, ◌<◌, IfOk, IfSome, OnOk};
ghost use Rattle.front_stack_domain.specs.Stack as is;
ghost use Rattle.front_stack_domain.specs.Reading as says;
ghost use Rattle.front_stack_loops.specs.Table.{IsOrdered};
ghost use Rattle.front_stack_loops.specs.Memory.{AnswersRightly};
ghost use Rattle.front_stack_loops.specs.Searching.{itself, marks_in};
ghost use Rattle.front_stack_domain.specs.Views.{stack_of};

use crate::memory::Memory;
use crate::reader::read;
use crate::table::Table;
use front_stack_domain::Stack;
use std::alloc::{AllocError, Global};

/// Whether one of the stacks has the same marks.
fn has_marks_of(stacks: &[Stack], stack: Stack) -> bool
    ensures { result ≡ is.are_among (marks_in stacks.now) (stack_of stack).marks }
{
    for start in stacks {
        if stack.has_same_marks(*start) {
            return true;
        }
    }
    false
}

/// Whether what is repeated can go on for ever from a stack.
pub fn loops(
    alloc: Global,
    table: &Table,
    memory: &mut Memory,
    body: usize,
    stack: Stack,
    turns: usize,
) -> Result<bool, AllocError>
    requires inside { body < table.now.nodes.len }
    requires ordered { IsOrdered table.now }
    ensures { IfOk result (AnswersRightly itself (λ meaning. says.loops turns (meaning body)
        (stack_of stack)) table.now memory.old memory.new) }
{
    let mut start = stack.made_intact();
    let mut starts = Vec::new(alloc);
    starts.push(start)?;
    for done in 0..turns {
        let reading = read(alloc, table, memory, body, start)?;
        let Some(after) = reading.sure_stack() else {
            return Ok(false);
        };
        if !after.intact {
            starts = Vec::new(alloc);
        } else if has_marks_of(&starts, after) {
            return Ok(true);
        }
        start = after.made_intact();
        starts.push(start)?;
    }
    Ok(false)
}
