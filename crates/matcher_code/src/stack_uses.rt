//! Programs that do not use the stack.
ghost use Rattle.std.specs.Prelude.{◌≡◌};
ghost use Rattle.matcher_code.specs.Bytecodes.{lists_in};
ghost use Rattle.matcher_code.specs.StackUses.{is_stackless, uses_stack};

use crate::bytecode::Bytecode;
use crate::code::Op;
use crate::operations::read_op;

/// Returns whether an operation reads or changes the stack.
fn uses_stack(op: Op) -> bool
    ensures { result ≡ uses_stack op }
{
    match op {
        Op::Push { .. }
        | Op::PushText { .. }
        | Op::Peek { .. }
        | Op::Pop { .. }
        | Op::Discard { .. }
        | Op::PeekAll { .. }
        | Op::PopAll { .. }
        | Op::Slice { .. } => true,
        _ => false,
    }
}

/// Returns whether no operation of a program reads or changes the stack.
pub fn is_stackless(code: &Bytecode<'_>) -> bool
    ensures { result ≡ is_stackless (lists_in code.now) }
{
    for piece in code.ops {
        if uses_stack(read_op(piece)) {
            return false;
        }
    }
    true
}
