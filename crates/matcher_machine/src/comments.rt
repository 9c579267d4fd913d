//! Running the operation that takes a comment.
ghost use Rattle.std.specs.Prelude.{ℕ};
ghost use Rattle.matcher_code.specs.Bytecodes.{lists_in};
ghost use Rattle.matcher_code.specs.declared.code.Op.TheVariants as op;
ghost use Rattle.matcher_machine.specs.Machines.{Follows, config};

use crate::machine::{Machine, Next};
use matcher_code::bytecode::Bytecode;
use matcher_code::comments::nested_len;

/// The texts that open and close a comment, by number, and the operations after it.
#[derive(Clone, Copy, Debug)]
pub(crate) struct Comment {
    pub opening: u32,
    pub closing: u32,
    pub next: u32,
    pub fail: u32,
}

impl Machine {
    /// Takes a comment, with the comments within it.
    #[inline(always)]
    pub(crate) fn comment(
        &self,
        code: &Bytecode<'_>,
        text: &str,
        comment: Comment,
        at: usize,
    ) -> Next
        ensures { (pc : ℕ) → Follows (lists_in code.now) text.now
            (op.Nested comment.opening comment.closing comment.next comment.fail)
            (config (lists_in code.now) text.now self.now pc at) self.now result }
    {
        let size = nested_len(code, comment.opening, comment.closing, text, at);
        if size == 0 {
            Next::At(comment.fail, at)
        } else {
            Next::At(comment.next, at + size)
        }
    }
}
