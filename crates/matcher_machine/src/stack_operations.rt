//! One function for each kind of operation on the stack.
ghost use Rattle.std.specs.Prelude.{◌≡◌, ℕ, List, IfOk};
ghost use Rattle.matcher_code.specs.Bytecodes.{lists_in};
ghost use Rattle.matcher_code.specs.Lists.{CodeLists};
ghost use Rattle.matcher_code.specs.declared.code.Op.TheVariants as op;
ghost use Rattle.matcher_machine.specs.Machines.{Follows, config};

use crate::machine::{Machine, Next};
use crate::stack::StackText;
use crate::texts::match_held;
use matcher_code::bytecode::Bytecode;
use std::alloc::AllocError;

/// The bounds of a slice of the stack.
#[derive(Clone, Copy, Debug)]
pub(crate) struct Slice {
    pub from: i32,
    pub to: Option<i32>,
}

impl Machine {
    /// Pops a frame, and pushes the text from its position to here on the stack.
    #[inline(always)]
    pub(crate) fn push_input(&mut self, next: u32, at: usize) -> Result<Next, AllocError>
        ensures { IfOk result (λ answer. (code : CodeLists) (text : List ℕ) (pc : ℕ)
            → Follows code text (op.Push next) (config code text self.old pc at) self.new answer) }
    {
        match self.pop() {
            Some(frame) => {
                self.stack.push(StackText::Input {
                    from: frame.at,
                    to: at,
                })?;
                Ok(Next::At(next, at))
            }
            None => Ok(Next::Stuck),
        }
    }

    /// Pushes a text of the program on the stack.
    #[inline(always)]
    pub(crate) fn push_text(
        &mut self,
        number: u32,
        next: u32,
        at: usize,
    ) -> Result<Next, AllocError>
        ensures { IfOk result (λ answer. (code : CodeLists) (text : List ℕ) (pc : ℕ)
            → Follows code text (op.PushText number next)
            (config code text self.old pc at) self.new answer) }
    {
        self.stack.push(StackText::Program { text: number })?;
        Ok(Next::At(next, at))
    }

    /// Takes the text on top of the stack.
    #[inline(always)]
    pub(crate) fn peek(
        &self,
        code: &Bytecode<'_>,
        text: &str,
        next: u32,
        fail: u32,
        at: usize,
    ) -> Next
        ensures { (pc : ℕ) → Follows (lists_in code.now) text.now (op.Peek next fail)
            (config (lists_in code.now) text.now self.now pc at) self.now result }
    {
        match self.stack.last() {
            Some(last) => match match_held(code, text, last.text, at) {
                Some(size) => Next::At(next, at + size),
                None => Next::At(fail, at),
            },
            None => Next::Stuck,
        }
    }

    /// Takes the text on top of the stack, and pops it.
    #[inline(always)]
    pub(crate) fn pop_text(
        &mut self,
        code: &Bytecode<'_>,
        text: &str,
        next: u32,
        fail: u32,
        at: usize,
    ) -> Next
        ensures { (pc : ℕ) → Follows (lists_in code.now) text.now (op.Pop next fail)
            (config (lists_in code.now) text.now self.old pc at) self.new result }
    {
        match self.stack.last() {
            Some(last) => match match_held(code, text, last.text, at) {
                Some(size) => {
                    self.stack.top = last.below;
                    Next::At(next, at + size)
                }
                None => Next::At(fail, at),
            },
            None => Next::Stuck,
        }
    }

    /// Pops the text on top of the stack.
    #[inline(always)]
    pub(crate) fn discard(&mut self, next: u32, fail: u32, at: usize) -> Next
        ensures { (code : CodeLists) (text : List ℕ) (pc : ℕ)
            → Follows code text (op.Discard next fail)
            (config code text self.old pc at) self.new result }
    {
        match self.stack.last() {
            Some(last) => {
                self.stack.top = last.below;
                Next::At(next, at)
            }
            None => Next::At(fail, at),
        }
    }

    /// Takes all texts of the stack.
    #[inline(always)]
    pub(crate) fn peek_all(
        &self,
        code: &Bytecode<'_>,
        text: &str,
        next: u32,
        fail: u32,
        at: usize,
    ) -> Next
        ensures { (pc : ℕ) → Follows (lists_in code.now) text.now (op.PeekAll next fail)
            (config (lists_in code.now) text.now self.now pc at) self.now result }
    {
        match self.stack.match_all(code, text, at) {
            Some(size) => Next::At(next, at + size),
            None => Next::At(fail, at),
        }
    }

    /// Takes all texts of the stack, and pops them.
    #[inline(always)]
    #[tactic(auto, using(crate::proofs::Stacking::at_bottom))]
    pub(crate) fn pop_all(
        &mut self,
        code: &Bytecode<'_>,
        text: &str,
        next: u32,
        fail: u32,
        at: usize,
    ) -> Next
        ensures { (pc : ℕ) → Follows (lists_in code.now) text.now (op.PopAll next fail)
            (config (lists_in code.now) text.now self.old pc at) self.new result }
    {
        match self.stack.match_all(code, text, at) {
            Some(size) => {
                self.stack.top = 0;
                Next::At(next, at + size)
            }
            None => Next::At(fail, at),
        }
    }

    /// Takes a slice of the stack.
    #[inline(always)]
    pub(crate) fn slice(
        &self,
        code: &Bytecode<'_>,
        text: &str,
        taken: Slice,
        next: u32,
        fail: u32,
        at: usize,
    ) -> Result<Next, AllocError>
        ensures { IfOk result (λ answer. (pc : ℕ)
            → Follows (lists_in code.now) text.now (op.Slice taken.from taken.to next fail)
            (config (lists_in code.now) text.now self.now pc at) self.now answer) }
    {
        match self
            .stack
            .match_slice(code, text, taken.from, taken.to, at)?
        {
            Some(size) => Ok(Next::At(next, at + size)),
            None => Ok(Next::At(fail, at)),
        }
    }
}
