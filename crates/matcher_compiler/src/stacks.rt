//! Plans of expressions that read or change the stack.
ghost use Rattle.std.specs.Prelude.{◌≡◌, None, OnOk, chars, codes};
ghost use Rattle.base_language.specs.Language.Expression.{Ident, PeekSlice, Push, PushLiteral, rule_of};
ghost use Rattle.base_language.specs.Language.Meaning.{Run};
ghost use Rattle.matcher_sets.specs.Modes.{mode_of};
ghost use Rattle.matcher_sets.specs.Forms.{IsBoundIn, grammar_in, said};
ghost use Rattle.matcher_compiler.specs.Plans.{IsLater, LaysAt};

use crate::forms::FAIL;
use crate::plan::Plan;
use crate::points::{NotCompiled, Part, TaskLabels};
use matcher_code::code::Op;
use matcher_program::form::{Form, Program};
use std::alloc::Global;

impl<'p> Plan<'p> {
    /// Plans an expression whose text is pushed on the stack.
    pub(crate) fn push(
        &mut self,
        program: &Program,
        body: &'p Form,
        at: TaskLabels,
        fresh: u32,
    ) -> Result<(), NotCompiled>
        requires bound { IsBoundIn program.now body.now }
        ensures later { OnOk result (IsLater program.now self.old self.new) }
        ensures lays { OnOk result (LaysAt program.now self.new
            (Run (mode_of at.mode) (Push (said program.now body.entry.now))) at) }
    {
        let last = fresh.saturating_add(1);
        self.operation(
            at.label,
            Op::Try {
                next: fresh,
                fail: at.on_fail,
            },
        )?;
        self.operation(last, Op::Push { next: at.next })?;
        self.point(
            Part::Form(body),
            TaskLabels {
                label: fresh,
                next: last,
                on_fail: FAIL,
                ..at
            },
        )?;
        Ok(())
    }

    /// Plans a literal that is pushed on the stack.
    pub(crate) fn push_literal(
        &mut self,
        alloc: Global,
        program: &Program,
        text: &str,
        at: TaskLabels,
    ) -> Result<(), NotCompiled>
        ensures later { OnOk result (IsLater program.now self.old self.new) }
        ensures lays { OnOk result (LaysAt program.now self.new
            (Run (mode_of at.mode) (PushLiteral (chars text.now))) at) }
    {
        let number = self.text(alloc, text)?;
        self.operation(
            at.label,
            Op::PushText {
                text: number,
                next: at.next,
            },
        )?;
        Ok(())
    }

    /// Plans `PEEK`.
    pub(crate) fn peek(&mut self, program: &Program, at: TaskLabels) -> Result<(), NotCompiled>
        requires bound { rule_of (grammar_in program.now) (codes "PEEK") ≡ None }
        ensures later { OnOk result (IsLater program.now self.old self.new) }
        ensures lays { OnOk result
            (LaysAt program.now self.new (Run (mode_of at.mode) (Ident (codes "PEEK"))) at) }
    {
        self.operation(
            at.label,
            Op::Peek {
                next: at.next,
                fail: at.on_fail,
            },
        )?;
        Ok(())
    }

    /// Plans `POP`.
    pub(crate) fn pop(&mut self, program: &Program, at: TaskLabels) -> Result<(), NotCompiled>
        requires bound { rule_of (grammar_in program.now) (codes "POP") ≡ None }
        ensures later { OnOk result (IsLater program.now self.old self.new) }
        ensures lays { OnOk result
            (LaysAt program.now self.new (Run (mode_of at.mode) (Ident (codes "POP"))) at) }
    {
        self.operation(
            at.label,
            Op::Pop {
                next: at.next,
                fail: at.on_fail,
            },
        )?;
        Ok(())
    }

    /// Plans `DROP`.
    pub(crate) fn discard(&mut self, program: &Program, at: TaskLabels) -> Result<(), NotCompiled>
        requires bound { rule_of (grammar_in program.now) (codes "DROP") ≡ None }
        ensures later { OnOk result (IsLater program.now self.old self.new) }
        ensures lays { OnOk result
            (LaysAt program.now self.new (Run (mode_of at.mode) (Ident (codes "DROP"))) at) }
    {
        self.operation(
            at.label,
            Op::Discard {
                next: at.next,
                fail: at.on_fail,
            },
        )?;
        Ok(())
    }

    /// Plans `PEEK_ALL`.
    pub(crate) fn peek_all(&mut self, program: &Program, at: TaskLabels) -> Result<(), NotCompiled>
        requires bound { rule_of (grammar_in program.now) (codes "PEEK_ALL") ≡ None }
        ensures later { OnOk result (IsLater program.now self.old self.new) }
        ensures lays { OnOk result
            (LaysAt program.now self.new (Run (mode_of at.mode) (Ident (codes "PEEK_ALL"))) at) }
    {
        self.operation(
            at.label,
            Op::PeekAll {
                next: at.next,
                fail: at.on_fail,
            },
        )?;
        Ok(())
    }

    /// Plans `POP_ALL`.
    pub(crate) fn pop_all(&mut self, program: &Program, at: TaskLabels) -> Result<(), NotCompiled>
        requires bound { rule_of (grammar_in program.now) (codes "POP_ALL") ≡ None }
        ensures later { OnOk result (IsLater program.now self.old self.new) }
        ensures lays { OnOk result
            (LaysAt program.now self.new (Run (mode_of at.mode) (Ident (codes "POP_ALL"))) at) }
    {
        self.operation(
            at.label,
            Op::PopAll {
                next: at.next,
                fail: at.on_fail,
            },
        )?;
        Ok(())
    }

    /// Plans a slice of the stack.
    pub(crate) fn slice(
        &mut self,
        program: &Program,
        from: i32,
        to: Option<i32>,
        at: TaskLabels,
    ) -> Result<(), NotCompiled>
        ensures later { OnOk result (IsLater program.now self.old self.new) }
        ensures lays { OnOk result
            (LaysAt program.now self.new (Run (mode_of at.mode) (PeekSlice from to)) at) }
    {
        self.operation(
            at.label,
            Op::Slice {
                from,
                to,
                next: at.next,
                fail: at.on_fail,
            },
        )?;
        Ok(())
    }
}
