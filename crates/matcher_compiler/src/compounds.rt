//! Plans of expressions with operands.
ghost use Rattle.std.specs.Prelude.{◌≡◌, ◌<◌, None, OnOk, Some};
ghost use Rattle.base_language.specs.Language.Expression.{Choice, Expression, NegPred, Opt, PosPred, Rep, Seq};
ghost use Rattle.base_language.specs.Language.Meaning.{Run, Skipping};
ghost use Rattle.base_language.specs.Language.State.{NonAtomicMode};
ghost use Rattle.matcher_code.specs.declared.code.Op.TheVariants as op;
ghost use Rattle.matcher_sets.specs.Modes.{mode_of};
ghost use Rattle.matcher_sets.specs.Forms.{IsBoundIn, IsSoundProgram, said};
ghost use Rattle.matcher_sets.specs.FirstSets.{AreFirstSets};
ghost use Rattle.matcher_compiler.specs.Plans.{BeginsAt, HasParts, HasTurns, IsBoundPart, IsLater, IsReady, IsTightIn, LaysAt, task_in};

use crate::forms::FAIL;
use crate::plan::Plan;
use crate::points::{Demand, NotCompiled, Part, TaskLabels};
use matcher_code::code::Op;
use matcher_program::form::{Form, Program};
use matcher_sets::first_sets::FirstSets;
use std::alloc::Global;

impl<'p> Plan<'p> {
    /// Plans a lookahead. An operation pushes a frame first, and if the body matches, the run goes on at
    /// `found`.
    pub(crate) fn lookahead(
        &mut self,
        program: &Program,
        body: &'p Form,
        at: TaskLabels,
        fresh: u32,
        begin: Op,
        found: u32,
    ) -> Result<(), NotCompiled>
        requires bound { IsBoundIn program.now body.now }
        ensures later { OnOk result (IsLater program.now self.old self.new) }
        ensures positive { OnOk result (begin ≡ op.Try fresh at.on_fail → found ≡ at.next
            → LaysAt program.now self.new
            (Run (mode_of at.mode) (PosPred (said program.now body.entry.now))) at) }
        ensures negative { OnOk result (begin ≡ op.Not fresh at.next → found ≡ at.on_fail
            → LaysAt program.now self.new
            (Run (mode_of at.mode) (NegPred (said program.now body.entry.now))) at) }
    {
        let last = fresh.saturating_add(1);
        self.operation(at.label, begin)?;
        self.operation(last, Op::Ahead { next: found })?;
        self.point(
            Part::Form(body),
            TaskLabels {
                label: fresh,
                next: last,
                on_fail: FAIL,
                ..at
            },
        )?;
        Ok(())
    }

    /// Plans the parts of a sequence, whose failures go on as the last frame says.
    fn parts(
        &mut self,
        program: &Program,
        first: Part<'p>,
        second: Part<'p>,
        at: TaskLabels,
        fresh: u32,
    ) -> Result<(), NotCompiled>
        requires first_bound { IsBoundPart program.now first }
        requires second_bound { IsBoundPart program.now second }
        ensures later { OnOk result (IsLater program.now self.old self.new) }
        ensures lays { OnOk result (HasParts program.now self.new first.entry second.entry at) }
    {
        let begin = if self.is_tight(at.mode) {
            fresh
        } else {
            fresh.saturating_add(1)
        };
        self.point(
            first,
            TaskLabels {
                next: fresh,
                on_fail: FAIL,
                ..at
            },
        )?;
        self.point(
            Part::Trivia,
            TaskLabels {
                label: fresh,
                next: begin,
                on_fail: FAIL,
                ..at
            },
        )?;
        self.point(
            second,
            TaskLabels {
                label: begin,
                on_fail: FAIL,
                ..at
            },
        )?;
        Ok(())
    }

    /// Plans a sequence whose failure goes on as the last frame says.
    fn bare_sequence(
        &mut self,
        program: &Program,
        first: Part<'p>,
        second: Part<'p>,
        at: TaskLabels,
        fresh: u32,
    ) -> Result<(), NotCompiled>
        requires first_bound { IsBoundPart program.now first }
        requires second_bound { IsBoundPart program.now second }
        requires on_fail { at.on_fail ≡ 0 }
        ensures later { OnOk result (IsLater program.now self.old self.new) }
        ensures lays { OnOk result ((a b : Expression)
            → task_in program.now first.entry (mode_of at.mode) ≡ Run (mode_of at.mode) a
            → task_in program.now second.entry (mode_of at.mode) ≡ Run (mode_of at.mode) b
            → LaysAt program.now self.new (Run (mode_of at.mode) (Seq a b)) at) }
    {
        self.parts(program, first, second, at, fresh)?;
        Ok(())
    }

    /// Plans a sequence with a frame of its own.
    fn tried_sequence(
        &mut self,
        program: &Program,
        first: Part<'p>,
        second: Part<'p>,
        at: TaskLabels,
        fresh: u32,
    ) -> Result<(), NotCompiled>
        requires first_bound { IsBoundPart program.now first }
        requires second_bound { IsBoundPart program.now second }
        ensures later { OnOk result (IsLater program.now self.old self.new) }
        ensures lays { OnOk result ((a b : Expression)
            → task_in program.now first.entry (mode_of at.mode) ≡ Run (mode_of at.mode) a
            → task_in program.now second.entry (mode_of at.mode) ≡ Run (mode_of at.mode) b
            → LaysAt program.now self.new (Run (mode_of at.mode) (Seq a b)) at) }
    {
        let last = fresh.saturating_add(2);
        let start = fresh.saturating_add(3);
        self.operation(
            at.label,
            Op::Try {
                next: start,
                fail: at.on_fail,
            },
        )?;
        self.operation(last, Op::Commit { next: at.next })?;
        let inner = TaskLabels {
            label: start,
            next: last,
            on_fail: FAIL,
            ..at
        };
        self.parts(program, first, second, inner, fresh)?;
        Ok(())
    }

    /// Plans a sequence.
    pub(crate) fn sequence(
        &mut self,
        program: &Program,
        first: Part<'p>,
        second: Part<'p>,
        at: TaskLabels,
        fresh: u32,
    ) -> Result<(), NotCompiled>
        requires first_bound { IsBoundPart program.now first }
        requires second_bound { IsBoundPart program.now second }
        ensures later { OnOk result (IsLater program.now self.old self.new) }
        ensures lays { OnOk result ((a b : Expression)
            → task_in program.now first.entry (mode_of at.mode) ≡ Run (mode_of at.mode) a
            → task_in program.now second.entry (mode_of at.mode) ≡ Run (mode_of at.mode) b
            → LaysAt program.now self.new (Run (mode_of at.mode) (Seq a b)) at) }
    {
        if at.on_fail == FAIL {
            self.bare_sequence(program, first, second, at, fresh)
        } else {
            self.tried_sequence(program, first, second, at, fresh)
        }
    }

    /// Plans an alternative, after a test of its first character if that spares something. The labels from
    /// `fresh` on are free.
    fn alternative(
        &mut self,
        alloc: Global,
        program: &Program,
        first_sets: &FirstSets,
        form: &'p Form,
        at: TaskLabels,
        fresh: u32,
    ) -> Result<(), NotCompiled>
        requires sound { IsSoundProgram program.now }
        requires first_sets { AreFirstSets program.now first_sets.now }
        requires bound { IsBoundIn program.now form.now }
        ensures later { OnOk result (IsLater program.now self.old self.new) }
        ensures begins { OnOk result (BeginsAt program.now self.new
            (Run (mode_of at.mode) (said program.now form.entry.now)) at) }
    {
        let label = self.enter(alloc, program, first_sets, form, at, fresh)?;
        self.point(Part::Form(form), TaskLabels { label, ..at })?;
        Ok(())
    }

    /// Plans a choice, by a table or by its alternatives in turn. The labels from `fresh` on are free.
    pub(crate) fn choice(
        &mut self,
        alloc: Global,
        program: &Program,
        first_sets: &FirstSets,
        left: &'p Form,
        right: &'p Form,
        at: TaskLabels,
        fresh: u32,
    ) -> Result<(), NotCompiled>
        requires sound { IsSoundProgram program.now }
        requires first_sets { AreFirstSets program.now first_sets.now }
        requires left_bound { IsBoundIn program.now left.now }
        requires right_bound { IsBoundIn program.now right.now }
        ensures later { OnOk result (IsLater program.now self.old self.new) }
        ensures lays { OnOk result (LaysAt program.now self.new (Run (mode_of at.mode)
            (Choice (said program.now left.entry.now) (said program.now right.entry.now))) at) }
    {
        if fresh == FAIL {
            return Err(NotCompiled::Unsupported);
        }
        let made = self.table_first_set(alloc, program, first_sets, left, at.mode)?;
        match made {
            Some(first_set) => {
                self.switched_choice(
                    alloc, program, first_sets, first_set, left, right, at, fresh,
                )
            }
            None => self.tried_choice(alloc, program, first_sets, left, right, at, fresh),
        }
    }

    /// Plans the alternatives of a choice, which are tried in turn.
    fn tried_choice(
        &mut self,
        alloc: Global,
        program: &Program,
        first_sets: &FirstSets,
        left: &'p Form,
        right: &'p Form,
        at: TaskLabels,
        fresh: u32,
    ) -> Result<(), NotCompiled>
        requires sound { IsSoundProgram program.now }
        requires first_sets { AreFirstSets program.now first_sets.now }
        requires left_bound { IsBoundIn program.now left.now }
        requires right_bound { IsBoundIn program.now right.now }
        requires up { 0 < fresh }
        ensures later { OnOk result (IsLater program.now self.old self.new) }
        ensures lays { OnOk result (LaysAt program.now self.new (Run (mode_of at.mode)
            (Choice (said program.now left.entry.now) (said program.now right.entry.now))) at) }
    {
        let first = TaskLabels {
            on_fail: fresh,
            ..at
        };
        let second = TaskLabels { label: fresh, ..at };
        self.alternative(
            alloc,
            program,
            first_sets,
            left,
            first,
            fresh.saturating_add(1),
        )?;
        self.alternative(
            alloc,
            program,
            first_sets,
            right,
            second,
            fresh.saturating_add(3),
        )?;
        Ok(())
    }

    /// Plans an option.
    pub(crate) fn option(
        &mut self,
        alloc: Global,
        program: &Program,
        first_sets: &FirstSets,
        body: &'p Form,
        at: TaskLabels,
        fresh: u32,
    ) -> Result<(), NotCompiled>
        requires sound { IsSoundProgram program.now }
        requires first_sets { AreFirstSets program.now first_sets.now }
        requires bound { IsBoundIn program.now body.now }
        ensures later { OnOk result (IsLater program.now self.old self.new) }
        ensures lays { OnOk result (LaysAt program.now self.new (Run (mode_of at.mode)
            (Opt (said program.now body.entry.now))) at) }
    {
        if at.next == FAIL {
            return Err(NotCompiled::Unsupported);
        }
        let tried = TaskLabels {
            on_fail: at.next,
            ..at
        };
        self.alternative(alloc, program, first_sets, body, tried, fresh)?;
        Ok(())
    }

    /// Plans a repetition if nothing is skipped.
    pub(crate) fn tight_repetition(
        &mut self,
        program: &Program,
        body: &'p Form,
        at: TaskLabels,
    ) -> Result<(), NotCompiled>
        requires bound { IsBoundIn program.now body.now }
        requires tight { IsTightIn program.now at.mode }
        ensures later { OnOk result (IsLater program.now self.old self.new) }
        ensures lays { OnOk result (LaysAt program.now self.new (Run (mode_of at.mode)
            (Rep (said program.now body.entry.now))) at) }
    {
        if at.next == FAIL {
            return Err(NotCompiled::Unsupported);
        }
        self.demand(Demand::GoesOn { label: at.label })?;
        self.point(
            Part::Form(body),
            TaskLabels {
                next: at.label,
                on_fail: at.next,
                ..at
            },
        )?;
        Ok(())
    }

    /// Plans a repetition with skipping between its turns. The labels from `fresh` on are free.
    pub(crate) fn repetition(
        &mut self,
        alloc: Global,
        program: &Program,
        first_sets: &FirstSets,
        body: &'p Form,
        at: TaskLabels,
        fresh: u32,
    ) -> Result<(), NotCompiled>
        requires sound { IsSoundProgram program.now }
        requires first_sets { AreFirstSets program.now first_sets.now }
        requires bound { IsBoundIn program.now body.now }
        ensures later { OnOk result (IsLater program.now self.old self.new) }
        ensures lays { OnOk result (LaysAt program.now self.new (Run (mode_of at.mode)
            (Rep (said program.now body.entry.now))) at) }
    {
        if at.next == FAIL {
            return Err(NotCompiled::Unsupported);
        }
        let tried = TaskLabels {
            on_fail: at.next,
            ..at
        };
        let start = self.enter_by_test(
            alloc,
            program,
            first_sets,
            body,
            tried,
            fresh.saturating_add(4),
        )?;
        self.turns_from(program, body, at, start, fresh)?;
        Ok(())
    }

    /// Plans the turns of a repetition with skipping between them, of which the first begins at a label.
    fn turns_from(
        &mut self,
        program: &Program,
        body: &'p Form,
        at: TaskLabels,
        start: u32,
        fresh: u32,
    ) -> Result<(), NotCompiled>
        requires bound { IsBoundIn program.now body.now }
        requires next { 0 < at.next }
        ensures later { OnOk result (IsLater program.now self.old self.new) }
        ensures lays { OnOk result (HasTurns program.now self.new
            (said program.now body.entry.now) at start) }
    {
        let trivia = fresh.saturating_add(1);
        let first = fresh.saturating_add(2);
        let last = fresh.saturating_add(3);
        self.operation(
            start,
            Op::Try {
                next: first,
                fail: at.next,
            },
        )?;
        self.operation(
            fresh,
            Op::Try {
                next: trivia,
                fail: at.next,
            },
        )?;
        self.operation(last, Op::Commit { next: fresh })?;
        self.point(
            Part::Trivia,
            TaskLabels {
                label: trivia,
                next: first,
                on_fail: FAIL,
                ..at
            },
        )?;
        self.point(
            Part::Form(body),
            TaskLabels {
                label: first,
                next: last,
                on_fail: FAIL,
                ..at
            },
        )?;
        Ok(())
    }
}
