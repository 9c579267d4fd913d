//! Repetitions whose operand is called, so that its code stands once.
ghost use Rattle.std.specs.Prelude.{◌<◌, List, OnOk};
ghost use Rattle.base_language.specs.Language.Meaning.{Run, once_or_more};
ghost use Rattle.matcher_code.specs.Lists.{CodeLists};
ghost use Rattle.matcher_code.specs.Laid as lay;
ghost use Rattle.matcher_code.specs.Laid.{CallsTurns};
ghost use Rattle.matcher_sets.specs.Modes.{mode_of};
ghost use Rattle.matcher_sets.specs.Forms.{IsBoundIn, said};
ghost use Rattle.matcher_compiler.specs.Plans.{IsLater, LaysAt, Meets};

use crate::forms::FAIL;
use crate::plan::Plan;
use crate::points::{NotCompiled, Part, TaskLabels};
use matcher_code::code::Op;
use matcher_program::form::{Form, Program};

impl<'p> Plan<'p> {
    /// Returns the label at which the skipping goes on that begins at a label: that label itself, if nothing
    /// is skipped, or else the next one.
    fn behind_trivia(&self, at: TaskLabels, trivia: u32) -> u32 {
        if self.is_tight(at.mode) {
            trivia
        } else {
            trivia.saturating_add(1)
        }
    }

    /// Plans the code of an operand, which begins at `fresh`, and the turns of its repetition, which call it.
    /// The labels from `fresh` on are free.
    fn called_turns(
        &mut self,
        program: &Program,
        body: &'p Form,
        at: TaskLabels,
        fresh: u32,
    ) -> Result<(), NotCompiled>
        requires bound { IsBoundIn program.now body.now }
        requires next { 0 < at.next }
        ensures later { OnOk result (IsLater program.now self.old self.new) }
        ensures turns { OnOk result ((code : CodeLists) (laid : List lay.Point)
            → Meets program.now self.new code laid → CallsTurns code laid at.rank
            (mode_of at.mode) (said program.now body.entry.now) fresh at.label at.next) }
    {
        let last = fresh.saturating_add(1);
        let end = fresh.saturating_add(2);
        let trivia = fresh.saturating_add(3);
        let again = self.behind_trivia(at, trivia);
        self.point(
            Part::Form(body),
            TaskLabels {
                label: fresh,
                next: last,
                on_fail: FAIL,
                ..at
            },
        )?;
        self.operation(last, Op::Back)?;
        self.operation(
            at.label,
            Op::Try {
                next: trivia,
                fail: at.next,
            },
        )?;
        self.point(
            Part::Trivia,
            TaskLabels {
                label: trivia,
                next: again,
                on_fail: FAIL,
                ..at
            },
        )?;
        self.operation(
            again,
            Op::Sub {
                to: fresh,
                next: end,
                fail: FAIL,
            },
        )?;
        self.operation(end, Op::Commit { next: at.label })?;
        Ok(())
    }

    /// Plans an expression and its repetition, which call the expression. The labels from `fresh` on are
    /// free.
    pub(crate) fn called_once_or_more(
        &mut self,
        program: &Program,
        body: &'p Form,
        at: TaskLabels,
        fresh: u32,
    ) -> Result<(), NotCompiled>
        requires bound { IsBoundIn program.now body.now }
        ensures later { OnOk result (IsLater program.now self.old self.new) }
        ensures lays { OnOk result (LaysAt program.now self.new
            (Run (mode_of at.mode) (once_or_more (said program.now body.entry.now))) at) }
    {
        let start = fresh.saturating_add(5);
        let turn = fresh.saturating_add(6);
        let end = fresh.saturating_add(7);
        let trivia = fresh.saturating_add(8);
        let again = self.behind_trivia(at, trivia);
        self.operation(
            at.label,
            Op::Try {
                next: start,
                fail: at.on_fail,
            },
        )?;
        self.operation(
            start,
            Op::Sub {
                to: fresh,
                next: trivia,
                fail: FAIL,
            },
        )?;
        self.point(
            Part::Trivia,
            TaskLabels {
                label: trivia,
                next: again,
                on_fail: FAIL,
                ..at
            },
        )?;
        self.operation(
            again,
            Op::Sub {
                to: fresh,
                next: turn,
                fail: end,
            },
        )?;
        self.operation(end, Op::Commit { next: at.next })?;
        let turns = TaskLabels {
            label: turn,
            next: end,
            ..at
        };
        self.called_turns(program, body, turns, fresh)?;
        Ok(())
    }
}
