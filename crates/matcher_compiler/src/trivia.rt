//! The implicit skipping.
ghost use Rattle.std.specs.Prelude.{◌≡◌, ◌<◌, ◌^◌, IfOk, IfSome, None, OnOk, false, length};
ghost use Rattle.base_language.specs.Language.Expression.{Expression, Ident, Rep, comment, rule_of, whitespace};
ghost use Rattle.base_language.specs.Language.Meaning.{Run, Skipping, skipped};
ghost use Rattle.base_language.specs.Language.State.{Between, NonAtomicMode};
ghost use Rattle.matcher_program.specs.declared.form.Program.{Program};
ghost use Rattle.matcher_program.specs.Programs.{IsRuleOf, name_at, names_of};
ghost use Rattle.matcher_sets.specs.Modes.{mode_of};
ghost use Rattle.matcher_compiler.specs.Names.{AreLast};
ghost use Rattle.matcher_sets.specs.Forms.{IsSoundProgram, grammar_in};
ghost use Rattle.matcher_sets.specs.FirstSets.{AreFirstSets, HasFirstSet};
ghost use Rattle.matcher_compiler.specs.Plans.{FailsWithout, IsBlankSet, IsBoundPart, IsLater, IsReady, IsTightIn, LaysAt, blanks, one_comment, task_in};

use crate::forms::FAIL;
use crate::plan::{Plan, Skips};
use crate::points::{Demand, NotCompiled, Part, TaskLabels};
use matcher_code::code::Op;
use matcher_program::form::Program;
use matcher_sets::first_sets::{FirstSet, FirstSets, call_first_set};
use matcher_sets::modes::Atomicity;
use std::alloc::Global;

/// Returns the FIRST set of a call of a rule, if it is known, and the rule takes something.
fn sure_first_set(
    alloc: Global,
    program: &Program,
    first_sets: &FirstSets,
    rule: usize,
) -> Result<Option<FirstSet>, NotCompiled>
    requires sound { IsSoundProgram program.now }
    requires first_sets { AreFirstSets program.now first_sets.now }
    requires meant { IsRuleOf (grammar_in program.now)
        (name_at (names_of program.now.rules.items) rule) rule }
    ensures first_set { IfOk result (λ made. IfSome made (HasFirstSet program.now NonAtomicMode
        (Ident (name_at (names_of program.now.rules.items) rule)))) }
    ensures takes { IfOk result (λ made. IfSome made (λ first_set. first_set.empty ≡ false)) }
{
    let made = call_first_set(alloc, program, first_sets, rule, Atomicity::NonAtomic)?;
    match made {
        Some(first_set) => {
            if first_set.empty {
                Ok(None)
            } else {
                Ok(Some(first_set))
            }
        }
        None => Ok(None),
    }
}

/// Returns the FIRST set of a comment, if it is known, and a comment takes something.
pub(crate) fn comment_first_set(
    alloc: Global,
    program: &Program,
    first_sets: &FirstSets,
) -> Result<Option<FirstSet>, NotCompiled>
    requires sound { IsSoundProgram program.now }
    requires first_sets { AreFirstSets program.now first_sets.now }
    ensures { IfOk result (λ made. IfSome made
        (FailsWithout program.now (Run Between one_comment))) }
{
    match program.comment {
        Some(rule) => sure_first_set(alloc, program, first_sets, rule),
        None => Ok(None),
    }
}

/// Returns the FIRST set of a blank, if it is known, and a blank takes something.
fn blank_first_set(
    alloc: Global,
    program: &Program,
    first_sets: &FirstSets,
) -> Result<Option<FirstSet>, NotCompiled>
    requires sound { IsSoundProgram program.now }
    requires first_sets { AreFirstSets program.now first_sets.now }
    ensures { IfOk result (λ made. IfSome made
        (FailsWithout program.now (Run Between (Ident whitespace)))) }
{
    match program.whitespace {
        Some(rule) => sure_first_set(alloc, program, first_sets, rule),
        None => Ok(None),
    }
}

impl<'p> Plan<'p> {
    /// Plans nothing, if nothing is skipped.
    fn stay(&self, program: &Program, at: TaskLabels) -> Result<(), NotCompiled>
        requires tight { IsTightIn program.now at.mode }
        ensures lays { OnOk result (LaysAt program.now self.now (Skipping (mode_of at.mode)) at) }
    {
        if at.label == at.next {
            Ok(())
        } else {
            Err(NotCompiled::Unsupported)
        }
    }

    /// Plans the skipping between the parts of the skipping: nothing.
    pub(crate) fn stay_between(&self, program: &Program, at: TaskLabels) -> Result<(), NotCompiled>
        ensures lays { OnOk result (LaysAt program.now self.now (Skipping Between) at) }
    {
        if at.label == at.next {
            Ok(())
        } else {
            Err(NotCompiled::Unsupported)
        }
    }

    /// Plans the skipping of blanks, if there are no comments.
    fn skip_blanks(
        &mut self,
        program: &Program,
        set: u32,
        at: TaskLabels,
    ) -> Result<(), NotCompiled>
        requires none { rule_of (grammar_in program.now) comment ≡ None }
        requires set { IsBlankSet program.now self.old.sets set }
        requires mode { mode_of at.mode ≡ NonAtomicMode }
        ensures later { OnOk result (IsLater program.now self.old self.new) }
        ensures lays { OnOk result (LaysAt program.now self.new (Skipping (mode_of at.mode)) at) }
    {
        self.operation(at.label, Op::All { set, next: at.next })?;
        Ok(())
    }

    /// Plans the skipping as the expression that it is.
    fn skip_both(&mut self, program: &Program, at: TaskLabels) -> Result<(), NotCompiled>
        requires mode { mode_of at.mode ≡ NonAtomicMode }
        ensures later { OnOk result (IsLater program.now self.old self.new) }
        ensures lays { OnOk result (LaysAt program.now self.new (Skipping (mode_of at.mode)) at) }
    {
        self.point(Part::Skipped, at)?;
        Ok(())
    }

    /// Plans the implicit skipping. The labels from `fresh` on are free.
    pub(crate) fn trivia(
        &mut self,
        program: &Program,
        at: TaskLabels,
        fresh: u32,
    ) -> Result<(), NotCompiled>
        requires ready { IsReady program.now self.old }
        ensures later { OnOk result (IsLater program.now self.old self.new) }
        ensures lays { OnOk result (LaysAt program.now self.new (Skipping (mode_of at.mode)) at) }
    {
        if self.is_tight(at.mode) {
            self.stay(program, at)
        } else {
            match self.skips {
                Skips::Nothing => Err(NotCompiled::Unsupported),
                Skips::Blanks(set) => self.skip_blanks(program, set, at),
                Skips::Comments(_) => self.skip_both(program, at),
                Skips::Calls(_) => self.skip_call(program, at, fresh),
            }
        }
    }

    /// Plans blanks, and then comments. The labels from `fresh` on are free.
    pub(crate) fn blanks_and_comments(
        &mut self,
        program: &Program,
        at: TaskLabels,
        fresh: u32,
    ) -> Result<(), NotCompiled>
        requires on_fail { at.on_fail ≡ 0 }
        ensures later { OnOk result (IsLater program.now self.old self.new) }
        ensures lays { OnOk result (LaysAt program.now self.new (Run Between skipped) at) }
    {
        self.point(
            Part::Blanks,
            TaskLabels {
                next: fresh,
                on_fail: FAIL,
                ..at
            },
        )?;
        self.point(
            Part::Stay,
            TaskLabels {
                label: fresh,
                next: fresh,
                on_fail: FAIL,
                ..at
            },
        )?;
        self.point(
            Part::Comments,
            TaskLabels {
                label: fresh,
                on_fail: FAIL,
                ..at
            },
        )?;
        Ok(())
    }

    /// Plans the skipping as an expression: blanks, and then comments. The labels from `fresh` on are free.
    pub(crate) fn plan_skipping(
        &mut self,
        alloc: Global,
        program: &Program,
        first_sets: &FirstSets,
        at: TaskLabels,
        fresh: u32,
    ) -> Result<(), NotCompiled>
        requires sound { IsSoundProgram program.now }
        requires first_sets { AreFirstSets program.now first_sets.now }
        requires ready { IsReady program.now self.old }
        ensures later { OnOk result (IsLater program.now self.old self.new) }
        ensures lays { OnOk result (LaysAt program.now self.new (Run Between skipped) at) }
    {
        if at.on_fail != FAIL {
            return Err(NotCompiled::Unsupported);
        }
        match self.skips {
            Skips::Comments(set) => self.blanks_of_set(alloc, program, first_sets, set, at, fresh),
            _ => self.blanks_and_comments(program, at, fresh),
        }
    }

    /// Plans all blanks that are next, which are the characters of a set.
    fn blanks_of(&mut self, program: &Program, set: u32, at: TaskLabels) -> Result<(), NotCompiled>
        requires set { IsBlankSet program.now self.old.sets set }
        ensures later { OnOk result (IsLater program.now self.old self.new) }
        ensures lays { OnOk result (LaysAt program.now self.new (Run Between blanks) at) }
    {
        self.operation(at.label, Op::All { set, next: at.next })?;
        Ok(())
    }

    /// Plans a part of the implicit skipping, again and again until it fails. If the FIRST set of the part is
    /// known, there is a test of the next character. The labels from `fresh` on are free.
    fn turns_between(
        &mut self,
        program: &Program,
        part: Part<'p>,
        first_set: Option<FirstSet>,
        at: TaskLabels,
        fresh: u32,
    ) -> Result<(), NotCompiled>
        requires bound { IsBoundPart program.now part }
        ensures later { OnOk result (IsLater program.now self.old self.new) }
        ensures lays { OnOk result ((e : Expression)
            → task_in program.now part.entry (mode_of at.mode) ≡ Run Between e
            → IfSome first_set (FailsWithout program.now (Run Between e))
            → LaysAt program.now self.new (Run Between (Rep e)) at) }
    {
        if at.next == FAIL {
            return Err(NotCompiled::Unsupported);
        }
        self.demand(Demand::GoesOn { label: at.label })?;
        let tried = TaskLabels {
            next: at.label,
            on_fail: at.next,
            ..at
        };
        let label = self.enter_first_set(first_set, tried, fresh)?;
        self.point(part, TaskLabels { label, ..tried })?;
        Ok(())
    }

    /// Plans all blanks that are next, by calls of `WHITESPACE`. The labels from `fresh` on are free.
    fn blank_calls(
        &mut self,
        alloc: Global,
        program: &Program,
        first_sets: &FirstSets,
        at: TaskLabels,
        fresh: u32,
    ) -> Result<(), NotCompiled>
        requires sound { IsSoundProgram program.now }
        requires first_sets { AreFirstSets program.now first_sets.now }
        ensures later { OnOk result (IsLater program.now self.old self.new) }
        ensures lays { OnOk result (LaysAt program.now self.new (Run Between blanks) at) }
    {
        let first_set = blank_first_set(alloc, program, first_sets)?;
        self.turns_between(program, Part::BlankCall, first_set, at, fresh)?;
        Ok(())
    }

    /// Plans all blanks that are next. The labels from `fresh` on are free.
    pub(crate) fn blanks(
        &mut self,
        alloc: Global,
        program: &Program,
        first_sets: &FirstSets,
        at: TaskLabels,
        fresh: u32,
    ) -> Result<(), NotCompiled>
        requires sound { IsSoundProgram program.now }
        requires first_sets { AreFirstSets program.now first_sets.now }
        requires ready { IsReady program.now self.old }
        ensures later { OnOk result (IsLater program.now self.old self.new) }
        ensures lays { OnOk result (LaysAt program.now self.new (Run Between blanks) at) }
    {
        match self.skips {
            Skips::Nothing => Err(NotCompiled::Unsupported),
            Skips::Blanks(set) => self.blanks_of(program, set, at),
            Skips::Comments(set) => self.blanks_of(program, set, at),
            Skips::Calls(_) => self.blank_calls(alloc, program, first_sets, at, fresh),
        }
    }

    /// Plans a call of `WHITESPACE`, which is as one in NonAtomic. The labels from `fresh` on are free.
    pub(crate) fn blank_call(
        &mut self,
        program: &Program,
        lasts: &[usize],
        at: TaskLabels,
        fresh: u32,
    ) -> Result<(), NotCompiled>
        requires sound { IsSoundProgram program.now }
        requires lasts { AreLast program.now.rules.items lasts.now }
        requires few { length program.now.rules.items < 2 ^ 28 }
        ensures later { OnOk result (IsLater program.now self.old self.new) }
        ensures lays { OnOk result (LaysAt program.now self.new (Run Between (Ident whitespace)) at) }
    {
        let rule = match program.whitespace {
            Some(rule) => rule,
            None => return Err(NotCompiled::Unsupported),
        };
        let place = TaskLabels {
            mode: Atomicity::NonAtomic,
            ..at
        };
        self.call(program, lasts, rule, place, fresh)?;
        Ok(())
    }

    /// Plans no comments, if there is no rule `COMMENT`: characters of an empty set.
    fn no_comments(&mut self, program: &Program, at: TaskLabels) -> Result<(), NotCompiled>
        requires ready { IsReady program.now self.old }
        requires none { rule_of (grammar_in program.now) comment ≡ None }
        ensures later { OnOk result (IsLater program.now self.old self.new) }
        ensures lays { OnOk result (LaysAt program.now self.new
            (Run Between (Rep one_comment)) at) }
    {
        let set = match self.skips {
            Skips::Calls(set) => set,
            _ => return Err(NotCompiled::Unsupported),
        };
        self.operation(at.label, Op::All { set, next: at.next })?;
        Ok(())
    }

    /// Plans all comments that are next. The labels from `fresh` on are free.
    pub(crate) fn comments(
        &mut self,
        alloc: Global,
        program: &Program,
        first_sets: &FirstSets,
        at: TaskLabels,
        fresh: u32,
    ) -> Result<(), NotCompiled>
        requires sound { IsSoundProgram program.now }
        requires first_sets { AreFirstSets program.now first_sets.now }
        requires ready { IsReady program.now self.old }
        ensures later { OnOk result (IsLater program.now self.old self.new) }
        ensures lays { OnOk result (LaysAt program.now self.new
            (Run Between (Rep one_comment)) at) }
    {
        match program.comment {
            Some(_) => self.comment_turns(alloc, program, first_sets, at, fresh),
            None => self.no_comments(program, at),
        }
    }

    /// Plans all comments that are next, by calls. The labels from `fresh` on are free.
    fn comment_turns(
        &mut self,
        alloc: Global,
        program: &Program,
        first_sets: &FirstSets,
        at: TaskLabels,
        fresh: u32,
    ) -> Result<(), NotCompiled>
        requires sound { IsSoundProgram program.now }
        requires first_sets { AreFirstSets program.now first_sets.now }
        ensures later { OnOk result (IsLater program.now self.old self.new) }
        ensures lays { OnOk result (LaysAt program.now self.new
            (Run Between (Rep one_comment)) at) }
    {
        let first_set = comment_first_set(alloc, program, first_sets)?;
        self.turns_between(program, Part::Comment, first_set, at, fresh)?;
        Ok(())
    }

    /// Plans a comment with blanks after it. The labels from `fresh` on are free.
    pub(crate) fn comment(
        &mut self,
        program: &Program,
        at: TaskLabels,
        fresh: u32,
    ) -> Result<(), NotCompiled>
        ensures later { OnOk result (IsLater program.now self.old self.new) }
        ensures lays { OnOk result (LaysAt program.now self.new
            (Run Between one_comment) at) }
    {
        let last = fresh.saturating_add(1);
        let start = fresh.saturating_add(2);
        self.operation(
            at.label,
            Op::Try {
                next: start,
                fail: at.on_fail,
            },
        )?;
        self.operation(last, Op::Commit { next: at.next })?;
        self.point(
            Part::CommentCall,
            TaskLabels {
                label: start,
                next: fresh,
                on_fail: FAIL,
                ..at
            },
        )?;
        self.point(
            Part::Stay,
            TaskLabels {
                label: fresh,
                next: fresh,
                on_fail: FAIL,
                ..at
            },
        )?;
        self.point(
            Part::Blanks,
            TaskLabels {
                label: fresh,
                next: last,
                on_fail: FAIL,
                ..at
            },
        )?;
        Ok(())
    }

    /// Plans a call of `COMMENT`, which is as one in NonAtomic. The labels from `fresh` on are free.
    pub(crate) fn comment_call(
        &mut self,
        program: &Program,
        lasts: &[usize],
        at: TaskLabels,
        fresh: u32,
    ) -> Result<(), NotCompiled>
        requires sound { IsSoundProgram program.now }
        requires lasts { AreLast program.now.rules.items lasts.now }
        requires few { length program.now.rules.items < 2 ^ 28 }
        ensures later { OnOk result (IsLater program.now self.old self.new) }
        ensures lays { OnOk result (LaysAt program.now self.new (Run Between (Ident comment)) at) }
    {
        let rule = match program.comment {
            Some(rule) => rule,
            None => return Err(NotCompiled::Unsupported),
        };
        let place = TaskLabels {
            mode: Atomicity::NonAtomic,
            ..at
        };
        self.call(program, lasts, rule, place, fresh)?;
        Ok(())
    }
}
