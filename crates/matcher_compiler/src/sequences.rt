//! Sequences, and blanks with a test of the next character.
ghost use Rattle.std.specs.Prelude.{◌≡◌, None, OnOk};
ghost use Rattle.base_language.specs.Language.Expression.{Seq, comment, rule_of};
ghost use Rattle.base_language.specs.Language.Meaning.{Run, skipped};
ghost use Rattle.base_language.specs.Language.State.{Between, NonAtomicMode};
ghost use Rattle.matcher_sets.specs.Modes.{mode_of};
ghost use Rattle.matcher_sets.specs.Forms.{IsBoundIn, IsSoundProgram, grammar_in, said};
ghost use Rattle.matcher_sets.specs.FirstSets.{AreFirstSets};
ghost use Rattle.matcher_compiler.specs.Plans.{FailsWithout, IsBlankSet, IsLater, IsReady, IsTightIn, LaysAt, TakesNoneIn, one_comment};

use crate::firsts::spare_first_set;
use crate::forms::FAIL;
use crate::plan::{Plan, Skips};
use crate::points::{NotCompiled, Part, TaskLabels};
use crate::spans::span_ranges;
use crate::trivia::comment_first_set;
use matcher_code::code::Op;
use matcher_program::form::{Form, Program};
use matcher_sets::difference::{MOST_RANGES, choice_ranges, refused_ranges};
use matcher_sets::first_sets::{FirstSet, FirstSets};
use std::alloc::Global;

impl<'p> Plan<'p> {
    /// Plans blanks of a set, with a test of the next character, and then comments. The labels from `fresh`
    /// on are free.
    fn blanks_before(
        &mut self,
        program: &Program,
        set: u32,
        first_set: FirstSet,
        at: TaskLabels,
        fresh: u32,
    ) -> Result<(), NotCompiled>
        requires set { IsBlankSet program.now self.old.sets set }
        requires fails { FailsWithout program.now (Run Between one_comment) first_set }
        requires on_fail { at.on_fail ≡ 0 }
        ensures later { OnOk result (IsLater program.now self.old self.new) }
        ensures lays { OnOk result (LaysAt program.now self.new (Run Between skipped) at) }
    {
        if at.next == FAIL {
            return Err(NotCompiled::Unsupported);
        }
        let FirstSet {
            ranges,
            empty: _,
            noted,
        } = first_set;
        let note = fresh.saturating_add(1);
        let miss = self.miss(noted, at.next, note)?;
        let stops = self.set(ranges)?;
        self.operation(
            at.label,
            Op::Trivia {
                set,
                stops,
                next: miss,
                slow: fresh,
            },
        )?;
        self.point(
            Part::Comments,
            TaskLabels {
                label: fresh,
                on_fail: FAIL,
                ..at
            },
        )?;
        Ok(())
    }

    /// Plans blanks of a set, and then comments. The labels from `fresh` on are free.
    pub(crate) fn blanks_of_set(
        &mut self,
        alloc: Global,
        program: &Program,
        first_sets: &FirstSets,
        set: u32,
        at: TaskLabels,
        fresh: u32,
    ) -> Result<(), NotCompiled>
        requires sound { IsSoundProgram program.now }
        requires first_sets { AreFirstSets program.now first_sets.now }
        requires set { IsBlankSet program.now self.old.sets set }
        requires on_fail { at.on_fail ≡ 0 }
        ensures later { OnOk result (IsLater program.now self.old self.new) }
        ensures lays { OnOk result (LaysAt program.now self.new (Run Between skipped) at) }
    {
        let made = comment_first_set(alloc, program, first_sets)?;
        match made {
            Some(first_set) => self.blanks_before(program, set, first_set, at, fresh),
            None => self.blanks_and_comments(program, at, fresh),
        }
    }

    /// Plans a sequence with blanks of a set between its parts, and a test of the next character. If no
    /// character of a FIRST set is next, the second part takes nothing. A failure goes on as the last frame
    /// says. The labels from `fresh` on are free.
    fn trivia_sequence(
        &mut self,
        program: &Program,
        set: u32,
        first_set: FirstSet,
        first: &'p Form,
        second: &'p Form,
        at: TaskLabels,
        fresh: u32,
    ) -> Result<(), NotCompiled>
        requires first_bound { IsBoundIn program.now first.now }
        requires second_bound { IsBoundIn program.now second.now }
        requires on_fail { at.on_fail ≡ 0 }
        requires mode { mode_of at.mode ≡ NonAtomicMode }
        requires none { rule_of (grammar_in program.now) comment ≡ None }
        requires set { IsBlankSet program.now self.old.sets set }
        requires takes { TakesNoneIn program.now (Run (mode_of at.mode)
            (said program.now second.now)) first_set }
        ensures later { OnOk result (IsLater program.now self.old self.new) }
        ensures lays { OnOk result (LaysAt program.now self.new (Run (mode_of at.mode)
            (Seq (said program.now first.entry.now) (said program.now second.entry.now))) at) }
    {
        if at.next == FAIL {
            return Err(NotCompiled::Unsupported);
        }
        let FirstSet {
            ranges,
            empty: _,
            noted,
        } = first_set;
        let begin = fresh.saturating_add(1);
        let note = fresh.saturating_add(2);
        let miss = self.miss(noted, at.next, note)?;
        let stops = self.set(ranges)?;
        self.operation(
            fresh,
            Op::Trivia {
                set,
                stops,
                next: miss,
                slow: begin,
            },
        )?;
        self.point(Part::Form(first), TaskLabels { next: fresh, ..at })?;
        self.point(Part::Form(second), TaskLabels { label: begin, ..at })?;
        Ok(())
    }

    /// Plans two expressions, one right after the other, by the character that both match, or by parts if the
    /// first one does not refuse characters or refuses too many.
    fn plain_both(
        &mut self,
        alloc: Global,
        program: &Program,
        first: &'p Form,
        second: &'p Form,
        at: TaskLabels,
        fresh: u32,
    ) -> Result<(), NotCompiled>
        requires first_bound { IsBoundIn program.now first.now }
        requires second_bound { IsBoundIn program.now second.now }
        requires tight { IsTightIn program.now at.mode }
        ensures later { OnOk result (IsLater program.now self.old self.new) }
        ensures lays { OnOk result (LaysAt program.now self.new (Run (mode_of at.mode)
            (Seq (said program.now first.entry.now) (said program.now second.entry.now))) at) }
    {
        let refused = refused_ranges(alloc, program, first)?;
        let others = match refused {
            Some(others) => others,
            None => return self.both(program, first, second, at, fresh),
        };
        if others.len() > MOST_RANGES {
            return self.both(program, first, second, at, fresh);
        }
        let made = choice_ranges(alloc, program, second)?;
        match made {
            Some(ranges) => {
                self.other_character(alloc, program, first, second, &others, ranges, at)
            }
            None => self.both(program, first, second, at, fresh),
        }
    }

    /// Plans two expressions, one right after the other.
    fn tight_both(
        &mut self,
        alloc: Global,
        program: &Program,
        first_sets: &FirstSets,
        first: &'p Form,
        second: &'p Form,
        at: TaskLabels,
        fresh: u32,
    ) -> Result<(), NotCompiled>
        requires sound { IsSoundProgram program.now }
        requires first_sets { AreFirstSets program.now first_sets.now }
        requires first_bound { IsBoundIn program.now first.now }
        requires second_bound { IsBoundIn program.now second.now }
        requires tight { IsTightIn program.now at.mode }
        ensures later { OnOk result (IsLater program.now self.old self.new) }
        ensures lays { OnOk result (LaysAt program.now self.new (Run (mode_of at.mode)
            (Seq (said program.now first.entry.now) (said program.now second.entry.now))) at) }
    {
        if at.on_fail != FAIL {
            return self.plain_both(alloc, program, first, second, at, fresh);
        }
        let made = span_ranges(alloc, program, first, at.mode)?;
        match made {
            Some(ranges) => {
                self.span_both(alloc, program, first_sets, ranges, first, second, at, fresh)
            }
            None => self.plain_both(alloc, program, first, second, at, fresh),
        }
    }

    /// Plans two expressions with blanks of a set between them, and a test after these if that spares work.
    fn blank_both(
        &mut self,
        alloc: Global,
        program: &Program,
        first_sets: &FirstSets,
        set: u32,
        first: &'p Form,
        second: &'p Form,
        at: TaskLabels,
        fresh: u32,
    ) -> Result<(), NotCompiled>
        requires sound { IsSoundProgram program.now }
        requires first_sets { AreFirstSets program.now first_sets.now }
        requires first_bound { IsBoundIn program.now first.now }
        requires second_bound { IsBoundIn program.now second.now }
        requires mode { mode_of at.mode ≡ NonAtomicMode }
        requires none { rule_of (grammar_in program.now) comment ≡ None }
        requires set { IsBlankSet program.now self.old.sets set }
        ensures later { OnOk result (IsLater program.now self.old self.new) }
        ensures lays { OnOk result (LaysAt program.now self.new (Run (mode_of at.mode)
            (Seq (said program.now first.entry.now) (said program.now second.entry.now))) at) }
    {
        if at.on_fail != FAIL {
            return self.both(program, first, second, at, fresh);
        }
        let made = spare_first_set(alloc, program, first_sets, second, at.mode)?;
        match made {
            Some(first_set) => self.trivia_sequence(
                program, set, first_set, first, second, at, fresh,
            ),
            None => self.both(program, first, second, at, fresh),
        }
    }

    /// Plans two expressions with the implicit skipping between them.
    fn loose_both(
        &mut self,
        alloc: Global,
        program: &Program,
        first_sets: &FirstSets,
        first: &'p Form,
        second: &'p Form,
        at: TaskLabels,
        fresh: u32,
    ) -> Result<(), NotCompiled>
        requires sound { IsSoundProgram program.now }
        requires first_sets { AreFirstSets program.now first_sets.now }
        requires first_bound { IsBoundIn program.now first.now }
        requires second_bound { IsBoundIn program.now second.now }
        requires ready { IsReady program.now self.old }
        requires mode { mode_of at.mode ≡ NonAtomicMode }
        ensures later { OnOk result (IsLater program.now self.old self.new) }
        ensures lays { OnOk result (LaysAt program.now self.new (Run (mode_of at.mode)
            (Seq (said program.now first.entry.now) (said program.now second.entry.now))) at) }
    {
        match self.skips {
            Skips::Blanks(set) => {
                self.blank_both(alloc, program, first_sets, set, first, second, at, fresh)
            }
            _ => self.both(program, first, second, at, fresh),
        }
    }

    /// Plans a sequence of two expressions.
    pub(crate) fn two(
        &mut self,
        alloc: Global,
        program: &Program,
        first_sets: &FirstSets,
        first: &'p Form,
        second: &'p Form,
        at: TaskLabels,
        fresh: u32,
    ) -> Result<(), NotCompiled>
        requires sound { IsSoundProgram program.now }
        requires first_sets { AreFirstSets program.now first_sets.now }
        requires first_bound { IsBoundIn program.now first.now }
        requires second_bound { IsBoundIn program.now second.now }
        requires ready { IsReady program.now self.old }
        ensures later { OnOk result (IsLater program.now self.old self.new) }
        ensures lays { OnOk result (LaysAt program.now self.new (Run (mode_of at.mode)
            (Seq (said program.now first.entry.now) (said program.now second.entry.now))) at) }
    {
        if self.is_tight(at.mode) {
            self.tight_both(alloc, program, first_sets, first, second, at, fresh)
        } else {
            self.loose_both(alloc, program, first_sets, first, second, at, fresh)
        }
    }

    /// Plans two expressions, one after the other.
    pub(crate) fn both(
        &mut self,
        program: &Program,
        first: &'p Form,
        second: &'p Form,
        at: TaskLabels,
        fresh: u32,
    ) -> Result<(), NotCompiled>
        requires first_bound { IsBoundIn program.now first.now }
        requires second_bound { IsBoundIn program.now second.now }
        ensures later { OnOk result (IsLater program.now self.old self.new) }
        ensures lays { OnOk result (LaysAt program.now self.new (Run (mode_of at.mode)
            (Seq (said program.now first.entry.now) (said program.now second.entry.now))) at) }
    {
        self.sequence(program, Part::Form(first), Part::Form(second), at, fresh)?;
        Ok(())
    }
}
