//! Tests before expressions.
ghost use Rattle.std.specs.Prelude.{IfOk, IfSome, List, OnOk};
ghost use Rattle.base_language.specs.Language.Meaning.{Run, Task};
ghost use Rattle.matcher_code.specs.Lists.{CodeLists};
ghost use Rattle.matcher_code.specs.Laid as lay;
ghost use Rattle.matcher_code.specs.Laid.{GoesTo};
ghost use Rattle.matcher_program.specs.declared.form.Program.{Program};
ghost use Rattle.matcher_sets.specs.Forms.{IsBoundIn, IsSoundProgram, said};
ghost use Rattle.matcher_sets.specs.FirstSets.{AreFirstSets};
ghost use Rattle.matcher_sets.specs.Modes.{mode_of};
ghost use Rattle.matcher_compiler.specs.Plans.{EntersAt, FailsWithout, IsLater, Meets, TakesNoneIn};

use crate::forms::FAIL;
use crate::plan::Plan;
use crate::points::{NotCompiled, TaskLabels};
use matcher_code::code::Op;
use matcher_code::ranges::Ranges;
use matcher_program::form::{Form, Program};
use matcher_sets::first_sets::{FirstSet, FirstSets, first_set_of};
use matcher_sets::modes::Atomicity;
use std::alloc::Global;

/// Returns a form without what restores the stack if it fails.
fn inside(form: &Form) -> &Form {
    match form {
        Form::Restore(body) => body,
        _ => form,
    }
}

/// Returns whether a test may spare more than it takes, if calls are as they are: the form is a call, or has
/// several parts.
fn is_long(form: &Form) -> bool {
    matches!(
        inside(form),
        Form::Call(_) | Form::Seq(_, _) | Form::RepOnce(_)
    )
}

/// Returns whether ranges have nearly all characters.
fn is_wide(ranges: &Ranges) -> bool {
    for (low, high) in ranges {
        if (*high).saturating_sub(*low) > 0x10_0000 {
            return true;
        }
    }
    false
}

/// Returns the FIRST set of a form in a mode, if it is known and the form fails elsewhere.
pub(crate) fn narrow_first_set(
    alloc: Global,
    program: &Program,
    first_sets: &FirstSets,
    form: &Form,
    mode: Atomicity,
) -> Result<Option<FirstSet>, NotCompiled>
    requires sound { IsSoundProgram program.now }
    requires first_sets { AreFirstSets program.now first_sets.now }
    requires bound { IsBoundIn program.now form.now }
    ensures { IfOk result (λ made. IfSome made
        (FailsWithout program.now (Run (mode_of mode) (said program.now form.now)))) }
{
    let made = first_set_of(alloc, program, first_sets, form, mode)?;
    match made {
        Some(first_set) => {
            if first_set.empty || is_wide(&first_set.ranges) {
                Ok(None)
            } else {
                Ok(Some(first_set))
            }
        }
        None => Ok(None),
    }
}

/// Returns the FIRST set of a form in a mode, if it is known and the form takes nothing elsewhere, and
/// does not fail.
pub(crate) fn spare_first_set(
    alloc: Global,
    program: &Program,
    first_sets: &FirstSets,
    form: &Form,
    mode: Atomicity,
) -> Result<Option<FirstSet>, NotCompiled>
    requires sound { IsSoundProgram program.now }
    requires first_sets { AreFirstSets program.now first_sets.now }
    requires bound { IsBoundIn program.now form.now }
    ensures { IfOk result (λ made. IfSome made
        (TakesNoneIn program.now (Run (mode_of mode) (said program.now form.now)))) }
{
    let made = first_set_of(alloc, program, first_sets, form, mode)?;
    match made {
        Some(first_set) => {
            if first_set.empty && !is_wide(&first_set.ranges) {
                Ok(Some(first_set))
            } else {
                Ok(None)
            }
        }
        None => Ok(None),
    }
}

impl<'p> Plan<'p> {
    /// Returns whether a test may spare more than it takes. A call in place is as long as the body.
    fn is_long_at(&self, program: &Program, form: &Form, at: TaskLabels) -> bool {
        match form {
            Form::Call(rule) => match self.placed_body(program, *rule, at) {
                Some(body) => is_long(body),
                None => true,
            },
            _ => is_long(form),
        }
    }

    /// Returns the label at which a failure goes on at `on_fail`, after an operation at the label `note` if
    /// it is recorded.
    pub(crate) fn miss(&mut self, noted: bool, on_fail: u32, note: u32) -> Result<u32, NotCompiled>
        ensures later { OnOk result ((p : Program) → IsLater p self.old self.new) }
        ensures goes { IfOk result (λ miss. (p : Program) (code : CodeLists) (laid : List lay.Point)
            → Meets p self.new code laid → GoesTo code noted miss on_fail) }
    {
        if noted {
            self.operation(note, Op::Note { next: on_fail })?;
            Ok(note)
        } else {
            Ok(on_fail)
        }
    }

    /// Plans a test of the next character before a task that fails if none of a FIRST set is next. Returns
    /// the label at which the task begins then. The labels from `fresh` on are free.
    pub(crate) fn test(
        &mut self,
        first_set: FirstSet,
        at: TaskLabels,
        fresh: u32,
    ) -> Result<u32, NotCompiled>
        ensures later { OnOk result ((p : Program) → IsLater p self.old self.new) }
        ensures enters { IfOk result (λ first. (p : Program) (k : Task)
            → FailsWithout p k first_set → EntersAt p self.new k at first) }
    {
        let FirstSet {
            ranges,
            empty: _,
            noted,
        } = first_set;
        let note = fresh.saturating_add(1);
        let miss = self.miss(noted, at.on_fail, note)?;
        let set = self.set(ranges)?;
        self.operation(
            at.label,
            Op::IsOne {
                set,
                next: fresh,
                fail: miss,
            },
        )?;
        Ok(fresh)
    }

    /// Plans a test of the next character before a form, if it spares something. Returns the label at which
    /// the form begins. The labels from `fresh` on are free.
    pub(crate) fn enter(
        &mut self,
        alloc: Global,
        program: &Program,
        first_sets: &FirstSets,
        form: &Form,
        at: TaskLabels,
        fresh: u32,
    ) -> Result<u32, NotCompiled>
        requires sound { IsSoundProgram program.now }
        requires first_sets { AreFirstSets program.now first_sets.now }
        requires bound { IsBoundIn program.now form.now }
        ensures later { OnOk result (IsLater program.now self.old self.new) }
        ensures enters { IfOk result (EntersAt program.now self.new
            (Run (mode_of at.mode) (said program.now form.now)) at) }
    {
        if at.on_fail == FAIL {
            return Ok(at.label);
        }
        self.enter_any(alloc, program, first_sets, form, at, fresh)
    }

    /// Plans a test of the next character before a form, also if a failure goes on as the last frame says.
    /// Returns the label at which the form begins. The labels from `fresh` on are free.
    pub(crate) fn enter_any(
        &mut self,
        alloc: Global,
        program: &Program,
        first_sets: &FirstSets,
        form: &Form,
        at: TaskLabels,
        fresh: u32,
    ) -> Result<u32, NotCompiled>
        requires sound { IsSoundProgram program.now }
        requires first_sets { AreFirstSets program.now first_sets.now }
        requires bound { IsBoundIn program.now form.now }
        ensures later { OnOk result (IsLater program.now self.old self.new) }
        ensures enters { IfOk result (EntersAt program.now self.new
            (Run (mode_of at.mode) (said program.now form.now)) at) }
    {
        if !self.is_long_at(program, form, at) {
            return Ok(at.label);
        }
        self.enter_by_test(alloc, program, first_sets, form, at, fresh)
    }

    /// Plans a test of the next character before a form, if its FIRST set is known. Returns the label at
    /// which the form begins. The labels from `fresh` on are free.
    pub(crate) fn enter_by_test(
        &mut self,
        alloc: Global,
        program: &Program,
        first_sets: &FirstSets,
        form: &Form,
        at: TaskLabels,
        fresh: u32,
    ) -> Result<u32, NotCompiled>
        requires sound { IsSoundProgram program.now }
        requires first_sets { AreFirstSets program.now first_sets.now }
        requires bound { IsBoundIn program.now form.now }
        ensures later { OnOk result (IsLater program.now self.old self.new) }
        ensures enters { IfOk result (EntersAt program.now self.new
            (Run (mode_of at.mode) (said program.now form.now)) at) }
    {
        let made = narrow_first_set(alloc, program, first_sets, form, at.mode)?;
        match made {
            Some(first_set) => {
                let first = self.test(first_set, at, fresh)?;
                Ok(first)
            }
            None => Ok(at.label),
        }
    }

    /// Plans a test of the next character before a task, if its FIRST set is known. Returns the label at
    /// which the task begins. The labels from `fresh` on are free.
    pub(crate) fn enter_first_set(
        &mut self,
        first_set: Option<FirstSet>,
        at: TaskLabels,
        fresh: u32,
    ) -> Result<u32, NotCompiled>
        ensures later { OnOk result ((p : Program) → IsLater p self.old self.new) }
        ensures enters { IfOk result (λ first. (p : Program) (k : Task) → IfSome first_set (FailsWithout p k)
            → EntersAt p self.new k at first) }
    {
        match first_set {
            Some(first_set) => {
                let first = self.test(first_set, at, fresh)?;
                Ok(first)
            }
            None => Ok(at.label),
        }
    }
}
