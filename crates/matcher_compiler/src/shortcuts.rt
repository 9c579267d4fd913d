//! Shortcuts in repetitions.
ghost use Rattle.std.specs.Prelude.{IfOk, IfSome, OnOk};
ghost use Rattle.base_language.specs.Language.Expression.{Choice, NegPred, Opt, Rep, Seq};
ghost use Rattle.base_language.specs.Language.Meaning.{Run};
ghost use Rattle.matcher_sets.specs.Forms.{IsBoundIn, IsSoundProgram, said};
ghost use Rattle.matcher_sets.specs.FirstSets.{AreFirstSets};
ghost use Rattle.matcher_sets.specs.Modes.{mode_of};
ghost use Rattle.matcher_compiler.specs.Plans.{FailsBefore, IsLater, IsTightIn, LaysAt, TakesOneIn};

use crate::forms::FAIL;
use crate::plan::Plan;
use crate::points::{Demand, NotCompiled, Part, TaskLabels};
use matcher_code::code::Op;
use matcher_code::ranges::Ranges;
use matcher_program::form::{Form, Program};
use matcher_sets::difference::{MOST_RANGES, choice_ranges, outside_ranges};
use matcher_sets::first_sets::{FirstSets, first_set_of};
use matcher_sets::modes::Atomicity;
use std::alloc::Global;

/// Returns the characters of some ranges before which a form fails at once, if these are known.
fn outside_first_set(
    alloc: Global,
    program: &Program,
    first_sets: &FirstSets,
    form: &Form,
    ranges: Ranges,
    mode: Atomicity,
) -> Result<Option<Ranges>, NotCompiled>
    requires sound { IsSoundProgram program.now }
    requires first_sets { AreFirstSets program.now first_sets.now }
    requires bound { IsBoundIn program.now form.now }
    ensures { IfOk result (λ made. IfSome made (λ rest. FailsBefore program.now
        (Run (mode_of mode) (said program.now form.now)) ranges.items rest.items)) }
{
    let known = first_set_of(alloc, program, first_sets, form, mode)?;
    let first_set = match known {
        Some(first_set) => first_set,
        None => return Ok(None),
    };
    if first_set.empty || first_set.noted || first_set.ranges.len() > MOST_RANGES {
        return Ok(None);
    }
    let rest = outside_ranges(alloc, ranges, &first_set.ranges)?;
    Ok(Some(rest))
}

/// Returns the characters that a form takes before which another fails at once, if these are known.
fn unstopped_ranges(
    alloc: Global,
    program: &Program,
    first_sets: &FirstSets,
    stop: &Form,
    form: &Form,
    mode: Atomicity,
) -> Result<Option<Ranges>, NotCompiled>
    requires sound { IsSoundProgram program.now }
    requires first_sets { AreFirstSets program.now first_sets.now }
    requires stop_bound { IsBoundIn program.now stop.now }
    requires bound { IsBoundIn program.now form.now }
    requires tight { IsTightIn program.now mode }
    ensures refused { IfOk result (λ made. IfSome made (λ ranges. TakesOneIn program.now (Run (mode_of mode)
        (Seq (NegPred (said program.now stop.now)) (said program.now form.now))) ranges.items)) }
    ensures missing { IfOk result (λ made. IfSome made (λ ranges. TakesOneIn program.now (Run (mode_of mode)
        (Seq (Opt (said program.now stop.now)) (said program.now form.now))) ranges.items)) }
{
    let made = choice_ranges(alloc, program, form)?;
    match made {
        Some(ranges) => outside_first_set(alloc, program, first_sets, stop, ranges, mode),
        None => Ok(None),
    }
}

/// Returns the characters that a sequence takes alone, if these are known.
fn sequence_ranges(
    alloc: Global,
    program: &Program,
    first_sets: &FirstSets,
    first: &Form,
    second: &Form,
    mode: Atomicity,
) -> Result<Option<Ranges>, NotCompiled>
    requires sound { IsSoundProgram program.now }
    requires first_sets { AreFirstSets program.now first_sets.now }
    requires first_bound { IsBoundIn program.now first.now }
    requires second_bound { IsBoundIn program.now second.now }
    requires tight { IsTightIn program.now mode }
    ensures { IfOk result (λ made. IfSome made (λ ranges. TakesOneIn program.now (Run (mode_of mode)
        (Seq (said program.now first.now) (said program.now second.now))) ranges.items)) }
{
    match first {
        Form::NegPred(stop) => unstopped_ranges(alloc, program, first_sets, stop, second, mode),
        Form::Opt(body) => unstopped_ranges(alloc, program, first_sets, body, second, mode),
        _ => Ok(None),
    }
}

/// Returns the characters that an alternative takes alone, if these are known.
fn alternative_ranges(
    alloc: Global,
    program: &Program,
    first_sets: &FirstSets,
    form: &Form,
    mode: Atomicity,
) -> Result<Option<Ranges>, NotCompiled>
    requires sound { IsSoundProgram program.now }
    requires first_sets { AreFirstSets program.now first_sets.now }
    requires bound { IsBoundIn program.now form.now }
    requires tight { IsTightIn program.now mode }
    ensures { IfOk result (λ made. IfSome made (λ ranges. TakesOneIn program.now
        (Run (mode_of mode) (said program.now form.now)) ranges.items)) }
{
    match form {
        Form::Seq(first, second) => {
            sequence_ranges(alloc, program, first_sets, first, second, mode)
        }
        _ => Ok(None),
    }
}

/// Returns the characters that a second alternative takes alone when the first one fails at once, if these
/// are known.
fn second_ranges(
    alloc: Global,
    program: &Program,
    first_sets: &FirstSets,
    left: &Form,
    right: &Form,
    mode: Atomicity,
) -> Result<Option<Ranges>, NotCompiled>
    requires sound { IsSoundProgram program.now }
    requires first_sets { AreFirstSets program.now first_sets.now }
    requires left_bound { IsBoundIn program.now left.now }
    requires right_bound { IsBoundIn program.now right.now }
    requires tight { IsTightIn program.now mode }
    ensures { IfOk result (λ made. IfSome made (λ ranges. TakesOneIn program.now (Run (mode_of mode)
        (Choice (said program.now left.now) (said program.now right.now))) ranges.items)) }
{
    let made = alternative_ranges(alloc, program, first_sets, right, mode)?;
    match made {
        Some(ranges) => outside_first_set(alloc, program, first_sets, left, ranges, mode),
        None => Ok(None),
    }
}

/// Returns the characters that a choice takes alone, by one of its alternatives, if these are known.
fn either_ranges(
    alloc: Global,
    program: &Program,
    first_sets: &FirstSets,
    left: &Form,
    right: &Form,
    mode: Atomicity,
) -> Result<Option<Ranges>, NotCompiled>
    requires sound { IsSoundProgram program.now }
    requires first_sets { AreFirstSets program.now first_sets.now }
    requires left_bound { IsBoundIn program.now left.now }
    requires right_bound { IsBoundIn program.now right.now }
    requires tight { IsTightIn program.now mode }
    ensures { IfOk result (λ made. IfSome made (λ ranges. TakesOneIn program.now (Run (mode_of mode)
        (Choice (said program.now left.now) (said program.now right.now))) ranges.items)) }
{
    let made = alternative_ranges(alloc, program, first_sets, left, mode)?;
    match made {
        Some(ranges) => Ok(Some(ranges)),
        None => second_ranges(alloc, program, first_sets, left, right, mode),
    }
}

/// Returns the characters that a form takes alone, if these are known.
fn single_ranges(
    alloc: Global,
    program: &Program,
    first_sets: &FirstSets,
    form: &Form,
    mode: Atomicity,
) -> Result<Option<Ranges>, NotCompiled>
    requires sound { IsSoundProgram program.now }
    requires first_sets { AreFirstSets program.now first_sets.now }
    requires bound { IsBoundIn program.now form.now }
    requires tight { IsTightIn program.now mode }
    ensures { IfOk result (λ made. IfSome made (λ ranges. TakesOneIn program.now
        (Run (mode_of mode) (said program.now form.now)) ranges.items)) }
{
    match form {
        Form::Choice(left, right) => either_ranges(alloc, program, first_sets, left, right, mode),
        _ => alternative_ranges(alloc, program, first_sets, form, mode),
    }
}

impl<'p> Plan<'p> {
    /// Plans a repetition whose body takes some characters alone, if nothing is skipped. The label
    /// `fresh` is free.
    fn shortened_repetition(
        &mut self,
        program: &Program,
        body: &'p Form,
        ranges: Ranges,
        at: TaskLabels,
        fresh: u32,
    ) -> Result<(), NotCompiled>
        requires bound { IsBoundIn program.now body.now }
        requires tight { IsTightIn program.now at.mode }
        requires takes { TakesOneIn program.now (Run (mode_of at.mode) (said program.now body.now))
            ranges.items }
        ensures later { OnOk result (IsLater program.now self.old self.new) }
        ensures lays { OnOk result (LaysAt program.now self.new (Run (mode_of at.mode)
            (Rep (said program.now body.entry.now))) at) }
    {
        if at.next == FAIL {
            return Err(NotCompiled::Unsupported);
        }
        self.demand(Demand::GoesOn { label: at.label })?;
        let set = self.set(ranges)?;
        self.operation(at.label, Op::All { set, next: fresh })?;
        self.point(
            Part::Form(body),
            TaskLabels {
                label: fresh,
                next: at.label,
                on_fail: at.next,
                ..at
            },
        )?;
        Ok(())
    }

    /// Plans a repetition by its turns, if nothing is skipped. The label `fresh` is free.
    pub(crate) fn tight_loop(
        &mut self,
        alloc: Global,
        program: &Program,
        first_sets: &FirstSets,
        body: &'p Form,
        at: TaskLabels,
        fresh: u32,
    ) -> Result<(), NotCompiled>
        requires sound { IsSoundProgram program.now }
        requires first_sets { AreFirstSets program.now first_sets.now }
        requires bound { IsBoundIn program.now body.now }
        requires tight { IsTightIn program.now at.mode }
        ensures later { OnOk result (IsLater program.now self.old self.new) }
        ensures lays { OnOk result (LaysAt program.now self.new (Run (mode_of at.mode)
            (Rep (said program.now body.entry.now))) at) }
    {
        let made = single_ranges(alloc, program, first_sets, body, at.mode)?;
        match made {
            Some(ranges) => self.shortened_repetition(program, body, ranges, at, fresh),
            None => self.tight_repetition(program, body, at),
        }
    }
}
