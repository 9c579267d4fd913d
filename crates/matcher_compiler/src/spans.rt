//! Spans of characters, which expressions take.
ghost use Rattle.std.specs.Prelude.{◌≡◌, IfOk, IfSome, OnOk, map};
ghost use Rattle.base_ast.specs.Ast.{text_of};
ghost use Rattle.base_language.specs.Language.Expression.{Expression, Rep, Seq, Skip};
ghost use Rattle.base_language.specs.Language.Meaning.{Run, Task};
ghost use Rattle.base_language.specs.Language.State.{Mode};
ghost use Rattle.matcher_program.specs.declared.form.Program.{Program};
ghost use Rattle.matcher_sets.specs.Forms.{IsBoundIn, IsSoundProgram, said};
ghost use Rattle.matcher_sets.specs.FirstSets.{AreFirstSets};
ghost use Rattle.matcher_sets.specs.Modes.{mode_of};
ghost use Rattle.matcher_compiler.specs.Plans.{IsLater, IsTightIn, LaysAt, TakesNoneIn, TakesSpanIn};

use crate::firsts::spare_first_set;
use crate::forms::FAIL;
use crate::plan::Plan;
use crate::points::{NotCompiled, Part, TaskLabels};
use matcher_code::code::Op;
use matcher_code::ranges::Ranges;
use matcher_program::form::{Form, Program};
use matcher_sets::characters::character_ranges;
use matcher_sets::difference::{MOST_RANGES, choice_ranges, outside_ranges, refused_ranges};
use matcher_sets::first_sets::{FirstSet, FirstSets};
use matcher_sets::modes::Atomicity;
use matcher_sets::texts::{all_characters, single_characters};
use std::alloc::Global;

/// Returns the characters that the repetition of a sequence takes, if these are known. In the sequence a
/// form refuses some characters, and one after it takes others.
fn other_ranges(
    alloc: Global,
    program: &Program,
    first: &Form,
    second: &Form,
    mode: Atomicity,
) -> Result<Option<Ranges>, NotCompiled>
    requires first_bound { IsBoundIn program.now first.now }
    requires second_bound { IsBoundIn program.now second.now }
    requires tight { IsTightIn program.now mode }
    ensures { IfOk result (λ made. IfSome made (λ ranges. TakesSpanIn program.now (Run (mode_of mode)
        (Rep (Seq (said program.now first.now) (said program.now second.now)))) ranges.items)) }
{
    let refused = refused_ranges(alloc, program, first)?;
    let others = match refused {
        Some(others) => others,
        None => return Ok(None),
    };
    if others.len() > MOST_RANGES {
        return Ok(None);
    }
    let made = choice_ranges(alloc, program, second)?;
    match made {
        Some(ranges) => {
            let rest = outside_ranges(alloc, ranges, &others)?;
            Ok(Some(rest))
        }
        None => Ok(None),
    }
}

/// Returns the characters that the repetition of a form of one character takes, if these are known.
fn same_ranges(
    alloc: Global,
    program: &Program,
    form: &Form,
    mode: Atomicity,
) -> Result<Option<Ranges>, NotCompiled>
    requires sound { IsSoundProgram program.now }
    requires bound { IsBoundIn program.now form.now }
    requires tight { IsTightIn program.now mode }
    ensures { IfOk result (λ made. IfSome made (λ ranges. TakesSpanIn program.now
        (Run (mode_of mode) (Rep (said program.now form.now))) ranges.items)) }
{
    let made = character_ranges(alloc, program, form)?;
    match made {
        Some(ranges) => Ok(Some(ranges)),
        None => Ok(None),
    }
}

/// Returns the characters that a repetition takes when nothing is skipped, if it is a span.
pub(crate) fn repeated_ranges(
    alloc: Global,
    program: &Program,
    body: &Form,
    mode: Atomicity,
) -> Result<Option<Ranges>, NotCompiled>
    requires sound { IsSoundProgram program.now }
    requires bound { IsBoundIn program.now body.now }
    requires tight { IsTightIn program.now mode }
    ensures { IfOk result (λ made. IfSome made (λ ranges. TakesSpanIn program.now
        (Run (mode_of mode) (Rep (said program.now body.now))) ranges.items)) }
{
    match body {
        Form::Seq(first, second) => other_ranges(alloc, program, first, second, mode),
        _ => same_ranges(alloc, program, body, mode),
    }
}

/// Returns the characters that a search for the first of some texts takes, if it is a span of texts of one
/// character.
pub(crate) fn searched_ranges(
    alloc: Global,
    texts: &Vec<String>,
) -> Result<Option<Ranges>, NotCompiled>
    ensures { IfOk result (λ made. IfSome made (λ ranges. (p : Program) (m : Mode)
        → TakesSpanIn p (Run m (Skip (map text_of texts.now.items))) ranges.items)) }
{
    let made = single_characters(alloc, texts)?;
    let others = match made {
        Some(others) => others,
        None => return Ok(None),
    };
    if others.len() > MOST_RANGES {
        return Ok(None);
    }
    let ranges = all_characters(alloc)?;
    let rest = outside_ranges(alloc, ranges, &others)?;
    Ok(Some(rest))
}

/// Returns the characters that a form takes when nothing is skipped, if it is a span.
pub(crate) fn span_ranges(
    alloc: Global,
    program: &Program,
    form: &Form,
    mode: Atomicity,
) -> Result<Option<Ranges>, NotCompiled>
    requires sound { IsSoundProgram program.now }
    requires bound { IsBoundIn program.now form.now }
    requires tight { IsTightIn program.now mode }
    ensures { IfOk result (λ made. IfSome made (λ ranges. TakesSpanIn program.now
        (Run (mode_of mode) (said program.now form.now)) ranges.items)) }
{
    match form {
        Form::Rep(body) => repeated_ranges(alloc, program, body, mode),
        Form::Skip(texts) => searched_ranges(alloc, texts),
        _ => Ok(None),
    }
}

impl<'p> Plan<'p> {
    /// Plans a task that is a span.
    pub(crate) fn span(&mut self, ranges: Ranges, at: TaskLabels) -> Result<(), NotCompiled>
        ensures later { OnOk result ((p : Program) → IsLater p self.old self.new) }
        ensures lays { OnOk result ((p : Program) (k : Task) → TakesSpanIn p k ranges.items
            → LaysAt p self.new k at) }
    {
        let set = self.set(ranges)?;
        self.operation(at.label, Op::All { set, next: at.next })?;
        Ok(())
    }

    /// Plans a sequence of a span and a form that takes nothing if no character of a FIRST set is next. A
    /// failure goes on as the last frame says. The labels from `fresh` on are free.
    fn span_sequence(
        &mut self,
        program: &Program,
        ranges: Ranges,
        first_set: FirstSet,
        second: &'p Form,
        at: TaskLabels,
        fresh: u32,
    ) -> Result<(), NotCompiled>
        requires bound { IsBoundIn program.now second.now }
        requires on_fail { at.on_fail ≡ 0 }
        requires tight { IsTightIn program.now at.mode }
        requires takes { TakesNoneIn program.now (Run (mode_of at.mode)
            (said program.now second.now)) first_set }
        ensures later { OnOk result (IsLater program.now self.old self.new) }
        ensures lays { OnOk result ((e : Expression)
            → TakesSpanIn program.now (Run (mode_of at.mode) e) ranges.items → LaysAt program.now self.new
            (Run (mode_of at.mode) (Seq e (said program.now second.entry.now))) at) }
    {
        if at.next == FAIL {
            return Err(NotCompiled::Unsupported);
        }
        let FirstSet {
            ranges: firsts,
            empty: _,
            noted,
        } = first_set;
        let note = fresh.saturating_add(1);
        let miss = self.miss(noted, at.next, note)?;
        let set = self.set(ranges)?;
        let stops = self.set(firsts)?;
        self.operation(
            at.label,
            Op::Trivia {
                set,
                stops,
                next: miss,
                slow: fresh,
            },
        )?;
        self.point(Part::Form(second), TaskLabels { label: fresh, ..at })?;
        Ok(())
    }

    /// Plans a sequence of a span and another form, with a test after the span if that spares work. The
    /// labels from `fresh` on are free.
    pub(crate) fn span_both(
        &mut self,
        alloc: Global,
        program: &Program,
        first_sets: &FirstSets,
        ranges: Ranges,
        first: &'p Form,
        second: &'p Form,
        at: TaskLabels,
        fresh: u32,
    ) -> Result<(), NotCompiled>
        requires sound { IsSoundProgram program.now }
        requires first_sets { AreFirstSets program.now first_sets.now }
        requires first_bound { IsBoundIn program.now first.now }
        requires second_bound { IsBoundIn program.now second.now }
        requires on_fail { at.on_fail ≡ 0 }
        requires tight { IsTightIn program.now at.mode }
        requires span { TakesSpanIn program.now (Run (mode_of at.mode) (said program.now first.now))
            ranges.items }
        ensures later { OnOk result (IsLater program.now self.old self.new) }
        ensures lays { OnOk result (LaysAt program.now self.new (Run (mode_of at.mode)
            (Seq (said program.now first.entry.now) (said program.now second.entry.now))) at) }
    {
        let made = spare_first_set(alloc, program, first_sets, second, at.mode)?;
        match made {
            Some(first_set) => {
                self.span_sequence(program, ranges, first_set, second, at, fresh)?;
                Ok(())
            }
            None => self.both(program, first, second, at, fresh),
        }
    }
}
