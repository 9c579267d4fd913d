//! The loop over points.
ghost use Rattle.std.specs.Prelude.{◌≡◌, ◌<◌, ◌^◌, ℕ, OnOk, chars, get_or, length};
ghost use Rattle.base_language.specs.Language.Expression.{Choice, NegPred, NodeTag, PosPred, Rep, RepOnce, RestoreOnErr};
ghost use Rattle.base_language.specs.Language.Meaning.{Run, once_or_more};
ghost use Rattle.matcher_program.specs.declared.form.Form.TheVariants as form;
ghost use Rattle.matcher_sets.specs.Modes.{mode_of};
ghost use Rattle.matcher_compiler.specs.Names.{AreLast};
ghost use Rattle.matcher_sets.specs.Forms.{IsBoundIn, IsSoundProgram, said};
ghost use Rattle.matcher_sets.specs.FirstSets.{AreFirstSets};
ghost use Rattle.matcher_compiler.specs.Plans.{AreBound, IsBoundPart, IsLater, IsReady, IsTightIn, LaysAt, LaysPoint, task_in};
ghost use Rattle.matcher_compiler.specs.declared.points.Point.{Point};

use crate::plan::Plan;
use crate::points::{Demand, NotCompiled, Part, Point, TaskLabels};
use crate::spans::repeated_ranges;
use matcher_code::code::Op;
use matcher_program::form::{Form, Program};
use matcher_sets::difference::choice_ranges;
use matcher_sets::first_sets::FirstSets;
use matcher_sets::modes::Atomicity;
use std::alloc::Global;

/// The number from which on there are too many labels.
const TOO_MANY_LABELS: u32 = 0xffff_fff0;

/// Returns the first label after `Fail`, `Halt`, `Lose` and the entries of rules.
fn first_free(rules: usize) -> u32
    requires few { rules < 2 ^ 28 }
{
    rules as u32 + 3
}

/// Returns the first label from one on that comes after those of the points from a number on.
fn free_of_points(points: &[Point<'_>], start: usize, from: u32) -> u32 {
    let mut free = from;
    for number in start..points.len() {
        free = free.max(points[number].at.label.saturating_add(1));
    }
    free
}

/// Returns the first label from one on that comes after those of the demands from a number on.
fn free_of_demands(demands: &[Demand], start: usize, from: u32) -> u32 {
    let mut free = from;
    for number in start..demands.len() {
        if let Demand::Operation { label, op: _ } = demands[number] {
            free = free.max(label.saturating_add(1));
        }
    }
    free
}

impl<'p> Plan<'p> {
    /// Plans the end of a text.
    fn end_of_text(
        &mut self,
        program: &Program,
        at: TaskLabels,
        fresh: u32,
    ) -> Result<(), NotCompiled>
        requires bound { IsBoundIn program.now form.End }
        requires few { length program.now.rules.items < 2 ^ 28 }
        ensures later { OnOk result (IsLater program.now self.old self.new) }
        ensures lays { OnOk result
            (LaysAt program.now self.new (Run (mode_of at.mode) (said program.now form.End)) at) }
    {
        match at.mode {
            Atomicity::Atomic => self.bare_end(program, at),
            Atomicity::NonAtomic | Atomicity::CompoundAtomic => self.end(program, at, fresh),
        }
    }

    /// Plans a repetition if nothing is skipped.
    fn tight_turns(
        &mut self,
        alloc: Global,
        program: &Program,
        first_sets: &FirstSets,
        body: &'p Form,
        at: TaskLabels,
        fresh: u32,
    ) -> Result<(), NotCompiled>
        requires sound { IsSoundProgram program.now }
        requires first_sets { AreFirstSets program.now first_sets.now }
        requires bound { IsBoundIn program.now body.now }
        requires tight { IsTightIn program.now at.mode }
        ensures later { OnOk result (IsLater program.now self.old self.new) }
        ensures lays { OnOk result (LaysAt program.now self.new (Run (mode_of at.mode)
            (Rep (said program.now body.entry.now))) at) }
    {
        let made = repeated_ranges(alloc, program, body, at.mode)?;
        match made {
            Some(ranges) => {
                self.span(ranges, at)?;
                Ok(())
            }
            None => self.tight_loop(alloc, program, first_sets, body, at, fresh),
        }
    }

    /// Plans a repetition.
    fn turns(
        &mut self,
        alloc: Global,
        program: &Program,
        first_sets: &FirstSets,
        body: &'p Form,
        at: TaskLabels,
        fresh: u32,
    ) -> Result<(), NotCompiled>
        requires sound { IsSoundProgram program.now }
        requires first_sets { AreFirstSets program.now first_sets.now }
        requires bound { IsBoundIn program.now body.now }
        requires ready { IsReady program.now self.old }
        ensures later { OnOk result (IsLater program.now self.old self.new) }
        ensures lays { OnOk result (LaysAt program.now self.new (Run (mode_of at.mode)
            (Rep (said program.now body.entry.now))) at) }
    {
        if self.is_tight(at.mode) {
            self.tight_turns(alloc, program, first_sets, body, at, fresh)
        } else {
            self.repetition(alloc, program, first_sets, body, at, fresh)
        }
    }

    /// Plans a repetition that matches at least once.
    fn once_or_more(
        &mut self,
        program: &Program,
        body: &'p Form,
        at: TaskLabels,
    ) -> Result<(), NotCompiled>
        requires bound { IsBoundIn program.now body.now }
        ensures later { OnOk result (IsLater program.now self.old self.new) }
        ensures lays { OnOk result (LaysAt program.now self.new (Run (mode_of at.mode)
            (RepOnce (said program.now body.entry.now))) at) }
    {
        self.point(Part::OnceOrMore(body), at)?;
        Ok(())
    }

    /// Plans a tagged expression.
    fn tag(
        &mut self,
        program: &Program,
        body: &'p Form,
        tag: &str,
        at: TaskLabels,
    ) -> Result<(), NotCompiled>
        requires bound { IsBoundIn program.now body.now }
        ensures later { OnOk result (IsLater program.now self.old self.new) }
        ensures lays { OnOk result (LaysAt program.now self.new (Run (mode_of at.mode)
            (NodeTag (said program.now body.entry.now) (chars tag.now))) at) }
    {
        self.point(Part::Form(body), at)?;
        Ok(())
    }

    /// Plans an expression whose failure restores the stack.
    fn restore(
        &mut self,
        program: &Program,
        body: &'p Form,
        at: TaskLabels,
    ) -> Result<(), NotCompiled>
        requires bound { IsBoundIn program.now body.now }
        ensures later { OnOk result (IsLater program.now self.old self.new) }
        ensures lays { OnOk result (LaysAt program.now self.new (Run (mode_of at.mode)
            (RestoreOnErr (said program.now body.entry.now))) at) }
    {
        self.point(Part::Form(body), at)?;
        Ok(())
    }

    /// Plans a positive lookahead.
    fn ahead(
        &mut self,
        program: &Program,
        body: &'p Form,
        at: TaskLabels,
        fresh: u32,
    ) -> Result<(), NotCompiled>
        requires bound { IsBoundIn program.now body.now }
        ensures later { OnOk result (IsLater program.now self.old self.new) }
        ensures lays { OnOk result (LaysAt program.now self.new (Run (mode_of at.mode)
            (PosPred (said program.now body.entry.now))) at) }
    {
        let begin = Op::Try {
            next: fresh,
            fail: at.on_fail,
        };
        self.lookahead(program, body, at, fresh, begin, at.next)?;
        Ok(())
    }

    /// Plans a negative lookahead.
    fn not_ahead(
        &mut self,
        program: &Program,
        body: &'p Form,
        at: TaskLabels,
        fresh: u32,
    ) -> Result<(), NotCompiled>
        requires bound { IsBoundIn program.now body.now }
        ensures later { OnOk result (IsLater program.now self.old self.new) }
        ensures lays { OnOk result (LaysAt program.now self.new (Run (mode_of at.mode)
            (NegPred (said program.now body.entry.now))) at) }
    {
        let begin = Op::Not {
            next: fresh,
            fail: at.next,
        };
        self.lookahead(program, body, at, fresh, begin, at.on_fail)?;
        Ok(())
    }

    /// Plans an expression and its repetition, one after the other. A large expression is called by both, so
    /// that a program grows by a constant for each form. The labels from `fresh` on are free.
    fn once_and_turns(
        &mut self,
        program: &Program,
        body: &'p Form,
        at: TaskLabels,
        fresh: u32,
    ) -> Result<(), NotCompiled>
        requires bound { IsBoundIn program.now body.now }
        ensures later { OnOk result (IsLater program.now self.old self.new) }
        ensures lays { OnOk result (LaysAt program.now self.new (Run (mode_of at.mode)
            (once_or_more (said program.now body.entry.now))) at) }
    {
        if self.sizes.is_small_twice(program, body, at.mode) {
            self.sequence(program, Part::Form(body), Part::Repetition(body), at, fresh)
        } else {
            self.called_once_or_more(program, body, at, fresh)
        }
    }

    /// Plans a choice.
    fn alternatives(
        &mut self,
        alloc: Global,
        program: &Program,
        first_sets: &FirstSets,
        form: &Form,
        left: &'p Form,
        right: &'p Form,
        at: TaskLabels,
        fresh: u32,
    ) -> Result<(), NotCompiled>
        requires sound { IsSoundProgram program.now }
        requires first_sets { AreFirstSets program.now first_sets.now }
        requires bound { IsBoundIn program.now form.now }
        requires left_bound { IsBoundIn program.now left.now }
        requires right_bound { IsBoundIn program.now right.now }
        requires same { said program.now form.now
            ≡ Choice (said program.now left.now) (said program.now right.now) }
        ensures later { OnOk result (IsLater program.now self.old self.new) }
        ensures lays { OnOk result
            (LaysAt program.now self.new (Run (mode_of at.mode) (said program.now form.now)) at) }
    {
        let made = choice_ranges(alloc, program, form)?;
        match made {
            Some(ranges) => self.character(program, form, ranges, at),
            None => self.choice(alloc, program, first_sets, left, right, at, fresh),
        }
    }

    /// Plans an expression. The labels from `fresh` on are free.
    fn form(
        &mut self,
        alloc: Global,
        program: &Program,
        first_sets: &FirstSets,
        lasts: &[usize],
        form: &'p Form,
        at: TaskLabels,
        fresh: u32,
    ) -> Result<(), NotCompiled>
        requires sound { IsSoundProgram program.now }
        requires first_sets { AreFirstSets program.now first_sets.now }
        requires lasts { AreLast program.now.rules.items lasts.now }
        requires few { length program.now.rules.items < 2 ^ 28 }
        requires ready { IsReady program.now self.old }
        requires bound { IsBoundIn program.now form.now }
        ensures later { OnOk result (IsLater program.now self.old self.new) }
        ensures lays { OnOk result
            (LaysAt program.now self.new (Run (mode_of at.mode) (said program.now form.entry.now)) at) }
    {
        match form {
            Form::Str(text) => self.literal(alloc, program, text.as_str(), at),
            Form::Insens(text) => { self.literal_in_any_case(alloc, program, text.as_str(), at) }
            Form::Range(_, _) | Form::One(_) | Form::Set(_) | Form::Property(_, _) => {
                self.one_character(alloc, program, form, at)
            }
            Form::Start => self.start(program, at),
            Form::End => self.end_of_text(program, at, fresh),
            Form::Newline => self.newline(alloc, program, at, fresh),
            Form::Call(rule) => self.call(program, lasts, *rule, at, fresh),
            Form::PosPred(body) => self.ahead(program, body, at, fresh),
            Form::NegPred(body) => self.not_ahead(program, body, at, fresh),
            Form::Seq(first, second) => {
                self.two(alloc, program, first_sets, first, second, at, fresh)
            }
            Form::Choice(left, right) => {
                self.alternatives(alloc, program, first_sets, form, left, right, at, fresh)
            }
            Form::Opt(body) => self.option(alloc, program, first_sets, body, at, fresh),
            Form::Rep(body) => self.turns(alloc, program, first_sets, body, at, fresh),
            Form::RepOnce(body) => self.once_or_more(program, body, at),
            Form::Tag(body, tag) => self.tag(program, body, tag.as_str(), at),
            Form::Restore(body) => self.restore(program, body, at),
            Form::Skip(texts) => self.search(alloc, program, texts, at),
            Form::Push(body) => self.push(program, body, at, fresh),
            Form::PushLiteral(text) => self.push_literal(alloc, program, text.as_str(), at),
            Form::Peek => self.peek(program, at),
            Form::Pop => self.pop(program, at),
            Form::Discard => self.discard(program, at),
            Form::PeekAll => self.peek_all(program, at),
            Form::PopAll => self.pop_all(program, at),
            Form::PeekSlice(from, to) => self.slice(program, *from, *to, at),
        }
    }

    /// Plans the parts of the point of a number.
    fn part(
        &mut self,
        alloc: Global,
        program: &'p Program,
        first_sets: &FirstSets,
        lasts: &[usize],
        point: Point<'p>,
        number: usize,
        fresh: u32,
    ) -> Result<(), NotCompiled>
        requires sound { IsSoundProgram program.now }
        requires first_sets { AreFirstSets program.now first_sets.now }
        requires lasts { AreLast program.now.rules.items lasts.now }
        requires few { length program.now.rules.items < 2 ^ 28 }
        requires ready { IsReady program.now self.old }
        requires bound { IsBoundPart program.now point.part }
        ensures later { OnOk result (IsLater program.entry.now self.old self.new) }
        ensures lays { OnOk result (LaysAt program.entry.now self.new
            (task_in program.entry.now point.entry.part (mode_of point.entry.at.mode)) point.entry.at) }
    {
        let at = point.at;
        match point.part {
            Part::Form(form) => self.form(alloc, program, first_sets, lasts, form, at, fresh),
            Part::OnceOrMore(body) => { self.once_and_turns(program, body, at, fresh) }
            Part::Repetition(body) => self.turns(alloc, program, first_sets, body, at, fresh),
            Part::Body(rule) => match program.rules.get(rule) {
                Some(program_rule) => {
                    let inside = TaskLabels {
                        around: (number & 0xffff_ffff) as u32,
                        ..at
                    };
                    self.form(
                        alloc,
                        program,
                        first_sets,
                        lasts,
                        &program_rule.body,
                        inside,
                        fresh,
                    )
                }
                None => Err(NotCompiled::Unsupported),
            },
            Part::Rule(rule) => self.call(program, lasts, rule, at, fresh),
            Part::Trivia => self.trivia(program, at, fresh),
            Part::Skipped => self.plan_skipping(alloc, program, first_sets, at, fresh),
            Part::Blanks => self.blanks(alloc, program, first_sets, at, fresh),
            Part::BlankCall => self.blank_call(program, lasts, at, fresh),
            Part::Comments => self.comments(alloc, program, first_sets, at, fresh),
            Part::Comment => self.comment(program, at, fresh),
            Part::CommentCall => self.comment_call(program, lasts, at, fresh),
            Part::Stay => self.stay_between(program, at),
        }
    }

    /// Plans the parts of each point. The labels of its own are the first ones that are free.
    pub(crate) fn plan(
        &mut self,
        alloc: Global,
        program: &'p Program,
        first_sets: &FirstSets,
        lasts: &[usize],
    ) -> Result<(), NotCompiled>
        requires sound { IsSoundProgram program.now }
        requires first_sets { AreFirstSets program.now first_sets.now }
        requires lasts { AreLast program.now.rules.items lasts.now }
        requires few { length program.now.rules.items < 2 ^ 28 }
        requires ready { IsReady program.now self.old }
        requires bound { AreBound program.now self.old }
        ensures later { OnOk result (IsLater program.entry.now self.old self.new) }
        ensures lays { OnOk result ((i : ℕ) (d : Point) → i < length self.new.points.items
            → LaysPoint program.entry.now self.new (get_or self.new.points.items i d)) }
    {
        let mut fresh = first_free(program.rules.len());
        for number in 0..usize::MAX {
            let point = match self.points.get(number) {
                Some(point) => *point,
                None => return Ok(()),
            };
            if fresh >= TOO_MANY_LABELS {
                return Err(NotCompiled::Unsupported);
            }
            let points = self.points.len();
            let demands = self.demands.len();
            self.part(alloc, program, first_sets, lasts, point, number, fresh)?;
            fresh = free_of_points(&self.points, points, fresh);
            fresh = free_of_demands(&self.demands, demands, fresh);
        }
        Err(NotCompiled::Unsupported)
    }
}
