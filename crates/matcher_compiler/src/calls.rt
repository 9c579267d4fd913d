//! Calls of rules.
ghost use Rattle.std.specs.Prelude.{◌≡◌, ◌<◌, ◌^◌, IfOk, List, OnOk, false, get_or, length, true};
ghost use Rattle.base_ast.specs.Ast.{rule_type_of};
ghost use Rattle.base_language.specs.Language.Expression.{Ident};
ghost use Rattle.base_language.specs.Language.Meaning.{Run, Skipping, gives_token, skipped};
ghost use Rattle.base_language.specs.Language.State.{Between, NonAtomicMode};
ghost use Rattle.matcher_code.specs.Lists.{CodeLists};
ghost use Rattle.matcher_code.specs.Laid as lay;
ghost use Rattle.matcher_code.specs.Laid.{IsPoint};
ghost use Rattle.matcher_program.specs.Programs.{IsRuleOf, name_at, names_of};
ghost use Rattle.matcher_program.specs.declared.form.Program.{Program};
ghost use Rattle.matcher_sets.specs.Modes.{mode_of};
ghost use Rattle.matcher_compiler.specs.Names.{AreLast, IsLast};
ghost use Rattle.matcher_sets.specs.Forms.{IsSoundProgram, grammar_in};
ghost use Rattle.matcher_compiler.specs.Plans.{IsBoundPart, IsLater, LaysAt, Meets, body_in};

use crate::forms::FAIL;
use crate::plan::Plan;
use crate::points::{Demand, NO_CALL, NotCompiled, Part, Point, TOP_RANK, TaskLabels};
use matcher_code::code::Op;
use matcher_program::form::{Form, Program, ProgramRule};
use matcher_sets::modes::{Atomicity, body_mode, gives_token, is_seen_from};
use matcher_sets::sizes::MOST_INSIDE;

/// How many bodies a rule may have: one for each mode, with and without a token.
pub(crate) const BODIES: usize = 6;

/// Returns whether a point is the body of a rule.
fn is_body(point: Point<'_>, rule: usize) -> bool {
    match point.part {
        Part::Body(number) => number == rule,
        _ => false,
    }
}

/// Returns the number of the body of a rule in a mode, with or without a token.
fn body_number(rule: usize, mode: Atomicity, gives: bool) -> usize {
    let in_mode: usize = match mode {
        Atomicity::NonAtomic => 0,
        Atomicity::Atomic => 2,
        Atomicity::CompoundAtomic => 4,
    };
    let other: usize = if gives { 1 } else { 0 };
    rule.saturating_mul(BODIES)
        .saturating_add(in_mode)
        .saturating_add(other)
}

impl<'p> Plan<'p> {
    /// Remembers the point of a body.
    fn remember(&mut self, number: usize, point: usize)
        ensures { (p : Program) → IsLater p self.old self.new }
    {
        if let Some(place) = self.bodies.get_mut(number) {
            *place = Some(point);
        }
    }

    /// Returns the point of a body, if there is one.
    fn known_body(&self, number: usize) -> Option<usize> {
        match self.bodies.get(number) {
            Some(point) => *point,
            None => None,
        }
    }

    /// Adds the point of a body, and returns its number.
    fn new_body(
        &mut self,
        body: Part<'p>,
        at: TaskLabels,
        number: usize,
    ) -> Result<usize, NotCompiled>
        ensures later { OnOk result ((p : Program) → IsBoundPart p body.entry
            → IsLater p self.old self.new) }
    {
        let point = self.points.len();
        self.point(body, at)?;
        self.remember(number, point);
        Ok(point)
    }

    /// Returns the number of the point of a body, which is added if there is none.
    fn body_point(
        &mut self,
        body: Part<'p>,
        at: TaskLabels,
        number: usize,
    ) -> Result<usize, NotCompiled>
        ensures later { OnOk result ((p : Program) → IsBoundPart p body.entry
            → IsLater p self.old self.new) }
    {
        match self.known_body(number) {
            Some(point) => Ok(point),
            None => self.new_body(body, at, number),
        }
    }

    /// Returns the labels where the point of a number begins and where it goes on.
    fn labels_of(&self, number: usize) -> (u32, u32) {
        match self.points.get(number) {
            Some(point) => (point.at.label, point.at.next),
            None => (FAIL, FAIL),
        }
    }

    /// Plans the body of a rule in a mode, once for each mode and each use of it, and returns the labels
    /// where it begins and where it goes on: `fresh` and the next one, which are free, if it is new.
    fn body(
        &mut self,
        program: &Program,
        rule: usize,
        mode: Atomicity,
        gives: bool,
        fresh: u32,
    ) -> Result<(u32, u32), NotCompiled>
        requires within { rule < length program.now.rules.items }
        ensures later { OnOk result (IsLater program.now self.old self.new) }
        ensures has { IfOk result (λ labels. (code : CodeLists) (laid : List lay.Point)
            → Meets program.now self.new code laid
            → IsPoint laid (Run (mode_of mode) (body_in program.now rule)) labels.0 labels.1 0) }
    {
        let number = body_number(rule, mode, gives);
        let place = TaskLabels {
            mode,
            label: fresh,
            next: fresh.saturating_add(1),
            on_fail: FAIL,
            rank: TOP_RANK,
            around: NO_CALL,
        };
        let point = self.body_point(Part::Body(rule), place, number)?;
        let (first, last) = self.labels_of(point);
        self.demand(Demand::Body {
            rule,
            mode,
            first,
            last,
            point,
        })?;
        Ok((first, last))
    }

    /// Plans a call that gives a token. The labels from `fresh` on are free.
    fn token_call(
        &mut self,
        program: &Program,
        rule: usize,
        program_rule: &ProgramRule,
        at: TaskLabels,
        fresh: u32,
    ) -> Result<(), NotCompiled>
        requires sound { IsSoundProgram program.now }
        requires last { IsLast program.now.rules.items rule }
        requires few { length program.now.rules.items < 2 ^ 28 }
        requires within { rule < length program.now.rules.items }
        requires meant { IsRuleOf (grammar_in program.now)
            (name_at (names_of program.now.rules.items) rule) rule }
        requires is { program_rule.now ≡ get_or program.now.rules.items rule program_rule.now }
        requires gives { gives_token (rule_type_of program_rule.now.kind) (mode_of at.mode) ≡ true }
        ensures later { OnOk result (IsLater program.now self.old self.new) }
        ensures lays { OnOk result (LaysAt program.now self.new
            (Run (mode_of at.mode) (Ident (name_at (names_of program.now.rules.items) rule))) at) }
    {
        let inner = body_mode(program_rule.kind, program_rule.blank, at.mode);
        let counts = is_seen_from(at.mode);
        let (to, last) = self.body(program, rule, inner, true, fresh)?;
        self.operation(last, Op::Return)?;
        self.operation(
            at.label,
            Op::Call {
                to,
                rule: rule as u32,
                next: at.next,
                fail: at.on_fail,
                counts,
            },
        )?;
        Ok(())
    }

    /// Plans the implicit skipping as an expression, once for all calls of it, and returns the labels where
    /// it begins and where it goes on: `fresh` and the next one, which are free, if it is new.
    fn skipping(&mut self, program: &Program, fresh: u32) -> Result<(u32, u32), NotCompiled>
        ensures later { OnOk result (IsLater program.now self.old self.new) }
        ensures has { IfOk result (λ labels. (code : CodeLists) (laid : List lay.Point)
            → Meets program.now self.new code laid
            → IsPoint laid (Run Between skipped) labels.0 labels.1 0) }
    {
        let number = program.rules.len().saturating_mul(BODIES);
        let place = TaskLabels {
            mode: Atomicity::NonAtomic,
            label: fresh,
            next: fresh.saturating_add(1),
            on_fail: FAIL,
            rank: TOP_RANK,
            around: NO_CALL,
        };
        let point = self.body_point(Part::Skipped, place, number)?;
        let (first, last) = self.labels_of(point);
        self.demand(Demand::Skipping { first, last, point })?;
        Ok((first, last))
    }

    /// Plans the implicit skipping by a call. The labels from `fresh` on are free.
    pub(crate) fn skip_call(
        &mut self,
        program: &Program,
        at: TaskLabels,
        fresh: u32,
    ) -> Result<(), NotCompiled>
        requires mode { mode_of at.mode ≡ NonAtomicMode }
        ensures later { OnOk result (IsLater program.now self.old self.new) }
        ensures lays { OnOk result (LaysAt program.now self.new (Skipping (mode_of at.mode)) at) }
    {
        let (to, last) = self.skipping(program, fresh)?;
        self.operation(last, Op::Back)?;
        self.operation(
            at.label,
            Op::Sub {
                to,
                next: at.next,
                fail: at.on_fail,
            },
        )?;
        Ok(())
    }

    /// Plans a call that gives no token. The labels from `fresh` on are free.
    fn silent_call(
        &mut self,
        program: &Program,
        rule: usize,
        program_rule: &ProgramRule,
        at: TaskLabels,
        fresh: u32,
    ) -> Result<(), NotCompiled>
        requires sound { IsSoundProgram program.now }
        requires within { rule < length program.now.rules.items }
        requires meant { IsRuleOf (grammar_in program.now)
            (name_at (names_of program.now.rules.items) rule) rule }
        requires is { program_rule.now ≡ get_or program.now.rules.items rule program_rule.now }
        requires gives { gives_token (rule_type_of program_rule.now.kind) (mode_of at.mode) ≡ false }
        ensures later { OnOk result (IsLater program.now self.old self.new) }
        ensures lays { OnOk result (LaysAt program.now self.new
            (Run (mode_of at.mode) (Ident (name_at (names_of program.now.rules.items) rule))) at) }
    {
        let inner = body_mode(program_rule.kind, program_rule.blank, at.mode);
        let (to, last) = self.body(program, rule, inner, false, fresh)?;
        self.operation(last, Op::Back)?;
        self.operation(
            at.label,
            Op::Sub {
                to,
                next: at.next,
                fail: at.on_fail,
            },
        )?;
        Ok(())
    }

    /// Returns whether a rule is none of those whose bodies are around a call, and these are few enough.
    fn is_outside(&self, rule: usize, at: TaskLabels) -> bool {
        let mut around = at.around;
        for _ in 0..MOST_INSIDE + 1 {
            match self.points.get(around as usize) {
                Some(point) => {
                    if is_body(*point, rule) {
                        return false;
                    }
                    around = point.at.around;
                }
                None => return true,
            }
        }
        false
    }

    /// Returns whether the body of a rule that gives no token is laid in the place of a call: if it is
    /// small, not inside itself, and inside at most `MOST_INSIDE` others. So a program grows by a constant
    /// for each form.
    fn is_placed(&self, program_rule: &ProgramRule, rule: usize, at: TaskLabels) -> bool {
        let mode = body_mode(program_rule.kind, program_rule.blank, at.mode);
        self.sizes.is_small(program_rule, rule, mode) && self.is_outside(rule, at)
    }

    /// Returns the body of a rule, if a call of it would be laid in place.
    pub(crate) fn placed_body<'q>(
        &self,
        program: &'q Program,
        rule: usize,
        at: TaskLabels,
    ) -> Option<&'q Form> {
        match program.rules.get(rule) {
            Some(program_rule) => {
                if gives_token(program_rule.kind, at.mode)
                    || !self.is_placed(program_rule, rule, at)
                {
                    None
                } else {
                    Some(&program_rule.body)
                }
            }
            None => None,
        }
    }

    /// Plans the body of a rule in the place of a call that gives no token.
    fn placed_call(
        &mut self,
        program: &Program,
        rule: usize,
        program_rule: &ProgramRule,
        at: TaskLabels,
    ) -> Result<(), NotCompiled>
        requires sound { IsSoundProgram program.now }
        requires within { rule < length program.now.rules.items }
        requires meant { IsRuleOf (grammar_in program.now)
            (name_at (names_of program.now.rules.items) rule) rule }
        requires is { program_rule.now ≡ get_or program.now.rules.items rule program_rule.now }
        requires gives { gives_token (rule_type_of program_rule.now.kind) (mode_of at.mode) ≡ false }
        ensures later { OnOk result (IsLater program.now self.old self.new) }
        ensures lays { OnOk result (LaysAt program.now self.new
            (Run (mode_of at.mode) (Ident (name_at (names_of program.now.rules.items) rule))) at) }
    {
        let mode = body_mode(program_rule.kind, program_rule.blank, at.mode);
        self.point(Part::Body(rule), TaskLabels { mode, ..at })?;
        Ok(())
    }

    /// Plans a call that gives no token, in place if that may be. The labels from `fresh` on are free.
    fn quiet_call(
        &mut self,
        program: &Program,
        rule: usize,
        program_rule: &ProgramRule,
        at: TaskLabels,
        fresh: u32,
    ) -> Result<(), NotCompiled>
        requires sound { IsSoundProgram program.now }
        requires within { rule < length program.now.rules.items }
        requires meant { IsRuleOf (grammar_in program.now)
            (name_at (names_of program.now.rules.items) rule) rule }
        requires is { program_rule.now ≡ get_or program.now.rules.items rule program_rule.now }
        requires gives { gives_token (rule_type_of program_rule.now.kind) (mode_of at.mode) ≡ false }
        ensures later { OnOk result (IsLater program.now self.old self.new) }
        ensures lays { OnOk result (LaysAt program.now self.new
            (Run (mode_of at.mode) (Ident (name_at (names_of program.now.rules.items) rule))) at) }
    {
        if self.is_placed(program_rule, rule, at) {
            self.placed_call(program, rule, program_rule, at)
        } else {
            self.silent_call(program, rule, program_rule, at, fresh)
        }
    }

    /// Plans a call of a rule that is the last one of its name. The labels from `fresh` on are free.
    fn last_call(
        &mut self,
        program: &Program,
        rule: usize,
        at: TaskLabels,
        fresh: u32,
    ) -> Result<(), NotCompiled>
        requires sound { IsSoundProgram program.now }
        requires last { IsLast program.now.rules.items rule }
        requires few { length program.now.rules.items < 2 ^ 28 }
        requires within { rule < length program.now.rules.items }
        ensures later { OnOk result (IsLater program.now self.old self.new) }
        ensures lays { OnOk result (LaysAt program.now self.new
            (Run (mode_of at.mode) (Ident (name_at (names_of program.now.rules.items) rule))) at) }
    {
        let program_rule = &program.rules[rule];
        if gives_token(program_rule.kind, at.mode) {
            self.token_call(program, rule, program_rule, at, fresh)
        } else {
            self.quiet_call(program, rule, program_rule, at, fresh)
        }
    }

    /// Plans a call of the last rule of a name, which is that of the rule of a number. The labels from
    /// `fresh` on are free.
    pub(crate) fn call(
        &mut self,
        program: &Program,
        lasts: &[usize],
        rule: usize,
        at: TaskLabels,
        fresh: u32,
    ) -> Result<(), NotCompiled>
        requires sound { IsSoundProgram program.now }
        requires lasts { AreLast program.now.rules.items lasts.now }
        requires few { length program.now.rules.items < 2 ^ 28 }
        requires within { rule < length program.now.rules.items }
        ensures later { OnOk result (IsLater program.now self.old self.new) }
        ensures lays { OnOk result (LaysAt program.now self.new
            (Run (mode_of at.mode) (Ident (name_at (names_of program.now.rules.items) rule))) at) }
    {
        self.last_call(program, lasts[rule], at, fresh)
    }
}
