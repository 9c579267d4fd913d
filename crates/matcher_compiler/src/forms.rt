//! Plans of expressions without operands.
ghost use Rattle.std.specs.Prelude.{◌≡◌, ◌<◌, ◌^◌, ◌&&◌, ℕ, IfOk, List, None, OnOk, chars, codes, length, not, true};
ghost use Rattle.base_language.specs.Language.Expression.{Ident, Insens, Seq, Str, rule_of};
ghost use Rattle.base_language.specs.Language.Meaning.{Run, seen_from};
ghost use Rattle.base_language.specs.Language.State.{AtomicMode};
ghost use Rattle.matcher_code.specs.Lists.{CodeLists, is_covered};
ghost use Rattle.matcher_code.specs.Laid as lay;
ghost use Rattle.matcher_code.specs.Laid.{MatchesText};
ghost use Rattle.matcher_program.specs.declared.form.Program.{Program};
ghost use Rattle.matcher_sets.specs.Differences.{HasRanges, HasRefused, HasSet};
ghost use Rattle.matcher_sets.specs.Modes.{mode_of};
ghost use Rattle.matcher_sets.specs.Forms.{IsBoundIn, grammar_in, said};
ghost use Rattle.matcher_compiler.specs.Plans.{IsLater, IsTightIn, LaysAt, Meets};

use crate::plan::Plan;
use crate::points::{NotCompiled, TaskLabels};
use matcher_code::code::Op;
use matcher_code::ranges::Ranges;
use matcher_program::form::{Form, Program};
use matcher_sets::difference::{choice_ranges, outside_ranges};
use std::alloc::Global;

/// The label of `Fail`.
pub(crate) const FAIL: u32 = 0;

/// Returns the number of the program rules, which is that of `EOI`.
fn end_rule(program: &Program) -> u32
    requires { length program.now.rules.items < 2 ^ 28 }
    ensures { result ≡ length program.now.rules.items }
{
    program.rules.len() as u32
}

impl<'p> Plan<'p> {
    /// Plans a form of one character of some ranges.
    pub(crate) fn character(
        &mut self,
        program: &Program,
        form: &Form,
        ranges: Ranges,
        at: TaskLabels,
    ) -> Result<(), NotCompiled>
        requires ranges { HasRanges program.now form.now ranges.items }
        ensures later { OnOk result (IsLater program.now self.old self.new) }
        ensures lays { OnOk result
            (LaysAt program.now self.new (Run (mode_of at.mode) (said program.now form.now)) at) }
    {
        let set = self.set(ranges)?;
        self.operation(
            at.label,
            Op::One {
                set,
                next: at.next,
                fail: at.on_fail,
            },
        )?;
        Ok(())
    }

    /// Plans a form of one character.
    pub(crate) fn one_character(
        &mut self,
        alloc: Global,
        program: &Program,
        form: &Form,
        at: TaskLabels,
    ) -> Result<(), NotCompiled>
        requires bound { IsBoundIn program.now form.now }
        ensures later { OnOk result (IsLater program.now self.old self.new) }
        ensures lays { OnOk result
            (LaysAt program.now self.new (Run (mode_of at.mode) (said program.now form.now)) at) }
    {
        let made = choice_ranges(alloc, program, form)?;
        match made {
            Some(ranges) => self.character(program, form, ranges, at),
            None => Err(NotCompiled::Unsupported),
        }
    }

    /// Adds the set of the characters in some ranges that are in no other ones, and returns its number.
    pub(crate) fn difference(
        &mut self,
        alloc: Global,
        others: &Ranges,
        ranges: Ranges,
    ) -> Result<u32, NotCompiled>
        ensures later { OnOk result ((p : Program) → IsLater p self.old self.new) }
        ensures means { IfOk result (λ set. (p : Program) (code : CodeLists) (laid : List lay.Point)
            → Meets p self.new code laid
            → HasSet code set (λ c. not (is_covered others.now.items c) && is_covered ranges.items c)) }
    {
        let rest = outside_ranges(alloc, ranges, others)?;
        let set = self.set(rest)?;
        Ok(set)
    }

    /// Plans a form of one character of some ranges, if one in front refuses others, and nothing is
    /// skipped.
    pub(crate) fn other_character(
        &mut self,
        alloc: Global,
        program: &Program,
        first: &Form,
        second: &Form,
        others: &Ranges,
        ranges: Ranges,
        at: TaskLabels,
    ) -> Result<(), NotCompiled>
        requires refused { HasRefused program.now first.now others.now.items }
        requires ranges { HasRanges program.now second.now ranges.items }
        requires tight { IsTightIn program.now at.mode }
        ensures later { OnOk result (IsLater program.now self.old self.new) }
        ensures lays { OnOk result (LaysAt program.now self.new (Run (mode_of at.mode)
            (Seq (said program.now first.now) (said program.now second.now))) at) }
    {
        let set = self.difference(alloc, others, ranges)?;
        self.operation(
            at.label,
            Op::One {
                set,
                next: at.next,
                fail: at.on_fail,
            },
        )?;
        Ok(())
    }

    /// Plans a literal.
    pub(crate) fn literal(
        &mut self,
        alloc: Global,
        program: &Program,
        text: &str,
        at: TaskLabels,
    ) -> Result<(), NotCompiled>
        ensures later { OnOk result (IsLater program.now self.old self.new) }
        ensures lays { OnOk result
            (LaysAt program.now self.new (Run (mode_of at.mode) (Str (chars text.now))) at) }
    {
        let number = self.text(alloc, text)?;
        self.operation(
            at.label,
            Op::Text {
                text: number,
                next: at.next,
                fail: at.on_fail,
            },
        )?;
        Ok(())
    }

    /// Plans a literal in any case.
    pub(crate) fn literal_in_any_case(
        &mut self,
        alloc: Global,
        program: &Program,
        text: &str,
        at: TaskLabels,
    ) -> Result<(), NotCompiled>
        ensures later { OnOk result (IsLater program.now self.old self.new) }
        ensures lays { OnOk result
            (LaysAt program.now self.new (Run (mode_of at.mode) (Insens (chars text.now))) at) }
    {
        let number = self.text(alloc, text)?;
        self.operation(
            at.label,
            Op::AnyCase {
                text: number,
                next: at.next,
                fail: at.on_fail,
            },
        )?;
        Ok(())
    }

    /// Demands the operation of a text at a label.
    fn text_at(
        &mut self,
        alloc: Global,
        text: &str,
        label: u32,
        next: u32,
        fail: u32,
    ) -> Result<(), NotCompiled>
        ensures later { OnOk result ((p : Program) → IsLater p self.old self.new) }
        ensures has { OnOk result ((p : Program) (code : CodeLists) (laid : List lay.Point)
            → Meets p self.new code laid → MatchesText code label text.now next fail) }
    {
        let number = self.text(alloc, text)?;
        self.operation(
            label,
            Op::Text {
                text: number,
                next,
                fail,
            },
        )?;
        Ok(())
    }

    /// Plans `NEWLINE`. The labels from `fresh` on are free.
    pub(crate) fn newline(
        &mut self,
        alloc: Global,
        program: &Program,
        at: TaskLabels,
        fresh: u32,
    ) -> Result<(), NotCompiled>
        requires bound { rule_of (grammar_in program.now) (codes "NEWLINE") ≡ None }
        ensures later { OnOk result (IsLater program.now self.old self.new) }
        ensures lays { OnOk result
            (LaysAt program.now self.new (Run (mode_of at.mode) (Ident (codes "NEWLINE"))) at) }
    {
        if fresh == FAIL {
            return Err(NotCompiled::Unsupported);
        }
        let last = fresh.saturating_add(1);
        self.text_at(alloc, "\n", at.label, at.next, fresh)?;
        self.text_at(alloc, "\r\n", fresh, at.next, last)?;
        self.text_at(alloc, "\r", last, at.next, at.on_fail)?;
        Ok(())
    }

    /// Plans `SOI`.
    pub(crate) fn start(&mut self, program: &Program, at: TaskLabels) -> Result<(), NotCompiled>
        requires bound { rule_of (grammar_in program.now) (codes "SOI") ≡ None }
        ensures later { OnOk result (IsLater program.now self.old self.new) }
        ensures lays { OnOk result
            (LaysAt program.now self.new (Run (mode_of at.mode) (Ident (codes "SOI"))) at) }
    {
        self.operation(
            at.label,
            Op::Start {
                next: at.next,
                fail: at.on_fail,
            },
        )?;
        Ok(())
    }

    /// Plans `EOI` if it gives no tree, in Atomic.
    pub(crate) fn bare_end(&mut self, program: &Program, at: TaskLabels) -> Result<(), NotCompiled>
        requires bound { rule_of (grammar_in program.now) (codes "EOI") ≡ None }
        requires unseen { mode_of at.mode ≡ AtomicMode }
        ensures later { OnOk result (IsLater program.now self.old self.new) }
        ensures lays { OnOk result
            (LaysAt program.now self.new (Run (mode_of at.mode) (Ident (codes "EOI"))) at) }
    {
        self.operation(
            at.label,
            Op::End {
                next: at.next,
                fail: at.on_fail,
            },
        )?;
        Ok(())
    }

    /// Plans `EOI` if it gives a tree. The labels from `fresh` on are free.
    pub(crate) fn end(
        &mut self,
        program: &Program,
        at: TaskLabels,
        fresh: u32,
    ) -> Result<(), NotCompiled>
        requires bound { rule_of (grammar_in program.now) (codes "EOI") ≡ None }
        requires seen { seen_from (mode_of at.mode) ≡ true }
        requires few { length program.now.rules.items < 2 ^ 28 }
        ensures later { OnOk result (IsLater program.now self.old self.new) }
        ensures lays { OnOk result
            (LaysAt program.now self.new (Run (mode_of at.mode) (Ident (codes "EOI"))) at) }
    {
        let note = fresh.saturating_add(1);
        let rule = end_rule(program);
        self.operation(
            at.label,
            Op::End {
                next: fresh,
                fail: note,
            },
        )?;
        self.operation(
            fresh,
            Op::Leaf {
                rule,
                next: at.next,
            },
        )?;
        self.operation(
            note,
            Op::Miss {
                rule,
                next: at.on_fail,
            },
        )?;
        Ok(())
    }
}
