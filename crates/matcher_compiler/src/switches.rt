//! Choices by the first byte.
ghost use Rattle.std.specs.Prelude.{◌<◌, IfOk, IfSome, OnOk};
ghost use Rattle.base_language.specs.Language.Expression.{Choice};
ghost use Rattle.base_language.specs.Language.Meaning.{Run, Task};
ghost use Rattle.matcher_program.specs.declared.form.Program.{Program};
ghost use Rattle.matcher_sets.specs.Forms.{IsBoundIn, IsSoundProgram, said};
ghost use Rattle.matcher_sets.specs.FirstSets.{AreFirstSets};
ghost use Rattle.matcher_sets.specs.Modes.{mode_of};
ghost use Rattle.matcher_compiler.specs.Plans.{BranchesAt, FailsWithout, IsLater, LaysAt};

use crate::firsts::narrow_first_set;
use crate::plan::Plan;
use crate::points::{Branch, Demand, NotCompiled, Part, TaskLabels};
use crate::tables::TABLE_SIZE;
use matcher_code::code::Op;
use matcher_program::form::{Form, Program};
use matcher_sets::first_sets::{FirstSet, FirstSets};
use matcher_sets::modes::Atomicity;
use std::alloc::Global;

/// The largest number of tables. Choices beyond it test their alternatives in turn.
const MOST_TABLES: u32 = 1024;

impl<'p> Plan<'p> {
    /// Returns the FIRST set of the first alternative of a choice, if a table may spare something.
    pub(crate) fn table_first_set(
        &self,
        alloc: Global,
        program: &Program,
        first_sets: &FirstSets,
        left: &Form,
        mode: Atomicity,
    ) -> Result<Option<FirstSet>, NotCompiled>
        requires sound { IsSoundProgram program.now }
        requires first_sets { AreFirstSets program.now first_sets.now }
        requires bound { IsBoundIn program.now left.now }
        ensures { IfOk result (λ made. IfSome made
            (FailsWithout program.now (Run (mode_of mode) (said program.now left.now)))) }
    {
        if self.tables >= MOST_TABLES * TABLE_SIZE {
            return Ok(None);
        }
        narrow_first_set(alloc, program, first_sets, left, mode)
    }

    /// Sets the number of labels in tables.
    fn set_tables(&mut self, size: u32)
        ensures { (p : Program) → IsLater p self.old self.new }
    {
        self.tables = size;
    }

    /// Plans a table for a task that fails if none of a FIRST set is next. The task begins at `first`, and
    /// what is tried then begins at `second`.
    fn table(
        &mut self,
        first_set: FirstSet,
        at: TaskLabels,
        first: u32,
        second: u32,
    ) -> Result<(), NotCompiled>
        ensures later { OnOk result ((p : Program) → IsLater p self.old self.new) }
        ensures branches { OnOk result ((p : Program) (k : Task) → FailsWithout p k first_set
            → BranchesAt p self.new k at first second) }
    {
        let FirstSet {
            ranges,
            empty: _,
            noted,
        } = first_set;
        let table = self.tables;
        self.set_tables(table.saturating_add(TABLE_SIZE));
        let set = self.set(ranges)?;
        self.operation(at.label, Op::Switch { table })?;
        self.demand(Demand::Branch(Branch {
            table,
            set,
            noted,
            first,
            second,
            next: at.next,
            on_fail: at.on_fail,
        }))?;
        Ok(())
    }

    /// Plans a choice by a table. The labels from `fresh` on are free.
    pub(crate) fn switched_choice(
        &mut self,
        alloc: Global,
        program: &Program,
        first_sets: &FirstSets,
        first_set: FirstSet,
        left: &'p Form,
        right: &'p Form,
        at: TaskLabels,
        fresh: u32,
    ) -> Result<(), NotCompiled>
        requires sound { IsSoundProgram program.now }
        requires first_sets { AreFirstSets program.now first_sets.now }
        requires left_bound { IsBoundIn program.now left.now }
        requires right_bound { IsBoundIn program.now right.now }
        requires fails { FailsWithout program.now (Run (mode_of at.mode)
            (said program.now left.now)) first_set }
        requires up { 0 < fresh }
        ensures later { OnOk result (IsLater program.now self.old self.new) }
        ensures lays { OnOk result (LaysAt program.now self.new (Run (mode_of at.mode)
            (Choice (said program.now left.entry.now) (said program.now right.entry.now))) at) }
    {
        let label = fresh.saturating_add(1);
        self.table(first_set, at, label, fresh)?;
        let first = TaskLabels {
            label,
            on_fail: fresh,
            ..at
        };
        self.point(Part::Form(left), first)?;
        let second = TaskLabels { label: fresh, ..at };
        let label = self.enter_any(
            alloc,
            program,
            first_sets,
            right,
            second,
            fresh.saturating_add(2),
        )?;
        let last = TaskLabels { label, ..at };
        self.point(Part::Form(right), last)?;
        Ok(())
    }
}
