//! Searches for texts.
ghost use Rattle.std.specs.Prelude.{OnOk, map};
ghost use Rattle.base_ast.specs.Ast.{text_of};
ghost use Rattle.base_language.specs.Language.Expression.{Skip};
ghost use Rattle.base_language.specs.Language.Meaning.{Run};
ghost use Rattle.matcher_code.specs.Laid.{StartIn};
ghost use Rattle.matcher_sets.specs.Modes.{mode_of};
ghost use Rattle.matcher_compiler.specs.Plans.{IsLater, LaysAt};

use crate::plan::Plan;
use crate::points::{NotCompiled, TaskLabels};
use crate::spans::searched_ranges;
use matcher_code::code::Op;
use matcher_code::ranges::Ranges;
use matcher_program::form::Program;
use matcher_sets::texts::first_characters;
use std::alloc::Global;

impl<'p> Plan<'p> {
    /// Plans a search for the first of some texts. If one of them is empty, it takes nothing.
    fn search_texts(
        &mut self,
        alloc: Global,
        program: &Program,
        texts: &Vec<String>,
        at: TaskLabels,
    ) -> Result<(), NotCompiled>
        ensures later { OnOk result (IsLater program.now self.old self.new) }
        ensures lays { OnOk result (LaysAt program.now self.new
            (Run (mode_of at.mode) (Skip (map text_of texts.now.items))) at) }
    {
        let made = first_characters(alloc, texts)?;
        match made {
            Some(ranges) => self.search_from(alloc, program, texts, ranges, at),
            None => {
                self.span(Vec::new(alloc), at)?;
                Ok(())
            }
        }
    }

    /// Plans a search for the first of some texts, which begin with characters of some ranges.
    fn search_from(
        &mut self,
        alloc: Global,
        program: &Program,
        texts: &Vec<String>,
        ranges: Ranges,
        at: TaskLabels,
    ) -> Result<(), NotCompiled>
        requires starts { StartIn ranges.items (map text_of texts.now.items) }
        ensures later { OnOk result (IsLater program.now self.old self.new) }
        ensures lays { OnOk result (LaysAt program.now self.new
            (Run (mode_of at.mode) (Skip (map text_of texts.now.items))) at) }
    {
        let firsts = self.set(ranges)?;
        let list = self.text_list(alloc, texts)?;
        self.operation(
            at.label,
            Op::Until {
                firsts,
                list,
                next: at.next,
            },
        )?;
        Ok(())
    }

    /// Plans a search for the first of some texts.
    pub(crate) fn search(
        &mut self,
        alloc: Global,
        program: &Program,
        texts: &Vec<String>,
        at: TaskLabels,
    ) -> Result<(), NotCompiled>
        ensures later { OnOk result (IsLater program.now self.old self.new) }
        ensures lays { OnOk result (LaysAt program.now self.new
            (Run (mode_of at.mode) (Skip (map text_of texts.now.items))) at) }
    {
        let made = searched_ranges(alloc, texts)?;
        match made {
            Some(ranges) => {
                self.span(ranges, at)?;
                Ok(())
            }
            None => self.search_texts(alloc, program, texts, at),
        }
    }
}
