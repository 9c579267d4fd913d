//! Plans of programs.
ghost use Rattle.matcher_code.specs.Lists.{CodeLists};
ghost use Rattle.matcher_code.specs.Sets.{IsAligned};
ghost use Rattle.matcher_compiler.specs.Sets.{AreKnownIn, IsKnownIn};

use crate::points::{Demand, NotCompiled, Part, Point, TaskLabels};
use crate::sets::{KnownSet, key_of, known_set, set_place};
use matcher_code::code::{Code, Op};
use matcher_code::ranges::Ranges;
use matcher_code::sets::add_set;
use matcher_sets::modes::Atomicity;
use matcher_sets::sizes::Sizes;
use std::alloc::Global;

/// The parts of the implicit skipping.
#[derive(Clone, Copy)]
pub enum Skips {
    Nothing,
    /// The characters of a set.
    Blanks(u32),
    /// Comments, and the characters of a set.
    Comments(u32),
    /// Calls of `WHITESPACE`, and comments, if there are such. The set is empty.
    Calls(u32),
}

/// The points and the demands of a program, its sets and its texts.
#[derive(Drop)]
pub struct Plan<'p> {
    pub(crate) points: Vec<Point<'p>>,
    pub(crate) demands: Vec<Demand>,
    /// A program that has the sets alone.
    pub(crate) sets: Code,
    /// The sets of this program, to be found again by `places`: for each key the index of the last one.
    pub(crate) known: Vec<KnownSet>,
    pub(crate) places: Vec<u32>,
    pub(crate) texts: Vec<Vec<u8>>,
    /// Lists of numbers of texts.
    pub(crate) lists: Vec<Vec<u32>>,
    pub(crate) skips: Skips,
    /// How many numbers the tables have.
    pub(crate) tables: u32,
    /// The number of the point of each rule's body by its mode, and by whether it gives a token, and the
    /// number of that of the skipping.
    pub(crate) bodies: Vec<Option<usize>>,
    pub(crate) sizes: Sizes,
    ghost aligned: { IsAligned sets },
    ghost are_known: { AreKnownIn sets known.items },
}

impl<'p> Plan<'p> {
    ghost use Rattle.std.specs.Prelude.{◌≡◌, IfOk, IfSome, List, OnOk, false, map, true};
    ghost use Rattle.base_ast.specs.Ast.{text_of as characters_of};
    ghost use Rattle.base_language.specs.Language.State.{NonAtomicMode};
    ghost use Rattle.matcher_code.specs.Reading.{list_of, text_of};
    ghost use Rattle.matcher_code.specs.Sets.{IsSetOf};
    ghost use Rattle.matcher_code.specs.Laid as lay;
    ghost use Rattle.matcher_code.specs.Laid.{IsPart, at_label};
    ghost use Rattle.matcher_program.specs.declared.form.Program.{Program};
    ghost use Rattle.matcher_sets.specs.Modes.{mode_of};
    ghost use Rattle.matcher_compiler.specs.Plans.{AreTexts, IsBoundPart, IsLater, IsMet, IsReady, IsTightIn, Meets, task_in};

    /// Returns whether nothing is skipped in a mode.
    pub(crate) fn is_tight(&self, mode: Atomicity) -> bool
        ensures tight { result ≡ true → (p : Program) → IsReady p self.now → IsTightIn p mode }
        ensures loose { result ≡ false → mode_of mode ≡ NonAtomicMode }
    {
        match mode {
            Atomicity::NonAtomic => match self.skips {
                Skips::Nothing => true,
                Skips::Blanks(_) => false,
                Skips::Comments(_) => false,
                Skips::Calls(_) => false,
            },
            Atomicity::Atomic => true,
            Atomicity::CompoundAtomic => true,
        }
    }

    /// Adds a demand.
    pub(crate) fn demand(&mut self, demand: Demand) -> Result<(), NotCompiled>
        ensures later { OnOk result ((p : Program) → IsLater p self.old self.new) }
        ensures met { OnOk result ((p : Program) (code : CodeLists) (laid : List lay.Point)
            → Meets p self.new code laid → IsMet p code laid demand) }
    {
        if self.demands.push(demand).is_err() {
            return Err(NotCompiled::Memory);
        }
        Ok(())
    }

    /// Demands the operation of a label.
    pub(crate) fn operation(&mut self, label: u32, op: Op) -> Result<(), NotCompiled>
        ensures later { OnOk result ((p : Program) → IsLater p self.old self.new) }
        ensures met { OnOk result ((p : Program) (code : CodeLists) (laid : List lay.Point)
            → Meets p self.new code laid → at_label code label ≡ op) }
    {
        self.demand(Demand::Operation { label, op })
    }

    /// Adds a point of a rank below that of a place.
    pub(crate) fn point(&mut self, part: Part<'p>, at: TaskLabels) -> Result<(), NotCompiled>
        ensures later { OnOk result ((p : Program) → IsBoundPart p part.entry
            → IsLater p self.old self.new) }
        ensures has { OnOk result ((p : Program) (code : CodeLists) (laid : List lay.Point)
            → Meets p self.new code laid
            → IsPart laid at.rank (task_in p part.entry (mode_of at.mode)) at.label at.next at.on_fail) }
    {
        if at.rank == 0 {
            return Err(NotCompiled::Unsupported);
        }
        let rank = at.rank - 1;
        let point = Point {
            part,
            at: TaskLabels { rank, ..at },
        };
        if self.points.push(point).is_err() {
            return Err(NotCompiled::Memory);
        }
        Ok(())
    }

    /// Adds a set of the characters in some ranges, and returns its number.
    fn new_set(&mut self, ranges: Ranges) -> Result<u32, NotCompiled>
        ensures later { OnOk result ((p : Program) → IsLater p self.old self.new) }
        ensures means { IfOk result (λ set. (p : Program) (code : CodeLists) (laid : List lay.Point)
            → Meets p self.new code laid → IsSetOf code set ranges.items) }
    {
        let before = self.sets.ranges.len();
        if before >= 0xffff_ffff {
            return Err(NotCompiled::Unsupported);
        }
        let copy = Vec::from_slice(*self.sets.byte_sets.allocator(), ranges.as_slice())?;
        let key = key_of(&ranges);
        let number = add_set(&mut self.sets, ranges)?;
        if number as usize >= self.sets.ranges.len() {
            self.known.clear();
            return Err(NotCompiled::Unsupported);
        }
        let index = self.known.len();
        set_place(&mut self.places, key, index);
        let known = KnownSet {
            ranges: copy,
            number,
        };
        if self.known.push(known).is_err() {
            return Err(NotCompiled::Memory);
        }
        Ok(number)
    }

    /// Returns the number of the set of the characters in some ranges, if it is known.
    fn find_set(&self, ranges: &Ranges) -> Option<u32>
        ensures { IfSome result (λ number. IsKnownIn self.now.sets number ranges.now.items) }
    {
        match known_set(self.known.as_slice(), self.places.as_slice(), ranges) {
            Some(number) => Some(number),
            None => None,
        }
    }

    /// Returns the number of a set of the characters in some ranges, which is added if there is none.
    pub(crate) fn set(&mut self, ranges: Ranges) -> Result<u32, NotCompiled>
        ensures later { OnOk result ((p : Program) → IsLater p self.old self.new) }
        ensures means { IfOk result (λ set. (p : Program) (code : CodeLists) (laid : List lay.Point)
            → Meets p self.new code laid → IsSetOf code set ranges.items) }
    {
        match self.find_set(&ranges) {
            Some(number) => Ok(number),
            None => self.new_set(ranges),
        }
    }

    /// Adds a text, and returns its number.
    pub(crate) fn text(&mut self, alloc: Global, text: &str) -> Result<u32, NotCompiled>
        ensures later { OnOk result ((p : Program) → IsLater p self.old self.new) }
        ensures means { IfOk result (λ number. (p : Program) (code : CodeLists) (laid : List lay.Point)
            → Meets p self.new code laid → text_of code number ≡ text.now) }
    {
        let number = self.texts.len();
        if number >= 0xffff_ffff {
            return Err(NotCompiled::Unsupported);
        }
        let bytes = Vec::from_slice(alloc, text.as_bytes())?;
        if self.texts.push(bytes).is_err() {
            return Err(NotCompiled::Memory);
        }
        Ok(number as u32)
    }

    /// Adds a list of numbers of texts, and returns its number.
    fn list(&mut self, numbers: Vec<u32>) -> Result<u32, NotCompiled>
        ensures later { OnOk result ((p : Program) → IsLater p self.old self.new) }
        ensures means { IfOk result (λ number. (p : Program) (code : CodeLists) (laid : List lay.Point)
            → Meets p self.new code laid → list_of code number ≡ numbers.items) }
    {
        let number = self.lists.len();
        if number >= 0xffff_ffff {
            return Err(NotCompiled::Unsupported);
        }
        if self.lists.push(numbers).is_err() {
            return Err(NotCompiled::Memory);
        }
        Ok(number as u32)
    }

    /// Adds some texts, and returns their numbers.
    fn text_numbers(&mut self, alloc: Global, texts: &Vec<String>) -> Result<Vec<u32>, NotCompiled>
        ensures later { OnOk result ((p : Program) → IsLater p self.old self.new) }
        ensures means { IfOk result (λ numbers. (p : Program) (code : CodeLists) (laid : List lay.Point)
            → Meets p self.new code laid
            → AreTexts code numbers.items (map characters_of texts.now.items)) }
    {
        let mut numbers = Vec::new(alloc);
        for text in texts {
            let number = self.text(alloc, text.as_str())?;
            if numbers.push(number).is_err() {
                return Err(NotCompiled::Memory);
            }
        }
        Ok(numbers)
    }

    /// Adds a list of texts, and returns its number.
    pub(crate) fn text_list(
        &mut self,
        alloc: Global,
        texts: &Vec<String>,
    ) -> Result<u32, NotCompiled>
        ensures later { OnOk result ((p : Program) → IsLater p self.old self.new) }
        ensures means { IfOk result (λ number. (p : Program) (code : CodeLists) (laid : List lay.Point)
            → Meets p self.new code laid
            → AreTexts code (list_of code number) (map characters_of texts.now.items)) }
    {
        let numbers = self.text_numbers(alloc, texts)?;
        let list = self.list(numbers)?;
        Ok(list)
    }
}
