//! The stack.
ghost use Rattle.std.specs.Prelude.{◌≤◌, length, reverse};
ghost use Rattle.matcher_machine.specs.Links.{IsLinked, IsLinked-prop};

use crate::texts::{end_of, index_of, match_between, match_held};
use matcher_code::bytecode::Bytecode;
use std::alloc::{AllocError, Global};

/// A text on the stack: that of the input between two positions, or one of the program.
#[derive(Clone, Copy, Debug)]
pub enum StackText {
    Input { from: usize, to: usize },
    Program { text: u32 },
}

/// A text that was pushed on the stack, with the number of the text below it.
#[derive(Clone, Copy, Debug)]
pub struct Pushed {
    pub text: StackText,
    pub below: u32,
}

/// A stack of texts. The list of what was pushed only grows, so the number of its top restores an earlier
/// stack. The number of a text is one more than its index; 0 is the empty stack.
#[derive(Drop)]
pub struct TextStack {
    pub pushed: Vec<Pushed>,
    pub top: u32,
    ghost linked: { IsLinked (reverse pushed.items) } by { IsLinked-prop (reverse pushed.items) },
    ghost within: { top ≤ length pushed.items },
}

impl TextStack {
    ghost use Rattle.std.specs.Prelude.{◌≡◌, ◌-◌, List, [], IfOk, IfSome, OnOk, drop, map, ℕ};
    ghost use Rattle.base_language.specs.Language.Matching.{concatenated};
    ghost use Rattle.matcher_code.specs.Bytecodes.{lists_in};
    ghost use Rattle.matcher_code.specs.Lists.{CodeLists};
    ghost use Rattle.matcher_code.specs.Steps.{slice_bytes};
    ghost use Rattle.matcher_machine.specs.Stacks.{IsPushed, IsTop, bytes_of, length_if, length_of_slice, texts_in};

    /// Returns the empty stack.
    pub(crate) fn new(alloc: Global) -> TextStack
        ensures pushed { result.pushed.items ≡ [] }
        ensures top { result.top ≡ 0 }
    {
        TextStack {
            pushed: Vec::new(alloc),
            top: 0,
        }
    }

    /// Pushes a text.
    pub(crate) fn push(&mut self, held: StackText) -> Result<(), AllocError>
        ensures pushed { OnOk result (IsPushed self.old self.new held) }
        ensures grows { length self.old.pushed.items ≤ length self.new.pushed.items }
    {
        let number = self.pushed.len();
        if number >= 0xffff_ffff {
            return Err(AllocError);
        }
        self.pushed.push(Pushed {
            text: held,
            below: self.top,
        })?;
        self.top = number as u32 + 1;
        Ok(())
    }

    /// Returns the text of a number.
    #[inline(always)]
    fn get(&self, number: u32) -> Option<Pushed>
        requires within { number ≤ length self.now.pushed.items }
        ensures { IsTop self.now number result }
    {
        if number == 0 {
            return None;
        }
        match self.pushed.get(number as usize - 1) {
            Some(pushed) => Some(*pushed),
            None => None,
        }
    }

    /// Returns the text on top.
    #[inline(always)]
    pub(crate) fn last(&self) -> Option<Pushed>
        ensures { IsTop self.now self.now.top result }
    {
        self.get(self.top)
    }

    /// Returns the length of all texts, one after another from the top, if they are next.
    pub(crate) fn match_all(&self, code: &Bytecode<'_>, text: &str, at: usize) -> Option<usize>
        ensures value { result
            ≡ length_if (concatenated (texts_in (lists_in code.now) text.now self.now)) (drop at text.now) }
        ensures within { IfSome result (λ size. size ≤ length text.now - at) }
    {
        let mut number = self.top;
        let mut size: usize = 0;
        while let Some(pushed) = self.get(number) {
            match match_held(code, text, pushed.text, at + size) {
                Some(more) => size += more,
                None => return None,
            }
            number = pushed.below;
        }
        Some(size)
    }

    /// Returns all texts, from the top.
    fn texts(&self) -> Result<Vec<StackText>, AllocError>
        ensures { IfOk result (λ texts. (code : CodeLists) (text : List ℕ)
            → map (bytes_of code text) texts.items ≡ texts_in code text self.now) }
    {
        let mut texts = Vec::new(*self.pushed.allocator());
        let mut number = self.top;
        while let Some(pushed) = self.get(number) {
            texts.push(pushed.text)?;
            number = pushed.below;
        }
        Ok(texts)
    }

    /// Returns the length of a slice of the texts, one after another from the bottom, if they are next, and
    /// if the slice is inside the stack.
    pub(crate) fn match_slice(
        &self,
        code: &Bytecode<'_>,
        text: &str,
        from: i32,
        to: Option<i32>,
        at: usize,
    ) -> Result<Option<usize>, AllocError>
        ensures value { IfOk result (λ size. size ≡ length_of_slice
            (slice_bytes from to (texts_in (lists_in code.now) text.now self.now)) (drop at text.now)) }
        ensures within { IfOk result (λ found. IfSome found (λ size. size ≤ length text.now - at)) }
    {
        let texts = self.texts()?;
        match index_of(texts.len(), from) {
            Some(start) => match end_of(texts.len(), to) {
                Some(end) => Ok(match_between(code, text, &texts, start, end, at)),
                None => Ok(None),
            },
            None => Ok(None),
        }
    }
}
