//! Texts that a rule may match, made by walking down its expression.

use crate::chance::Chance;
use crate::characters::{character_between, character_of, character_with};
use crate::heights::{Heights, height_of};
use base_ast::ast::RuleType;
use base_ast::optimized::{OptimizedExpr, OptimizedRule};
use front_names::Builtin;
use std::alloc::{AllocError, Global};
use std::collections::HashMap;

/// The greatest number of steps that make a text.
const MOST_STEPS: u32 = 100_000;
/// The greatest number of bytes of a text.
const MOST_BYTES: usize = 100_000;
/// The greatest number of alternatives of a choice among which one is chosen.
const MOST_ALTERNATIVES: u32 = 1_000;

/// A task that is left to do while a text is made.
#[derive(Drop)]
enum Work<'a> {
    /// Makes a text that the expression matches. If `is_spaced` is true, blanks may stand between
    /// its parts.
    Expr {
        expr: &'a OptimizedExpr,
        is_spaced: bool,
    },
    /// A blank, or nothing.
    Blank,
    /// Pushes the text from this byte on.
    Push(usize),
}

/// The rules of a grammar by name, and what is known of them.
#[derive(Drop)]
pub struct Rules<'a> {
    pub by_name: HashMap<&'a str, &'a OptimizedRule>,
    pub heights: Heights<'a>,
}

/// A text that is being made.
#[derive(Drop)]
pub struct Maker<'a, 'r> {
    rules: &'r Rules<'a>,
    chance: Chance,
    /// The number of further choices that are left to chance. Later choices take the alternative
    /// with the least height.
    choices: u32,
    works: Vec<Work<'a>>,
    text: String,
    stack: Vec<String>,
}

impl<'a, 'r> Maker<'a, 'r> {
    /// Begins a text with this number of choices that are left to chance.
    pub fn new(alloc: Global, rules: &'r Rules<'a>, chance: Chance, choices: u32) -> Maker<'a, 'r> {
        Maker {
            rules,
            chance,
            choices,
            works: Vec::new(alloc),
            text: String::new(alloc),
            stack: Vec::new(alloc),
        }
    }

    /// Returns a text that the rule may match, or `None` if the text would be too long. The only
    /// error is an allocation failure.
    pub fn make(
        mut self,
        alloc: Global,
        rule: &'a OptimizedRule,
    ) -> Result<Option<String>, AllocError> {
        self.enter(rule, true)?;
        for _ in 0..MOST_STEPS {
            let Some(work) = self.works.pop() else {
                return Ok(Some(self.text));
            };
            self.do_work(alloc, work)?;
            if self.text.len() > MOST_BYTES {
                return Ok(None);
            }
        }
        Ok(None)
    }

    /// Goes into the body of a rule.
    fn enter(&mut self, rule: &'a OptimizedRule, is_spaced: bool) -> Result<(), AllocError> {
        let is_spaced = match rule.ty {
            RuleType::Normal | RuleType::Silent => is_spaced,
            RuleType::Atomic | RuleType::CompoundAtomic => false,
            RuleType::NonAtomic => true,
        };
        self.add(&rule.expr, is_spaced)
    }

    /// Adds an expression to what is left, before all else.
    fn add(&mut self, expr: &'a OptimizedExpr, is_spaced: bool) -> Result<(), AllocError> {
        self.works.push(Work::Expr { expr, is_spaced })?;
        Ok(())
    }

    /// Returns whether the next choice is left to chance.
    fn has_choice(&mut self) -> bool {
        let has_choice = self.choices > 0;
        self.choices = self.choices.saturating_sub(1);
        has_choice
    }

    /// Does the next part of what is left.
    fn do_work(&mut self, alloc: Global, work: Work<'a>) -> Result<(), AllocError> {
        match work {
            Work::Expr { expr, is_spaced } => self.expand(alloc, expr, is_spaced),
            Work::Blank => self.add_blank(),
            Work::Push(start) => {
                let pushed = copy_from(alloc, self.text.as_str(), start)?;
                self.stack.push(pushed)?;
                Ok(())
            }
        }
    }

    /// Adds a blank by chance, if the grammar has whitespace, and choices are left.
    fn add_blank(&mut self) -> Result<(), AllocError> {
        let has_whitespace = self.rules.by_name.contains_key(&"WHITESPACE");
        if has_whitespace && self.choices > 0 && self.chance.below(2) == 0 {
            self.text.push(' ')?;
        }
        Ok(())
    }

    /// Makes the text of an expression, or adds its parts to what is left.
    fn expand(
        &mut self,
        alloc: Global,
        expr: &'a OptimizedExpr,
        is_spaced: bool,
    ) -> Result<(), AllocError> {
        use OptimizedExpr as E;
        match expr {
            E::Str(text) | E::Insens(text) => self.text.push_str(text.as_str())?,
            E::Range(low, high) => {
                let low = low.chars().next().unwrap_or('a') as u32;
                let high = high.chars().next().unwrap_or('a') as u32;
                self.text
                    .push(character_between(low, high, &mut self.chance))?;
            }
            E::Ident(name) => self.call(alloc, name.as_str(), is_spaced)?,
            E::PeekSlice(_, _) => self.add_stack()?,
            E::PosPred(_) | E::NegPred(_) => {}
            E::Seq(left, right) => {
                self.add(right, is_spaced)?;
                if is_spaced {
                    self.works.push(Work::Blank)?;
                }
                self.add(left, is_spaced)?;
            }
            E::Choice(left, right) => {
                let alternative = self.choose(alloc, expr, left, right)?;
                self.add(alternative, is_spaced)?;
            }
            E::Opt(inner) => self.repeat(inner, is_spaced, 0, 1)?,
            E::Rep(inner) => self.repeat(inner, is_spaced, 0, 3)?,
            E::RepOnce(inner) => self.repeat(inner, is_spaced, 1, 3)?,
            E::Skip(_) => {}
            E::Push(inner) => {
                self.works.push(Work::Push(self.text.len()))?;
                self.add(inner, is_spaced)?;
            }
            E::PushLiteral(text) => self.stack.push(text.clone()?)?,
            E::NodeTag(inner, _) | E::RestoreOnErr(inner) => self.add(inner, is_spaced)?,
        }
        Ok(())
    }

    /// Adds an expression several times: by chance from `least` to `most` times, else `least` times.
    fn repeat(
        &mut self,
        expr: &'a OptimizedExpr,
        is_spaced: bool,
        least: u32,
        most: u32,
    ) -> Result<(), AllocError> {
        let times = if self.has_choice() {
            least.saturating_add(
                self.chance
                    .below(most.saturating_sub(least).saturating_add(1)),
            )
        } else {
            least
        };
        for turn in 0..times {
            if turn > 0 && is_spaced {
                self.works.push(Work::Blank)?;
            }
            self.add(expr, is_spaced)?;
        }
        Ok(())
    }

    /// Returns an alternative of a choice: by chance, or the one that ends soonest.
    fn choose(
        &mut self,
        alloc: Global,
        choice: &'a OptimizedExpr,
        left: &'a OptimizedExpr,
        right: &'a OptimizedExpr,
    ) -> Result<&'a OptimizedExpr, AllocError> {
        if self.has_choice() {
            let count = alternatives_of(choice);
            return Ok(if self.chance.below(count) == 0 {
                left
            } else {
                right
            });
        }
        let heights = &self.rules.heights;
        if height_of(alloc, left, heights)? <= height_of(alloc, right, heights)? {
            Ok(left)
        } else {
            Ok(right)
        }
    }

    /// Makes a text of a name.
    fn call(&mut self, alloc: Global, name: &str, is_spaced: bool) -> Result<(), AllocError> {
        if let Some(rule) = self.rules.by_name.get(&name) {
            return self.enter(*rule, is_spaced);
        }
        match Builtin::from_name(name) {
            Some(builtin) => self.add_builtin(builtin),
            None => match character_with(alloc, name, &mut self.chance)? {
                Some(character) => self.text.push(character),
                None => Ok(()),
            },
        }
    }

    /// Adds the text of a builtin.
    fn add_builtin(&mut self, builtin: Builtin) -> Result<(), AllocError> {
        match builtin {
            Builtin::Set(set) => self.text.push(character_of(set, &mut self.chance)),
            Builtin::Newline => self.text.push('\n'),
            Builtin::Peek => self.add_top(),
            Builtin::Pop => {
                self.add_top()?;
                let _ = self.stack.pop();
                Ok(())
            }
            Builtin::Drop => {
                let _ = self.stack.pop();
                Ok(())
            }
            Builtin::PeekAll => self.add_stack(),
            Builtin::PopAll => {
                self.add_stack()?;
                self.stack.clear();
                Ok(())
            }
            Builtin::Soi | Builtin::Eoi => Ok(()),
        }
    }

    /// Adds the text on top of the stack.
    fn add_top(&mut self) -> Result<(), AllocError> {
        match self.stack.last() {
            Some(top) => self.text.push_str(top.as_str()),
            None => Ok(()),
        }
    }

    /// Adds all texts of the stack, from the top.
    fn add_stack(&mut self) -> Result<(), AllocError> {
        for pushed in self.stack.iter().rev() {
            self.text.push_str(pushed.as_str())?;
        }
        Ok(())
    }
}

/// Returns the part of a text from a byte on, or nothing if there is no such part. The only error is an
/// allocation failure.
fn copy_from(alloc: Global, text: &str, start: usize) -> Result<String, AllocError> {
    match text.get(start..) {
        Some(part) => String::from_str(alloc, part),
        None => Ok(String::new(alloc)),
    }
}

/// Returns the number of alternatives of a choice, as far as it goes on to the right.
fn alternatives_of(choice: &OptimizedExpr) -> u32 {
    let mut rest = choice;
    for count in 1..MOST_ALTERNATIVES {
        match rest {
            OptimizedExpr::Choice(_, right) => rest = right,
            _ => return count,
        }
    }
    MOST_ALTERNATIVES
}
