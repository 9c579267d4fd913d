//! Rules of a compiled grammar that use the stack, found by depth-first search in its code.
ghost use Rattle.std.specs.Prelude.{◌≡◌, IfOk, None, drop, true};
ghost use Rattle.format_code.specs.Codes.{lists_at};
ghost use Rattle.matcher_code.specs.Bytecodes.{lists_in};
ghost use Rattle.matcher_code.specs.StackUses.{is_stackless, uses_stack};
ghost use Rattle.matcher_engine.specs.Blocks.{part_of};

use format_code::code::read_code;
use format_code::sections::section;
use matcher_code::bytecode::{Bytecode, find_op};
use matcher_code::code::Op;
use matcher_code::stack_uses::is_stackless;
use matcher_program::texts::same;
use std::alloc::{AllocError, Global};

/// How many labels a table of the code has: one for each byte, and one for the end of the text.
const TABLE: usize = 257;

/// The length of the head of a block, in bytes. The sections follow it.
const HEAD: usize = 16;

/// The section with the code for matches.
const MATCH_CODE: u32 = 0;

/// The section with the code that finds names. It has each call of a rule that gives a tree.
const NAME_CODE: u32 = 1;

/// The label of the call of the first rule from outside. The labels of the other rules follow.
const FIRST_ENTRY: u32 = 3;

/// A label of the code, and the rule of the last call on the way to it.
#[derive(Clone, Copy, Debug)]
struct Reached {
    label: u32,
    rule: u32,
}

/// The labels that were reached, and those of them that are still to be looked at.
#[derive(Drop)]
struct Search {
    is_reached: Vec<bool>,
    waiting: Vec<Reached>,
}

/// Returns whether an operation reads or changes the stack.
fn uses_stack(op: Op) -> bool
    ensures { result ≡ uses_stack op }
{
    match op {
        Op::Push { .. }
        | Op::PushText { .. }
        | Op::Peek { .. }
        | Op::Pop { .. }
        | Op::Discard { .. }
        | Op::PeekAll { .. }
        | Op::PopAll { .. }
        | Op::Slice { .. } => true,
        _ => false,
    }
}

impl Search {
    /// Reaches a label by a rule, if nothing has reached it before. Errors: allocation failed.
    fn reach(&mut self, label: u32, rule: u32) -> Result<(), AllocError> {
        match self.is_reached.get(label as usize).copied() {
            Some(false) => {
                self.is_reached[label as usize] = true;
                self.waiting.push(Reached { label, rule })?;
                Ok(())
            }
            _ => Ok(()),
        }
    }

    /// Reaches the labels of an operation that follow a match and a failure.
    fn reach_both(&mut self, next: u32, fail: u32, rule: u32) -> Result<(), AllocError> {
        self.reach(next, rule)?;
        self.reach(fail, rule)
    }

    /// Reaches the labels of a table. Errors: allocation failed.
    fn reach_table(
        &mut self,
        code: &Bytecode<'_>,
        table: u32,
        rule: u32,
    ) -> Result<(), AllocError> {
        let Some(labels) = code.tables.get(table as usize..) else {
            return Ok(());
        };
        for label in labels.iter().take(TABLE) {
            self.reach(u32::from_le_bytes(*label), rule)?;
        }
        Ok(())
    }

    /// Reaches the labels that follow an operation of a rule. Errors: allocation failed.
    fn reach_next(&mut self, code: &Bytecode<'_>, op: Op, rule: u32) -> Result<(), AllocError> {
        match op {
            Op::Call {
                to,
                rule,
                next,
                fail,
                ..
            } => {
                self.reach(to, rule)?;
                self.reach_both(next, fail, rule)
            }
            Op::Sub { to, next, fail } => {
                self.reach(to, rule)?;
                self.reach_both(next, fail, rule)
            }
            Op::Switch { table } => self.reach_table(code, table, rule),
            Op::One { next, fail, .. }
            | Op::IsOne { next, fail, .. }
            | Op::Text { next, fail, .. }
            | Op::AnyCase { next, fail, .. }
            | Op::Nested { next, fail, .. }
            | Op::Trivia {
                next,
                slow: fail,
                ..
            }
            | Op::Try { next, fail }
            | Op::Not { next, fail }
            | Op::Start { next, fail }
            | Op::End { next, fail } => self.reach_both(next, fail, rule),
            Op::All { next, .. }
            | Op::Until { next, .. }
            | Op::Commit { next }
            | Op::Ahead { next }
            | Op::Note { next }
            | Op::Miss { next, .. }
            | Op::Leaf { next, .. } => self.reach(next, rule),
            _ => Ok(()),
        }
    }
}

/// Returns the name of a rule that uses the stack, if the rule named `rule` comes to one: of a silent rule,
/// that of the rule that calls it. If no operation for matches uses the stack, there is none. The only error
/// is an allocation failure.
pub fn find_stack_rule<'b>(
    alloc: Global,
    block: &[u8],
    names: &[&'b str],
    rule: &str,
) -> Result<Option<&'b str>, AllocError>
    ensures { IfOk result (λ user. is_stackless (lists_at (part_of block.now 0)) ≡ true → user ≡ None) }
{
    if is_stackless(&code_in(block, MATCH_CODE)) {
        return Ok(None);
    }
    let Some(number) = last_number(names, rule) else {
        return Ok(None);
    };
    match search_code(alloc, block, number)? {
        Some(user) => Ok(names.get(user as usize).copied()),
        None => Ok(None),
    }
}

/// Returns the code in the section with the number `number` of a block.
fn code_in(block: &[u8], number: u32) -> Bytecode<'_>
    ensures { lists_in result ≡ lists_at (part_of block.entry.now number) }
{
    read_code(section(bytes_from(block, HEAD), number))
}

/// Returns the bytes from the byte `place` on, or none if there are fewer.
fn bytes_from(block: &[u8], place: usize) -> &[u8]
    ensures { result.now ≡ drop place block.entry.now }
{
    match block.get(place..) {
        Some(bytes) => bytes,
        None => &[],
    }
}

/// Returns the index of the last rule named `rule`, if a `u32` holds it.
fn last_number(names: &[&str], rule: &str) -> Option<u32> {
    let mut found = None;
    for (number, name) in names.iter().enumerate() {
        if same(name, rule) {
            found = u32::try_from(number).ok();
        }
    }
    found
}

/// Returns the number of a rule that uses the stack, if the rule of a number comes to one.
fn search_code(alloc: Global, block: &[u8], rule: u32) -> Result<Option<u32>, AllocError> {
    let code = code_in(block, NAME_CODE);
    let mut search = Search {
        is_reached: vec![in alloc; false; code.ops.len()]?,
        waiting: Vec::new(alloc),
    };
    search.reach(rule.saturating_add(FIRST_ENTRY), rule)?;
    // a label waits once at most
    for _ in 0..code.ops.len() {
        let Some(here) = search.waiting.pop() else {
            return Ok(None);
        };
        if let Some(op) = find_op(&code, here.label) {
            if uses_stack(op) {
                return Ok(Some(here.rule));
            }
            search.reach_next(&code, op, here.rule)?;
        }
    }
    Ok(None)
}
