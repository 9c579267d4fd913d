//! Tables by the first byte.
ghost use Rattle.std.specs.Prelude.{◌≡◌, ◌<◌, ◌≤◌, IfSome, List, MatchOption, Some, false, get_or, length, nat_eq, true, ℕ};
ghost use Rattle.base_language.specs.Language.Matching.{begins};
ghost use Rattle.matcher_code.specs.Lists.{lists_of};
ghost use Rattle.matcher_code.specs.declared.code.Op.TheVariants as op;
ghost use Rattle.matcher_code.specs.Reading.{char_len, flag, text_of};
ghost use Rattle.matcher_code.specs.Laid.{Moves, Skips, at_label, head_of, label_for};
ghost use Rattle.matcher_compiler.specs.Plans.{ContinuesAs, IsNoted};

use crate::points::Branch;
use matcher_code::code::{Code, Op};

/// How many labels a table has: one for each byte, and the last for the end.
pub(crate) const TABLE_SIZE: u32 = 257;

/// Returns the flag of a byte in a byte set.
fn flag(code: &Code, set: u32, byte: u8) -> u8
    ensures { result ≡ flag (lists_of code.now) set byte }
{
    match code.byte_sets.get(set as usize * 256 + byte as usize) {
        Some(flag) => *flag,
        None => 0,
    }
}

/// Returns the flag of a first byte in a byte set, or 0 at the end.
pub(crate) fn flag_at(code: &Code, set: u32, next_byte: Option<u8>) -> u8
    ensures { result ≤ 4 → (bs : List ℕ) → head_of bs ≡ next_byte
        → char_len (lists_of code.now) set bs ≡ result }
{
    match next_byte {
        Some(byte) => flag(code, set, byte),
        None => 0,
    }
}

/// Returns the index of a first byte, or of the end, in a table.
pub(crate) fn index_of(next_byte: Option<u8>) -> usize
    ensures value { MatchOption next_byte (result ≡ 256) (λ byte. result ≡ byte) }
    ensures bound { result ≤ 256 }
{
    match next_byte {
        Some(byte) => byte as usize,
        None => 256,
    }
}

/// Returns the label that a table has for a first byte, or for the end.
pub(crate) fn label_for(code: &Code, table: u32, next_byte: Option<u8>) -> u32
    ensures { result ≡ label_for (lists_of code.now) table next_byte }
{
    match code.tables.get(table as usize + index_of(next_byte)) {
        Some(label) => *label,
        None => 0,
    }
}

/// Returns the flags of a byte set, if the program has it.
pub(crate) fn flags_of(code: &Code, set: u32) -> Option<&[u8]>
    ensures long { IfSome result (λ flags. length flags.now ≡ 256) }
    ensures same { IfSome result (λ flags. (b : ℕ) → b < 256
        → get_or flags.now b 0 ≡ flag (lists_of code.now) set b) }
{
    let start = set as usize * 256;
    code.byte_sets.get(start..start + 256)
}

/// Returns the first byte of a text.
fn first_byte(code: &Code, text: u32) -> Option<u8>
    ensures { result ≡ head_of (text_of (lists_of code.now) text) }
{
    match code.texts.get(text as usize) {
        Some(bytes) => match bytes.as_slice() {
            [first, ..] => Some(*first),
            [] => None,
        },
        None => None,
    }
}

/// Returns whether a text is not empty, and begins with another byte.
fn begins_otherwise(code: &Code, text: u32, next_byte: Option<u8>) -> bool
    ensures { result ≡ true → (bs : List ℕ) → head_of bs ≡ next_byte
        → begins nat_eq (text_of (lists_of code.now) text) bs ≡ false }
{
    match first_byte(code, text) {
        Some(first) => match next_byte {
            Some(byte) => first != byte,
            None => true,
        },
        None => false,
    }
}

/// Returns the label at which the operation of a label, if it is this test, goes on for a first byte.
fn label_after_test(
    code: &Code,
    label: u32,
    set: u32,
    next: u32,
    fail: u32,
    next_byte: Option<u8>,
) -> Option<u32>
    ensures { at_label (lists_of code.now) label ≡ op.IsOne set next fail
        → IfSome result (Moves (lists_of code.now) next_byte label) }
{
    let flag = flag_at(code, set, next_byte);
    if flag == 0 {
        Some(fail)
    } else if flag <= 4 {
        Some(next)
    } else {
        None
    }
}

/// Returns the operation of a label.
pub(crate) fn operation_at(code: &Code, label: u32) -> Op
    ensures { result ≡ at_label (lists_of code.now) label }
{
    match code.ops.get(label as usize) {
        Some(here) => *here,
        None => Op::Lose,
    }
}

/// Returns the label at which the operation of a label goes on for a first byte, if it does nothing else.
#[inline(always)]
pub(crate) fn next_label(code: &Code, label: u32, here: Op, next_byte: Option<u8>) -> Option<u32>
    ensures { at_label (lists_of code.now) label ≡ here
        → IfSome result (Moves (lists_of code.now) next_byte label) }
{
    match here {
        Op::Switch { table } => Some(label_for(code, table, next_byte)),
        Op::IsOne { set, next, fail } => label_after_test(code, label, set, next, fail, next_byte),
        Op::One { set, next: _, fail } => {
            if flag_at(code, set, next_byte) == 0 {
                Some(fail)
            } else {
                None
            }
        }
        Op::Text {
            text,
            next: _,
            fail,
        } => {
            if begins_otherwise(code, text, next_byte) {
                Some(fail)
            } else {
                None
            }
        }
        _ => None,
    }
}

/// Returns the label after the operation of a label, if that records a failure.
fn label_after_note(code: &Code, label: u32) -> Option<u32>
    ensures { IfSome result (λ next. at_label (lists_of code.now) label ≡ op.Note next) }
{
    match code.ops.get(label as usize) {
        Some(Op::Note { next }) => Some(*next),
        _ => None,
    }
}

/// Returns whether the operation of a label goes on at another one for a first byte, and does nothing else.
#[inline(always)]
fn moves(code: &Code, from: u32, here: Op, next_byte: Option<u8>, to: u32) -> bool
    ensures { at_label (lists_of code.now) from ≡ here → result ≡ true
        → Moves (lists_of code.now) next_byte from to }
{
    match next_label(code, from, here, next_byte) {
        Some(next) => next == to,
        None => false,
    }
}

/// Returns whether a label is another one, or where the operation of that one goes on for a first byte.
#[inline(always)]
pub(crate) fn skips(code: &Code, from: u32, here: Op, next_byte: Option<u8>, to: u32) -> bool
    ensures { at_label (lists_of code.now) from ≡ here → result ≡ true
        → Skips (lists_of code.now) next_byte from to }
{
    to == from || moves(code, from, here, next_byte, to)
}

/// The label that the table of a choice has for a first byte, and that at which the operation of the second
/// alternative goes on, if it does nothing else.
#[derive(Clone, Copy)]
pub(crate) struct Lead {
    pub next: Option<u32>,
    pub to: u32,
}

/// Returns whether a failure of the first alternative is recorded before the second one.
#[inline(always)]
pub(crate) fn is_noted(code: &Code, branch: Branch, lead: Lead) -> bool
    ensures { result ≡ true → IsNoted (lists_of code.now) branch lead.next lead.to }
{
    let behind = match label_after_note(code, lead.to) {
        Some(behind) => behind,
        None => return false,
    };
    if behind == branch.second {
        return true;
    }
    match lead.next {
        Some(next) => {
            next == behind || next == lead.to && lead.to != branch.next && lead.to != branch.on_fail
        }
        None => false,
    }
}

/// Returns whether the table of a choice may have the label `to` for a first byte, or for the end. `flag`:
/// that of the byte in the set of the first alternative, whose operation is given. `next`: where the second
/// alternative leads, if to a label.
pub(crate) fn check_label(
    code: &Code,
    branch: Branch,
    first: Op,
    next_byte: Option<u8>,
    flag: u8,
    to: u32,
    next: Option<u32>,
) -> bool
    requires flag { flag ≤ 4 → (bs : List ℕ) → head_of bs ≡ next_byte
        → char_len (lists_of code.now) branch.set bs ≡ flag }
    ensures { result ≡ true → at_label (lists_of code.now) branch.first ≡ first
        → IfSome next (Moves (lists_of code.now) next_byte branch.second)
        → ContinuesAs (lists_of code.now) branch next_byte to }
{
    if flag != 0 {
        return skips(code, branch.first, first, next_byte, to);
    }
    if branch.noted {
        return is_noted(code, branch, Lead { next, to });
    }
    to == branch.second || next == Some(to)
}

/// Returns whether a text is not empty, and begins with a byte of ASCII.
fn begins_in_ascii(code: &Code, text: u32) -> bool
    ensures { result ≡ true → (b : ℕ) (bs : List ℕ) → 128 ≤ b → head_of bs ≡ Some b
        → begins nat_eq (text_of (lists_of code.now) text) bs ≡ false }
{
    match first_byte(code, text) {
        Some(first) => first < 128,
        None => false,
    }
}

/// Returns the label at which the operation of a label goes on for each first byte above ASCII, the label
/// itself if that does more, or `None` if that is not known.
pub(crate) fn wide_label(code: &Code, label: u32, here: Op) -> Option<u32>
    ensures { at_label (lists_of code.now) label ≡ here → IfSome result (λ to. (b : ℕ) → 128 ≤ b
        → Skips (lists_of code.now) (Some b) label to) }
{
    match here {
        Op::Switch { table: _ } => None,
        Op::Text {
            text,
            next: _,
            fail,
        } => {
            if begins_in_ascii(code, text) {
                Some(fail)
            } else {
                None
            }
        }
        _ => Some(label),
    }
}
