//! The comparison of a table with the alternatives of its choice.
ghost use Rattle.std.specs.Prelude.{◌≡◌, ◌<◌, ◌≤◌, IfSome, Option, Some, false, get_or, length, true, ℕ};
ghost use Rattle.matcher_code.specs.Lists.{lists_of};
ghost use Rattle.matcher_code.specs.Laid.{Notes, Skips, at_label, label_for};
ghost use Rattle.matcher_compiler.specs.Columns.{AreColumns};
ghost use Rattle.matcher_compiler.specs.Plans.{ContinuesAs, HasBranch};

use crate::points::Branch;
use crate::tables::{
    Lead, check_label, flag_at, flags_of, is_noted, label_for, next_label, operation_at, skips,
    wide_label,
};
use matcher_code::code::{Code, Op};

/// Returns the labels that a table has for first bytes, if the program has it.
fn labels_of(code: &Code, table: u32) -> Option<&[u32]>
    ensures long { IfSome result (λ labels. length labels.now ≡ 256) }
    ensures same { IfSome result (λ labels. (b : ℕ) → b < 256
        → get_or labels.now b 0 ≡ label_for (lists_of code.now) table (Some b)) }
{
    let start = table as usize;
    code.tables.get(start..start + 256)
}

/// Returns whether the table of a choice has the label for a first byte, or for the end. The operations are
/// those at which the alternatives begin.
fn has_label(code: &Code, branch: Branch, first: Op, second: Op, first_set: Option<u8>) -> bool
    ensures { at_label (lists_of code.now) branch.first ≡ first
        → at_label (lists_of code.now) branch.second ≡ second
        → result ≡ true
        → ContinuesAs (lists_of code.now) branch first_set (label_for
        (lists_of code.now) branch.table first_set) }
{
    let flag = flag_at(code, branch.set, first_set);
    let to = label_for(code, branch.table, first_set);
    let next = next_label(code, branch.second, second, first_set);
    check_label(code, branch, first, first_set, flag, to, next)
}

/// Returns whether a table has one label for all first bytes above ASCII.
fn is_wide(code: &Code, table: u32, to: u32) -> bool
    ensures { result ≡ true → (b : ℕ) → 128 ≤ b → b < 256
        → label_for (lists_of code.now) table (Some b) ≡ to }
{
    let labels = match labels_of(code, table) {
        Some(labels) => labels,
        None => return false,
    };
    for byte in 128..256usize {
        if labels[byte] != to {
            return false;
        }
    }
    true
}

/// The flags of the set of a choice's first alternative, and the labels of its table, by first bytes.
#[derive(Clone, Copy)]
struct Columns<'a> {
    flags: &'a [u8],
    labels: &'a [u32],
}

/// Returns whether a failure of the first alternative of a choice is recorded at the label `to`. The second
/// one leads on to `next`, or begins there.
fn is_noted_from(code: &Code, branch: Branch, next: u32, to: u32) -> bool
    ensures { result ≡ true → (first_set : Option ℕ) → Skips (lists_of code.now) first_set branch.second next
        → Notes (lists_of code.now) first_set branch.second branch.next branch.on_fail to }
{
    if next == branch.second {
        is_noted(code, branch, Lead { next: None, to })
    } else {
        let lead = Lead {
            next: Some(next),
            to,
        };
        is_noted(code, branch, lead)
    }
}

/// Returns the label at which the operation of a label goes on for a first byte, or the label itself if
/// that does more.
fn lead_of(code: &Code, label: u32, here: Op, byte: u8) -> u32
    ensures { at_label (lists_of code.now) label ≡ here
        → Skips (lists_of code.now) (Some byte) label result }
{
    match next_label(code, label, here, Some(byte)) {
        Some(next) => next,
        None => label,
    }
}

/// Returns whether an operation may go on at another label and do nothing else.
fn is_test(here: Op) -> bool {
    matches!(
        here,
        Op::Switch { .. } | Op::IsOne { .. } | Op::One { .. } | Op::Text { .. }
    )
}

/// Returns for each first byte, from one to before another, the label at which the operation of a label goes
/// on, or the label itself if that does more.
fn leads_of(code: &Code, label: u32, here: Op, from: u32, to: u32) -> [u32; 256]
    requires to { to ≤ 256 }
    ensures { at_label (lists_of code.now) label ≡ here → (b : ℕ) → from ≤ b → b < to
        → Skips (lists_of code.now) (Some b) label (get_or result b 0) }
{
    let mut leads = [label; 256];
    if !is_test(here) {
        return leads;
    }
    for byte in from..to {
        leads[byte as usize] = lead_of(code, label, here, byte as u8);
    }
    leads
}

/// Returns whether the table of a choice has the labels for some first bytes, from `from` to before `to`.
/// A failure of the first alternative is not recorded. `others`: the labels to which the second one leads.
fn has_plain_labels(
    code: &Code,
    branch: Branch,
    first: Op,
    others: &[u32],
    columns: Columns<'_>,
    from: u32,
    to: u32,
) -> bool
    requires to { to ≤ 256 }
    requires columns { AreColumns (lists_of code.now) branch columns }
    requires others { length others.now ≡ 256 }
    requires plain { branch.noted ≡ false }
    ensures { ((b : ℕ) → from ≤ b → b < to
        → Skips (lists_of code.now) (Some b) branch.second (get_or others.now b 0))
        → at_label (lists_of code.now) branch.first ≡ first → result ≡ true → (b : ℕ) → from ≤ b → b < to
        → ContinuesAs (lists_of code.now) branch (Some b)
        (label_for (lists_of code.now) branch.table (Some b)) }
{
    for byte in from..to {
        let label = columns.labels[byte as usize];
        if columns.flags[byte as usize] == 0 {
            if label != others[byte as usize] && label != branch.second {
                return false;
            }
        } else if !skips(code, branch.first, first, Some(byte as u8), label) {
            return false;
        }
    }
    true
}

/// Returns whether the table of a choice has the labels for some first bytes, as `has_plain_labels`, if a
/// failure of the first alternative is recorded.
fn has_noted_labels(
    code: &Code,
    branch: Branch,
    first: Op,
    others: &[u32],
    columns: Columns<'_>,
    from: u32,
    to: u32,
) -> bool
    requires to { to ≤ 256 }
    requires columns { AreColumns (lists_of code.now) branch columns }
    requires others { length others.now ≡ 256 }
    requires noted { branch.noted ≡ true }
    ensures { ((b : ℕ) → from ≤ b → b < to
        → Skips (lists_of code.now) (Some b) branch.second (get_or others.now b 0))
        → at_label (lists_of code.now) branch.first ≡ first → result ≡ true → (b : ℕ) → from ≤ b → b < to
        → ContinuesAs (lists_of code.now) branch (Some b)
        (label_for (lists_of code.now) branch.table (Some b)) }
{
    let mut seen_to = 0;
    let mut seen_next = 0;
    let mut is_seen = false;
    for byte in from..to {
        let label = columns.labels[byte as usize];
        let next = others[byte as usize];
        if columns.flags[byte as usize] == 0 {
            if !is_seen || label != seen_to || next != seen_next {
                if !is_noted_from(code, branch, next, label) {
                    return false;
                }
                seen_to = label;
                seen_next = next;
                is_seen = true;
            }
        } else if !skips(code, branch.first, first, Some(byte as u8), label) {
            return false;
        }
    }
    true
}

/// Returns whether the table of a choice has the labels for some first bytes, as `has_plain_labels`, whether
/// a failure of the first alternative is recorded or not.
fn has_labels_over(
    code: &Code,
    branch: Branch,
    first: Op,
    others: &[u32],
    columns: Columns<'_>,
    from: u32,
    to: u32,
) -> bool
    requires to { to ≤ 256 }
    requires columns { AreColumns (lists_of code.now) branch columns }
    requires others { length others.now ≡ 256 }
    ensures { ((b : ℕ) → from ≤ b → b < to
        → Skips (lists_of code.now) (Some b) branch.second (get_or others.now b 0))
        → at_label (lists_of code.now) branch.first ≡ first → result ≡ true → (b : ℕ) → from ≤ b → b < to
        → ContinuesAs (lists_of code.now) branch (Some b)
        (label_for (lists_of code.now) branch.table (Some b)) }
{
    if branch.noted {
        has_noted_labels(code, branch, first, others, columns, from, to)
    } else {
        has_plain_labels(code, branch, first, others, columns, from, to)
    }
}

/// Returns whether the table of a choice has the labels for some first bytes, from one to before another.
/// The operations are those at which the alternatives begin.
fn has_labels(code: &Code, branch: Branch, first: Op, second: Op, from: u32, to: u32) -> bool
    requires { to ≤ 256 }
    ensures { at_label (lists_of code.now) branch.first ≡ first
        → at_label (lists_of code.now) branch.second ≡ second
        → result ≡ true → (b : ℕ) → from ≤ b → b < to
        → ContinuesAs (lists_of code.now) branch (Some b) (label_for (lists_of code.now) branch.table
        (Some b)) }
{
    let flags = match flags_of(code, branch.set) {
        Some(flags) => flags,
        None => return false,
    };
    let labels = match labels_of(code, branch.table) {
        Some(labels) => labels,
        None => return false,
    };
    let columns = Columns { flags, labels };
    match second {
        Op::Switch { table } => match labels_of(code, table) {
            Some(others) => has_labels_over(code, branch, first, others, columns, from, to),
            None => false,
        },
        _ => {
            let leads = leads_of(code, branch.second, second, from, to);
            has_labels_over(code, branch, first, &leads, columns, from, to)
        }
    }
}

/// Returns whether the table of a choice has the labels for all first bytes above ASCII.
fn has_wide(code: &Code, branch: Branch, first: Op, second: Op) -> bool
    ensures { at_label (lists_of code.now) branch.first ≡ first
        → at_label (lists_of code.now) branch.second ≡ second
        → result ≡ true → (b : ℕ) → 128 ≤ b → b < 256
        → ContinuesAs (lists_of code.now) branch (Some b) (label_for (lists_of code.now) branch.table
        (Some b)) }
{
    match wide_label(code, branch.first, first) {
        Some(to) => {
            is_wide(code, branch.table, to) || has_labels(code, branch, first, second, 128, 256)
        }
        None => has_labels(code, branch, first, second, 128, 256),
    }
}

/// Returns whether the table of a choice has the labels for all first bytes and for the end.
pub(crate) fn has_branch(code: &Code, branch: Branch) -> bool
    ensures { result ≡ true → HasBranch (lists_of code.now) branch }
{
    let first = operation_at(code, branch.first);
    let second = operation_at(code, branch.second);
    has_labels(code, branch, first, second, 0, 128)
        && has_wide(code, branch, first, second)
        && has_label(code, branch, first, second, None)
}
