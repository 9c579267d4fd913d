//! Writing of tables.
use crate::points::{Branch, Demand};
use crate::tables::TABLE_SIZE;
use matcher_code::code::Op;
use std::alloc::{AllocError, Global};

/// The operations and the tables of a program.
#[derive(Drop)]
pub(crate) struct Made {
    pub(crate) ops: Vec<Op>,
    pub(crate) tables: Vec<u32>,
}

/// The operations of a program that is being made, with the byte sets and the texts that it has.
#[derive(Drop)]
struct Draft<'a> {
    ops: Vec<Op>,
    /// For each label the one of an operation that records a failure and goes on there, or 0 if none is
    /// known.
    notes: Vec<u32>,
    byte_sets: &'a [u8],
    texts: &'a [Vec<u8>],
}

/// Returns a list of zeros, for the labels of `count` tables.
fn empty_tables(alloc: Global, count: u32) -> Result<Vec<u32>, AllocError> {
    let empty = [0u32; 257];
    let mut tables = Vec::with_capacity(alloc, count as usize * 257)?;
    for _ in 0..count {
        tables.extend_from_slice(&empty)?;
    }
    Ok(tables)
}

/// Returns the labels of a table for bytes and for the end.
fn labels_of(tables: &mut Vec<u32>, table: u32) -> &mut [u32] {
    let start = table as usize;
    let end = start + TABLE_SIZE as usize;
    if end <= tables.len() {
        &mut tables.as_mut_slice()[start..end]
    } else {
        &mut []
    }
}

/// Writes the label for the end.
fn write_end(labels: &mut [u32], label: u32) {
    if let Some(place) = labels.get_mut(256) {
        *place = label;
    }
}

/// Writes one label for each byte whose flag is not 0, and another for each other byte.
fn write_either(labels: &mut [u32], flags: &[u8], marked: u32, other: u32) {
    for byte in 0..labels.len().min(flags.len()) {
        labels[byte] = if flags[byte] == 0 { other } else { marked };
    }
}

/// Returns one label if the flag is 0, another if it is the length of a character, and `unknown` if it is
/// neither.
#[inline(always)]
fn lead_by(flag: u8, next: u32, fail: u32, unknown: u32) -> u32 {
    let other = if flag > 4 { unknown } else { next };
    if flag == 0 { fail } else { other }
}

/// Writes one label if the flag is 0, another if it is the length of a character, and `unknown` if it is
/// neither.
fn write_tested(labels: &mut [u32], flags: &[u8], next: u32, fail: u32, unknown: u32) {
    for byte in 0..labels.len().min(flags.len()) {
        labels[byte] = lead_by(flags[byte], next, fail, unknown);
    }
}

/// Writes a label for each byte whose flag is not 0.
fn write_marked(labels: &mut [u32], flags: &[u8], label: u32) {
    for byte in 0..labels.len().min(flags.len()) {
        let known = labels[byte];
        labels[byte] = if flags[byte] == 0 { known } else { label };
    }
}

/// Writes where the operation of a text at a label goes on.
fn write_text(labels: &mut [u32], first: Option<u8>, label: u32, fail: u32) {
    match first {
        Some(byte) => {
            labels.fill(fail);
            if let Some(place) = labels.get_mut(byte as usize) {
                *place = label;
            }
        }
        None => labels.fill(label),
    }
}

/// Writes the labels of a table into another one.
fn copy_table(tables: &mut Vec<u32>, from: u32, table: u32) {
    let start = from as usize;
    let end = start + TABLE_SIZE as usize;
    let place = table as usize;
    if end <= tables.len() && place + TABLE_SIZE as usize <= tables.len() {
        tables.copy_within(start..end, place);
    }
}

/// Writes into a table the labels of another one, for the bytes whose flag is not 0.
fn copy_marked(tables: &mut Vec<u32>, flags: &[u8], from: u32, table: u32) {
    let start = from as usize;
    let place = table as usize;
    let count = flags.len().min(256);
    if start + 256 > tables.len() || place + 256 > tables.len() {
        return;
    }
    let labels = tables.as_mut_slice();
    for byte in 0..count {
        let known = labels[place + byte];
        let label = labels[start + byte];
        labels[place + byte] = if flags[byte] == 0 { known } else { label };
    }
}

/// Writes where a test leads, or a label if that is not known, for each byte whose flag is not 0. `tested`:
/// the flags of the test.
fn write_test(labels: &mut [u32], flags: &[u8], tested: &[u8], next: u32, fail: u32, unknown: u32) {
    for byte in 0..labels.len().min(flags.len()).min(tested.len()) {
        let known = labels[byte];
        let label = lead_by(tested[byte], next, fail, unknown);
        labels[byte] = if flags[byte] == 0 { known } else { label };
    }
}

impl<'a> Draft<'a> {
    /// Returns the operation of a label.
    fn operation(&self, label: u32) -> Op {
        match self.ops.get(label as usize) {
            Some(op) => *op,
            None => Op::Lose,
        }
    }

    /// Returns the flags of a set.
    fn flags(&self, set: u32) -> &'a [u8] {
        let start = set as usize * 256;
        match self.byte_sets.get(start..start + 256) {
            Some(flags) => flags,
            None => &[],
        }
    }

    /// Returns the first byte of a text.
    fn first_byte(&self, text: u32) -> Option<u8> {
        match self.texts.get(text as usize) {
            Some(bytes) => bytes.first().copied(),
            None => None,
        }
    }

    /// Returns the label of an operation that records a failure and goes on at a label. It is added if there
    /// is none.
    fn note_before(&mut self, label: u32) -> Result<u32, AllocError> {
        let known = match self.notes.get_mut(label as usize) {
            Some(known) => known,
            None => return Ok(0),
        };
        if *known == 0 {
            let added = (self.ops.len() & 0xffff_ffff) as u32;
            self.ops.push(Op::Note { next: label })?;
            *known = added;
        }
        Ok(*known)
    }

    /// Writes into a table where the second alternative of a choice leads, for all first bytes and for the
    /// end.
    fn write_second(&self, tables: &mut Vec<u32>, branch: Branch) {
        let table = branch.table;
        match self.operation(branch.second) {
            Op::Switch { table: from } => copy_table(tables, from, table),
            Op::IsOne { set, next, fail } => {
                let labels = labels_of(tables, table);
                write_tested(labels, self.flags(set), next, fail, branch.second);
                write_end(labels, fail);
            }
            Op::One { set, next: _, fail } => {
                let labels = labels_of(tables, table);
                write_either(labels, self.flags(set), branch.second, fail);
                write_end(labels, fail);
            }
            Op::Text {
                text,
                next: _,
                fail,
            } => {
                let first = self.first_byte(text);
                write_text(labels_of(tables, table), first, branch.second, fail);
            }
            _ => labels_of(tables, table).fill(branch.second),
        }
    }

    /// Returns whether a label to which the second alternative of a choice leads is one that the table of the
    /// choice may have, too, since its operation records a failure.
    fn is_noted(&self, branch: Branch, label: u32) -> bool {
        match self.operation(label) {
            Op::Note { next } => {
                next == branch.second
                    || label != branch.second && label != branch.next && label != branch.on_fail
            }
            _ => false,
        }
    }

    /// Returns the label that the table of a choice has in place of that to which its second alternative
    /// leads.
    fn label_with_note(&mut self, branch: Branch, label: u32) -> Result<u32, AllocError> {
        if self.is_noted(branch, label) {
            Ok(label)
        } else {
            self.note_before(label)
        }
    }

    /// Writes labels before which a failure of the first alternative of a choice is recorded. They replace
    /// those of the second one for each byte whose flag is 0, and for the end. Bytes above ASCII have other
    /// flags.
    fn write_notes(
        &mut self,
        labels: &mut [u32],
        flags: &[u8],
        branch: Branch,
    ) -> Result<(), AllocError> {
        let mut last = labels.get(256).copied().unwrap_or(0);
        let mut noted = self.label_with_note(branch, last)?;
        write_end(labels, noted);
        for byte in 0..labels.len().min(flags.len()).min(128) {
            if flags[byte] == 0 {
                let label = labels[byte];
                if label != last {
                    last = label;
                    noted = self.label_with_note(branch, last)?;
                }
                labels[byte] = noted;
            }
        }
        Ok(())
    }

    /// Writes into a table where the first alternative of a choice leads for the first bytes with which it
    /// begins.
    fn write_first(&self, tables: &mut Vec<u32>, branch: Branch) {
        let flags = self.flags(branch.set);
        match self.operation(branch.first) {
            Op::Switch { table } => copy_marked(tables, flags, table, branch.table),
            Op::IsOne { set, next, fail } => {
                let labels = labels_of(tables, branch.table);
                write_test(labels, flags, self.flags(set), next, fail, branch.first);
            }
            Op::Text {
                text,
                next: _,
                fail,
            } => {
                let labels = labels_of(tables, branch.table);
                write_marked(labels, flags, branch.first);
                self.write_outside(labels, text, fail);
            }
            _ => write_marked(labels_of(tables, branch.table), flags, branch.first),
        }
    }

    /// Writes where a text leads for the first bytes above ASCII, if it begins otherwise.
    fn write_outside(&self, labels: &mut [u32], text: u32, fail: u32) {
        if let Some(first) = self.first_byte(text) {
            if first < 128 && labels.len() > 256 {
                labels[128..256].fill(fail);
            }
        }
    }

    /// Writes a table.
    fn write_table(&mut self, tables: &mut Vec<u32>, branch: Branch) -> Result<(), AllocError> {
        self.write_second(tables, branch);
        if branch.noted {
            let flags = self.flags(branch.set);
            self.write_notes(labels_of(tables, branch.table), flags, branch)?;
        }
        self.write_first(tables, branch);
        Ok(())
    }

    /// Writes the tables that are demanded, the last first, since those of the parts of a choice come later.
    fn write_all(&mut self, tables: &mut Vec<u32>, demands: &[Demand]) -> Result<(), AllocError> {
        for demand in demands.iter().rev() {
            if let Demand::Branch(branch) = demand {
                self.write_table(tables, *branch)?;
            }
        }
        Ok(())
    }
}

/// Returns some operations with those that record failures before tables lead on, and the `count` demanded
/// tables.
pub(crate) fn write_tables<'a>(
    alloc: Global,
    ops: Vec<Op>,
    count: u32,
    byte_sets: &'a [u8],
    texts: &'a [Vec<u8>],
    demands: &[Demand],
) -> Result<Made, AllocError> {
    let mut tables = empty_tables(alloc, count)?;
    let mut notes = Vec::new(alloc);
    notes.resize(ops.len(), 0)?;
    let mut draft = Draft {
        ops,
        notes,
        byte_sets,
        texts,
    };
    draft.write_all(&mut tables, demands)?;
    let Draft {
        ops,
        notes: _,
        byte_sets: _,
        texts: _,
    } = draft;
    Ok(Made { ops, tables })
}
