//! The comments of a gap, the text between two tokens.
ghost use Rattle.std.specs.Prelude.{◌≡◌, ◌≢◌, ◌+◌, ◌-◌, ◌^◌, ◌<◌, ◌≤◌, ◌==◌, ◌&&◌, ℕ, List, IfOk, OnOk, false, slice_index, true};
ghost use Rattle.format_grammar.specs.Comments.{is_blank};
ghost use Rattle.format_grammar.specs.Gaps.{AreComments, starts_comment};

use crate::contents::{closings_at, is_blank};
use std::alloc::{AllocError, Global};

/// A comment of a gap.
#[derive(Clone, Copy)]
pub struct Comment {
    /// The byte at which it starts.
    pub start: usize,
    /// The byte before which it ends; of a line comment, before its line end.
    pub end: usize,
    /// Whether it is a line comment.
    pub is_line: bool,
    /// The number of line ends between the comment and the one before, or the start of the gap.
    pub line_ends: usize,
}

/// The comments of a gap, in order.
#[derive(Drop)]
pub struct Gap {
    pub comments: Vec<Comment>,
    /// The number of line ends after the last comment, or in the whole gap without comments.
    pub line_ends: usize,
}

/// Returns the byte at a position, or 0 at the end of the text.
fn byte_at(bytes: &[u8], at: usize) -> u8
    ensures { result ≡ slice_index bytes.now at }
{
    bytes.get(at).copied().unwrap_or(0)
}

/// Returns the position after the last byte of `start..end` that is no blank.
pub fn trim_end(bytes: &[u8], start: usize, end: usize) -> usize
    ensures within { start ≤ end → start ≤ result }
    ensures bound { result ≤ end }
    ensures blanks { (k : ℕ) → result ≤ k → k < end → is_blank (slice_index bytes.now k) ≡ true }
    ensures last { start < result → is_blank (slice_index bytes.now (result - 1)) ≡ false }
{
    let mut trimmed = end;
    while start < trimmed {
        if !is_blank(byte_at(bytes, trimmed - 1)) {
            return trimmed;
        }
        trimmed -= 1;
    }
    trimmed
}

/// Returns whether two bytes are at a position.
fn has_pair(bytes: &[u8], at: usize, first: u8, second: u8) -> bool
    ensures { at + 1 < 2 ^ 64
        → result ≡ (slice_index bytes.now at == first && slice_index bytes.now (at + 1) == second) }
{
    byte_at(bytes, at) == first && byte_at(bytes, at.saturating_add(1)) == second
}

/// Returns the position of the first line feed from a position on, or `end`.
pub fn find_line_feed(bytes: &[u8], from: usize, end: usize) -> usize
    ensures within { from ≤ end → from ≤ result }
    ensures bound { result ≤ end }
    ensures none { (k : ℕ) → from ≤ k → k < result → slice_index bytes.now k ≢ 10 }
    ensures found { result < end → slice_index bytes.now result ≡ 10 }
{
    for at in from..end {
        if byte_at(bytes, at) == b'\n' {
            return at;
        }
    }
    end
}

/// Counts for each byte of the gap `from..end`, and for its end, how many of the block comments that are open
/// there are closed in the gap.
fn count_closings(
    alloc: Global,
    bytes: &[u8],
    from: usize,
    end: usize,
) -> Result<Vec<usize>, AllocError> {
    let mut counts = vec![in alloc; 0usize; end.saturating_sub(from).saturating_add(1)]?;
    let mut next = 0u8;
    let mut third = 0usize;
    let mut second = 0usize;
    for at in (from..end).rev() {
        let byte = byte_at(bytes, at);
        let closings = closings_at(byte, next, third, second);
        if let Some(count) = counts.get_mut(at - from) {
            *count = closings;
        }
        next = byte;
        third = second;
        second = closings;
    }
    Ok(counts)
}

/// The text of a gap.
#[derive(Clone, Copy)]
struct GapText<'t> {
    /// The whole text.
    bytes: &'t [u8],
    /// The byte at which the gap starts.
    from: usize,
    /// The byte before which it ends.
    end: usize,
}

/// Returns the position after the block comment that starts at `start` in a gap, or the gap's end if the
/// comment is not closed. A comment begins inside another one only if it is closed.
fn find_block_end(text: GapText<'_>, counts: &[usize], start: usize) -> usize
    ensures within { start ≤ text.entry.end → start ≤ result }
    ensures bound { result ≤ text.entry.end }
    ensures later { start < text.entry.end → start < result }
{
    let mut depth = 0usize;
    let mut next = start;
    for at in start..text.end {
        if at < next {
            continue;
        }
        let after = at.saturating_add(2);
        let is_closed = counts
            .get(after.saturating_sub(text.from))
            .is_some_and(|count| *count > 0);
        if has_pair(text.bytes, at, b'/', b'*') && (is_closed || at == start) {
            depth = depth.saturating_add(1);
            next = after;
        } else if has_pair(text.bytes, at, b'*', b'/') {
            depth = depth.saturating_sub(1);
            next = after;
            if depth == 0 {
                return after.min(text.end);
            }
        }
    }
    text.end
}

/// Finds the comments of the gap `from..end`.
pub fn scan_gap(alloc: Global, bytes: &[u8], from: usize, end: usize) -> Result<Gap, AllocError>
    ensures { IfOk result (λ gap. from ≤ end → AreComments bytes.now from gap.comments.items end) }
{
    let text = GapText { bytes, from, end };
    let mut gap = Gap {
        comments: Vec::new(alloc),
        line_ends: 0,
    };
    let mut counts = Vec::new(alloc);
    let mut next = from;
    for start in from..end {
        if start < next {
            continue;
        }
        next = scan_at(alloc, text, start, &mut counts, &mut gap)?;
    }
    Ok(gap)
}

/// Adds the comment that starts at a byte of a gap, if one does, or else the line end that is there. Returns
/// the position after the comment, or this byte.
fn scan_at(
    alloc: Global,
    text: GapText<'_>,
    start: usize,
    counts: &mut Vec<usize>,
    gap: &mut Gap,
) -> Result<usize, AllocError>
    ensures within { IfOk result (λ next. start ≤ text.entry.end → start ≤ next) }
    ensures bound { IfOk result (λ next. start ≤ text.entry.end → next ≤ text.entry.end) }
    ensures none { IfOk result (λ next. start < text.entry.end → next ≤ start
        → starts_comment text.entry.bytes.now start ≡ false) }
    ensures comments { IfOk result (λ next. (from : ℕ) → start < text.entry.end
        → AreComments text.entry.bytes.now from gap.old.comments.items start
        → AreComments text.entry.bytes.now from gap.new.comments.items next) }
{
    if has_pair(text.bytes, start, b'/', b'/') {
        let end = find_line_feed(text.bytes, start, text.end);
        gap.add(start, end, true)?;
        return Ok(end);
    }
    if has_pair(text.bytes, start, b'/', b'*') {
        count_once(alloc, text, counts)?;
        let end = find_block_end(text, counts, start);
        gap.add(start, end, false)?;
        return Ok(end);
    }
    gap.count_line_end(byte_at(text.bytes, start));
    Ok(start)
}

/// Counts the closings of a gap, unless they are counted.
fn count_once(alloc: Global, text: GapText<'_>, counts: &mut Vec<usize>) -> Result<(), AllocError> {
    if counts.is_empty() {
        *counts = count_closings(alloc, text.bytes, text.from, text.end)?;
    }
    Ok(())
}

/// Returns whether a line ends in a gap, outside of block comments.
pub fn has_line_end(gap: &Gap) -> bool {
    for comment in &gap.comments {
        if comment.is_line || comment.line_ends > 0 {
            return true;
        }
    }
    gap.line_ends > 0
}

impl Gap {
    /// Adds a comment.
    fn add(&mut self, start: usize, end: usize, is_line: bool) -> Result<(), AllocError>
        ensures { OnOk result ((bytes : List ℕ) (from : ℕ) → starts_comment bytes start ≡ true → start ≤ end
            → AreComments bytes from self.old.comments.items start
            → AreComments bytes from self.new.comments.items end) }
    {
        self.comments.push(Comment {
            start,
            end,
            is_line,
            line_ends: self.line_ends,
        })?;
        self.line_ends = 0;
        Ok(())
    }

    /// Counts a line end, if a byte is one.
    fn count_line_end(&mut self, byte: u8)
        ensures { self.new.comments ≡ self.old.comments }
    {
        if byte == b'\n' {
            self.line_ends = self.line_ends.saturating_add(1);
        }
    }
}
