//! Comments within comments. If all are closed, a count of those that are open finds the end. If one is
//! left open, the text that opens it is a part of the comment around it, which no pass from the start can
//! know: so a pass from the end of the text back counts, for each position, the texts that close comments
//! around it.
ghost use Rattle.std.specs.Prelude.{◌≡◌, ◌≤◌, ◌<◌, ◌+◌, ◌-◌, ◌%◌, ℕ, IfSome, MatchOption, [], drop, get_or, length, true};
ghost use Rattle.matcher_code.specs.Bytecodes.{lists_in};
ghost use Rattle.matcher_code.specs.Comments.{can_delimit, closings, comment_len};
ghost use Rattle.matcher_code.specs.Reading.{nested_len};
ghost use Rattle.matcher_code.specs.Within.{IsAround, IsEnd, no_closings};

use crate::bytecode::Bytecode;
use crate::reading::{match_bytes, text_of};

/// The texts that close comments in which a position is.
#[derive(Clone, Copy)]
struct Closings {
    count: usize,
    /// The end of the comment with the number asked for; the outermost comment has the number 1.
    end: usize,
}

/// Returns whether a text may open or close comments.
fn can_delimit(bytes: &[u8]) -> bool
    ensures value { result ≡ can_delimit bytes.now }
    ensures fits { result ≡ true → (0 < length bytes.now) × (length bytes.now < 256) }
{
    !bytes.is_empty() && bytes.len() < 256
}

/// Returns the end of a comment that goes on at `from`, if it and all that begin within it are closed. No
/// clause refuses `None`, which costs only time.
fn skip_closed(opening: &[u8], closing: &[u8], text: &str, from: usize) -> Option<usize>
    requires opening { 0 < length opening.now }
    requires closing { 0 < length closing.now }
    ensures { IfSome result (IsEnd opening.now closing.now text.now from) }
{
    let mut at = from;
    let mut depth: usize = 0;
    while at < text.len() {
        if let Some(size) = match_bytes(opening, text, at) {
            depth += 1;
            at += size;
        } else if let Some(size) = match_bytes(closing, text, at) {
            if depth == 0 {
                return Some(at + size);
            }
            depth -= 1;
            at += size;
        } else {
            at += 1;
        }
    }
    None
}

/// Returns what closes comments around a position, from what does so around the 255 positions after it.
fn closings_at(
    opening: &[u8],
    closing: &[u8],
    text: &str,
    at: usize,
    behind: &[Closings; 256],
    number: usize,
) -> Closings
    requires opening { (0 < length opening.now) × (length opening.now < 256) }
    requires closing { (0 < length closing.now) × (length closing.now < 256) }
    requires inside { at < length text.now }
    requires known { (k : ℕ) → at < k → k < at + 256 → k ≤ length text.now
        → IsAround opening.now closing.now text.now number k (get_or behind.now (k % 256) no_closings) }
    ensures { IsAround opening.now closing.now text.now number at result }
{
    if let Some(size) = match_bytes(opening, text, at) {
        let inner = behind[(at + size) % 256];
        if inner.count > 0 {
            return Closings {
                count: inner.count - 1,
                end: inner.end,
            };
        }
    }
    if let Some(size) = match_bytes(closing, text, at) {
        let others = behind[(at + size) % 256];
        let count = others.count + 1;
        let end = if count == number {
            at + size
        } else {
            others.end
        };
        return Closings { count, end };
    }
    behind[(at + 1) % 256]
}

/// Returns what closes comments around a position.
fn closings_from(opening: &[u8], closing: &[u8], text: &str, from: usize, number: usize) -> Closings
    requires opening { (0 < length opening.now) × (length opening.now < 256) }
    requires closing { (0 < length closing.now) × (length closing.now < 256) }
    requires inside { from ≤ length text.now }
    ensures { IsAround opening.now closing.now text.now number from result }
{
    let mut behind = [Closings { count: 0, end: 0 }; 256];
    for at in (from..text.len()).rev() {
        behind[at % 256] = closings_at(opening, closing, text, at, &behind, number);
    }
    behind[from % 256]
}

/// Returns the end of a comment that goes on at `from`, if it is closed.
fn comment_end(opening: &[u8], closing: &[u8], text: &str, from: usize) -> Option<usize>
    requires opening { (0 < length opening.now) × (length opening.now < 256) }
    requires closing { (0 < length closing.now) × (length closing.now < 256) }
    requires inside { from ≤ length text.now }
    ensures { MatchOption result (closings opening.now closing.now 0 (drop from text.now) ≡ [])
        (IsEnd opening.now closing.now text.now from) }
{
    if let Some(end) = skip_closed(opening, closing, text, from) {
        return Some(end);
    }
    let count = closings_from(opening, closing, text, from, 0).count;
    if count == 0 {
        return None;
    }
    Some(closings_from(opening, closing, text, from, count).end)
}

/// Returns the length of the comment that begins here, or 0.
fn comment_len(opening: &[u8], closing: &[u8], text: &str, at: usize) -> usize
    requires opening { (0 < length opening.now) × (length opening.now < 256) }
    requires closing { (0 < length closing.now) × (length closing.now < 256) }
    ensures value { result ≡ comment_len opening.now closing.now (drop at text.now) }
    ensures within { result ≤ length text.now - at }
{
    match match_bytes(opening, text, at) {
        Some(size) => match comment_end(opening, closing, text, at + size) {
            Some(end) => end - at,
            None => 0,
        },
        None => 0,
    }
}

/// Returns the length in bytes of the comment that begins here, with the comments within it, by the numbers
/// of the texts that open and close comments; else 0.
#[inline(never)]
#[tactic(auto, using(crate::proofs::CommentLengths::len_of_texts))]
pub fn nested_len(code: &Bytecode<'_>, opening: u32, closing: u32, text: &str, at: usize) -> usize
    ensures value { result ≡ nested_len (lists_in code.now) opening closing (drop at text.now) }
    ensures within { result ≤ length text.now - at }
{
    let opening = text_of(code, opening);
    let closing = text_of(code, closing);
    if can_delimit(opening) && can_delimit(closing) {
        comment_len(opening, closing, text, at)
    } else {
        0
    }
}
