//! The comments of a gap, the text between two tokens, found by an automaton.
ghost use Rattle.std.specs.Prelude.{◌≡◌, IfOk, false, reverse, true};
ghost use Rattle.format_grammar.specs.Comments as spec;

use std::alloc::{AllocError, Global};

/// The state of the automaton at a byte of a gap.
#[derive(Clone, Copy, Debug)]
pub enum GapState {
    Outside,
    AfterSlash,
    InLine,
    /// In a block comment. The number says inside how many others it is.
    InBlock(usize),
    InBlockAfterSlash(usize),
    InBlockAfterStar(usize),
}

/// Returns whether a byte is a blank: a space, a tab, or the carriage return of a line end.
pub fn is_blank(byte: u8) -> bool
    ensures { result ≡ spec.is_blank byte }
{
    byte == b' ' || byte == b'\t' || byte == b'\r'
}

/// Returns the state after a byte in a block comment.
fn within_block(around: usize, byte: u8) -> GapState
    ensures { result ≡ spec.within_block around byte }
{
    if byte == b'/' {
        GapState::InBlockAfterSlash(around)
    } else if byte == b'*' {
        GapState::InBlockAfterStar(around)
    } else {
        GapState::InBlock(around)
    }
}

/// Returns the state after a slash outside of comments and another byte.
fn after_slash(byte: u8) -> GapState
    ensures { result ≡ spec.after_slash byte }
{
    if byte == b'/' {
        GapState::InLine
    } else if byte == b'*' {
        GapState::InBlock(0)
    } else {
        GapState::Outside
    }
}

/// Returns the state after a block comment.
fn after_block(around: usize) -> GapState
    ensures { result ≡ spec.after_block around }
{
    if around == 0 {
        GapState::Outside
    } else {
        GapState::InBlock(around - 1)
    }
}

/// Returns the state after a byte. `closings` counts the block comments, of those open after it, that the gap
/// closes.
fn state_after(place: GapState, byte: u8, closings: usize) -> GapState
    ensures { result ≡ spec.state_after place byte closings }
{
    match place {
        GapState::Outside => {
            if byte == b'/' {
                GapState::AfterSlash
            } else {
                GapState::Outside
            }
        }
        GapState::AfterSlash => after_slash(byte),
        GapState::InLine => {
            if byte == b'\n' {
                GapState::Outside
            } else {
                GapState::InLine
            }
        }
        GapState::InBlock(around) => within_block(around, byte),
        GapState::InBlockAfterSlash(around) => {
            if byte == b'*' && closings != 0 {
                GapState::InBlock(around.saturating_add(1))
            } else {
                within_block(around, byte)
            }
        }
        GapState::InBlockAfterStar(around) => {
            if byte == b'/' {
                after_block(around)
            } else {
                within_block(around, byte)
            }
        }
    }
}

/// Returns how many of the block comments that are open before a text are closed in it, by its first two
/// bytes, and by these counts of the text from the third and from the second byte on. A comment that begins
/// in the text and is left open is none, as the second one of `/* /*/`.
pub fn closings_at(byte: u8, next: u8, third: usize, second: usize) -> usize
    ensures { result ≡ spec.closings_at byte next third second }
{
    if byte == b'*' && next == b'/' {
        third.saturating_add(1)
    } else if byte == b'/' && next == b'*' && third != 0 {
        third - 1
    } else {
        second
    }
}

/// Returns whether a byte is more than white space outside of comments.
fn is_kept(place: GapState, byte: u8) -> bool
    ensures { result ≡ spec.is_kept place byte }
{
    match place {
        GapState::Outside => !(is_blank(byte) || byte == b'\n'),
        _ => true,
    }
}

/// Returns whether a gap is of blanks and line feeds alone.
pub fn is_all_white(gap: &[u8]) -> bool
    ensures { result ≡ true → spec.is_all_white gap.now ≡ true }
{
    let mut rest = gap;
    while let Some((byte, after)) = rest.split_first() {
        if !(is_blank(*byte) || *byte == b'\n') {
            return false;
        }
        rest = after;
    }
    true
}

/// Returns the lines of a piece before a line end, without the blanks at their ends, in reverse.
pub fn trim_lines(alloc: Global, text: &[u8]) -> Result<Vec<u8>, AllocError>
    ensures { IfOk result (λ bytes. reverse bytes.items ≡ spec.trimmed_line text.now) }
{
    let mut bytes = Vec::new(alloc);
    bytes.push(b'\n')?;
    let mut is_at_end = true;
    let mut left = text.len();
    while left > 0 {
        left -= 1;
        let byte = text[left];
        if !(is_blank(byte) && is_at_end) {
            bytes.push(byte)?;
            is_at_end = byte == b'\n';
        }
    }
    Ok(bytes)
}

/// Returns the lines of a gap before a line end, without the blanks at their ends, in reverse: each byte with
/// how many of the block comments that are open after it are closed.
fn mark_lines(alloc: Global, gap: &[u8]) -> Result<Vec<(u8, usize)>, AllocError>
    ensures { IfOk result (λ marks. reverse marks.items ≡ spec.marked (spec.trimmed_line gap.now)) }
{
    let mut marks = Vec::new(alloc);
    marks.push((b'\n', 0))?;
    let mut first = b'\n';
    let mut second_on = 0usize;
    let mut closings = 0usize;
    let mut is_at_end = true;
    let mut left = gap.len();
    while left > 0 {
        left -= 1;
        let byte = gap[left];
        if !(is_blank(byte) && is_at_end) {
            marks.push((byte, closings))?;
            let all = closings_at(byte, first, second_on, closings);
            second_on = closings;
            closings = all;
            first = byte;
            is_at_end = byte == b'\n';
        }
    }
    Ok(marks)
}

/// Returns the comments of a gap, and the words that have no token of their own.
pub fn comments_of(alloc: Global, gap: &[u8]) -> Result<Vec<u8>, AllocError>
    ensures { IfOk result (λ kept. kept.items ≡ spec.comments_of gap.now) }
{
    let mut marks = mark_lines(alloc, gap)?;
    let mut kept = Vec::new(alloc);
    let mut place = GapState::Outside;
    while let Some((byte, closings)) = marks.pop() {
        if is_kept(place, byte) {
            kept.push(byte)?;
        }
        place = state_after(place, byte, closings);
    }
    Ok(kept)
}

/// Returns whether a line may end with a blank; `false` is definite.
pub fn has_blank_end(text: &[u8]) -> bool
    ensures { result ≡ false → spec.has_blank_end text.now ≡ false }
{
    let mut is_at_end = false;
    let mut left = text.len();
    while left > 0 {
        left -= 1;
        let byte = text[left];
        if is_blank(byte) && is_at_end {
            return true;
        }
        is_at_end = byte == b'\n';
    }
    false
}
