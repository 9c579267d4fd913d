//! The ends of tokens.
ghost use Rattle.std.specs.Prelude.{◌≡◌, ◌<◌, ◌≤◌, ◌+◌, ◌-◌, ◌^◌, ◌&&◌, ◌==◌, length, not, slice_index};
ghost use Rattle.std.specs.Char.{is_ascii_digit};
ghost use Rattle.std.specs.Option.{ForSome};
ghost use Rattle.server_symbols.specs.Lexemes as spec;
ghost use Rattle.server_symbols.specs.NewNames as names;

use crate::refusals::is_other;

/// Returns the byte after the letters, digits and `_` from a byte on.
pub(crate) fn name_end(text: &[u8], start: usize) -> usize
    requires { start ≤ length text.now }
    ensures further { start ≤ result }
    ensures within { result ≤ length text.now }
    ensures run { result ≡ spec.run_end names.is_other text.now start }
{
    for end in start..text.len() {
        if !is_other(text[end]) {
            return end;
        }
    }
    text.len()
}

/// Returns the byte after the digits from a byte on.
pub(crate) fn number_end(text: &[u8], start: usize) -> usize
    requires { start ≤ length text.now }
    ensures further { start ≤ result }
    ensures within { result ≤ length text.now }
    ensures run { result ≡ spec.run_end is_ascii_digit text.now start }
{
    for end in start..text.len() {
        if !text[end].is_ascii_digit() {
            return end;
        }
    }
    text.len()
}

/// Whether a byte is of a character beyond ASCII.
pub(crate) fn is_wide(byte: u8) -> bool
    ensures { result ≡ spec.is_wide byte }
{
    byte > 127
}

/// Returns the byte after the bytes beyond ASCII from a byte on.
pub(crate) fn wide_end(text: &[u8], start: usize) -> usize
    requires { start ≤ length text.now }
    ensures further { start ≤ result }
    ensures within { result ≤ length text.now }
    ensures run { result ≡ spec.run_end spec.is_wide text.now start }
{
    for end in start..text.len() {
        if !is_wide(text[end]) {
            return end;
        }
    }
    text.len()
}

/// Returns the end of the line from a byte on, before its line end.
pub(crate) fn line_end(text: &[u8], start: usize) -> usize
    requires { start ≤ length text.now }
    ensures further { start ≤ result }
    ensures within { result ≤ length text.now }
    ensures run { result ≡ spec.line_end text.now start }
{
    for end in start..text.len() {
        if is_line_end(text[end]) {
            return end;
        }
    }
    text.len()
}

/// Whether a byte ends a line.
fn is_line_end(byte: u8) -> bool
    ensures { result ≡ spec.is_line_end byte }
{
    byte == b'\n' || byte == b'\r'
}

/// Returns the byte after the quote that closes a string, or the end of the line if there is none. A
/// backslash escapes the byte after it.
pub(crate) fn string_end(text: &[u8], start: usize) -> usize
    requires { start ≤ length text.now }
    ensures further { start ≤ result }
    ensures within { result ≤ length text.now }
    ensures end { result ≡ spec.string_end text.now start }
{
    let mut is_escaped = false;
    for end in start..text.len() {
        let byte = text[end];
        if is_line_end(byte) {
            return end;
        }
        if is_closing_quote(is_escaped, byte) {
            return end + 1;
        }
        is_escaped = is_escape(is_escaped, byte);
    }
    text.len()
}

/// Whether a byte closes a string, after a backslash that escapes it or not.
fn is_closing_quote(is_escaped: bool, byte: u8) -> bool
    ensures { result ≡ spec.is_closing_quote is_escaped byte }
{
    byte == b'"' && !is_escaped
}

/// Whether a byte escapes the next one.
fn is_escape(is_escaped: bool, byte: u8) -> bool
    ensures { result ≡ spec.is_escape is_escaped byte }
{
    byte == b'\\' && !is_escaped
}

/// Returns the byte at an index, or 0 after the text.
pub(crate) fn byte_at(text: &[u8], index: usize) -> u8
    ensures value { result ≡ slice_index text.now index }
    ensures within { 0 < result → index < length text.now }
{
    match text.get(index) {
        Some(byte) => *byte,
        None => 0,
    }
}

/// Returns the byte after the quote that closes a character, or none if there is none in its line. A quote
/// closes no character that is that quote itself, or escaped.
pub(crate) fn character_end(text: &[u8], start: usize) -> Option<usize>
    requires { start ≤ length text.now }
    ensures further { ForSome result (λ end. start < end) }
    ensures within { ForSome result (λ end. end ≤ length text.now) }
    ensures end { result ≡ spec.character_end text.now start }
{
    let mut least = least_len(text, start);
    for end in start..text.len() {
        let byte = text[end];
        if is_line_end(byte) {
            return None;
        }
        if is_last_quote(byte, least) {
            return Some(end + 1);
        }
        least = least.saturating_sub(1);
    }
    None
}

/// Returns the least number of bytes of the character that begins at a byte.
fn least_len(text: &[u8], start: usize) -> usize
    ensures { result ≡ spec.least_len text.now start }
{
    if byte_at(text, start) == b'\\' { 2 } else { 1 }
}

/// Whether a byte closes a character that lacks `least` bytes.
fn is_last_quote(byte: u8, least: usize) -> bool
    ensures { result ≡ (byte == 39 && least == 0) }
{
    byte == b'\'' && least == 0
}

/// Returns the byte after a block comment that is open, with those in it, or the end of the text.
pub(crate) fn block_comment_end(text: &[u8], start: usize) -> usize
    requires { start ≤ length text.now }
    ensures further { start ≤ result }
    ensures within { result ≤ length text.now }
    ensures end { result ≡ spec.block_end text.now start }
{
    let mut inner = 0usize;
    let mut last = b' ';
    for end in start..text.len() {
        let byte = text[end];
        if is_outer_end(inner, last, byte) {
            return end + 1;
        }
        inner = inner_after(inner, last, byte);
        last = last_after(last, byte);
    }
    text.len()
}

/// Whether two neighbouring bytes close a block comment in which `inner` others are open.
fn is_outer_end(inner: usize, last: u8, byte: u8) -> bool
    ensures { result ≡ (spec.is_block_end last byte && inner == 0) }
{
    is_block_end(last, byte) && inner == 0
}

/// Whether two neighbouring bytes close a block comment.
fn is_block_end(last: u8, byte: u8) -> bool
    ensures { result ≡ spec.is_block_end last byte }
{
    last == b'*' && byte == b'/'
}

/// Whether two neighbouring bytes open a block comment.
fn is_block_start(last: u8, byte: u8) -> bool
    ensures { result ≡ spec.is_block_start last byte }
{
    last == b'/' && byte == b'*'
}

/// Returns how many comments are open in a block comment after two neighbouring bytes.
fn inner_after(inner: usize, last: u8, byte: u8) -> usize
    requires { inner < 2 ^ 64 - 1 }
    ensures value { result ≡ spec.inner_after inner last byte }
    ensures bound { result ≤ inner + 1 }
{
    if is_block_end(last, byte) {
        inner.saturating_sub(1)
    } else if is_block_start(last, byte) {
        inner + 1
    } else {
        inner
    }
}

/// Returns the second of two neighbouring bytes, or a blank if they close or open a comment.
fn last_after(last: u8, byte: u8) -> u8
    ensures { result ≡ spec.last_after last byte }
{
    if is_block_end(last, byte) || is_block_start(last, byte) {
        b' '
    } else {
        byte
    }
}
