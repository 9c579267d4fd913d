//! A lexer of texts that need not be grammars.
ghost use Rattle.std.specs.Prelude.{◌≡◌, ◌≢◌, ◌<◌, ◌≤◌, IfOk, length, slice_index_or};
ghost use Rattle.lint_lexemes.specs.Lexemes.{AreInOrder, is_edge, is_name};

use std::alloc::{AllocError, Global};

/// The class of a lexeme.
#[derive(Clone, Copy, Debug, PartialEq, Eq)]
pub enum LexemeClass {
    /// ASCII letters, digits and `_`, no digit first.
    Name,
    /// ASCII digits.
    Digits,
    /// A string in double quotes.
    Text,
    /// A double quote that no other closes, up to the text's end.
    OpenText,
    /// A text in single quotes, in one line.
    Character,
    /// A single quote that no other closes in its line.
    OpenCharacter,
    /// A block comment that is not closed.
    OpenComment,
    /// A comment that begins with `//!`.
    GrammarDoc,
    /// Another ASCII character.
    Sign(u8),
    /// Characters beyond ASCII.
    Foreign,
    /// Nothing: before the first lexeme, or after the last.
    Edge,
}

impl LexemeClass {
    /// Whether it is that of names.
    pub(crate) fn is_name(self) -> bool
        ensures { result ≡ is_name self }
    {
        matches!(self, LexemeClass::Name)
    }

    /// Whether it is that of an edge.
    pub(crate) fn is_edge(self) -> bool
        ensures { result ≡ is_edge self }
    {
        matches!(self, LexemeClass::Edge)
    }
}

/// A lexeme: its class, and its bytes in the text.
#[derive(Clone, Copy, Debug, PartialEq, Eq)]
pub struct Lexeme {
    pub class: LexemeClass,
    pub start: usize,
    pub end: usize,
}

/// The lexemes of a text, in order; blanks, line comments and closed block comments are left out. The time is
/// linear in the text.
pub fn lexemes(alloc: Global, text: &str) -> Result<Vec<Lexeme>, AllocError>
    ensures { IfOk result (λ lexemes. AreInOrder 0 lexemes.items (length text.now)) }
{
    let bytes = text.as_bytes();
    let mut lexemes = Vec::new(alloc);
    let mut next = 0usize;
    for start in 0..bytes.len() {
        if start < next {
            continue;
        }
        let (class, end) = scan(bytes, start);
        next = end;
        if let Some(class) = class {
            lexemes.push(Lexeme { class, start, end })?;
        }
    }
    Ok(lexemes)
}

/// The class of the lexeme at a byte and the byte after it; no class for a blank or a comment.
fn scan(bytes: &[u8], start: usize) -> (Option<LexemeClass>, usize)
    requires { start < length bytes.now }
    ensures after { start < result.1 }
    ensures within { result.1 ≤ length bytes.now }
{
    let after = start.saturating_add(1);
    match byte_at(bytes, start) {
        b' ' | b'\t' | b'\r' | b'\n' => (None, after),
        b'"' => scan_text(bytes, start),
        b'\'' => scan_character(bytes, start),
        b'/' => scan_slash(bytes, start),
        byte if byte.is_ascii_digit() => (Some(LexemeClass::Digits), digits_end(bytes, after)),
        byte if is_name_byte(byte) => (Some(LexemeClass::Name), name_end(bytes, after)),
        byte if byte >= 128 => (Some(LexemeClass::Foreign), foreign_end(bytes, after)),
        byte => (Some(LexemeClass::Sign(byte)), after),
    }
}

/// The byte at a position, or 0 after the last.
pub fn byte_at(bytes: &[u8], at: usize) -> u8
    ensures byte { result ≡ slice_index_or bytes.now at 0 }
    ensures inside { result ≢ 0 → at < length bytes.now }
{
    bytes.get(at).copied().unwrap_or(0)
}

/// Whether a byte may be part of a name.
fn is_name_byte(byte: u8) -> bool {
    byte.is_ascii_alphanumeric() || byte == b'_'
}

/// The byte after the part of a name that begins at the byte `start`.
fn name_end(bytes: &[u8], start: usize) -> usize
    requires { start ≤ length bytes.now }
    ensures from { start ≤ result }
    ensures within { result ≤ length bytes.now }
{
    for at in start..bytes.len() {
        if !is_name_byte(byte_at(bytes, at)) {
            return at;
        }
    }
    bytes.len()
}

/// The byte after the digits that are from a byte on.
fn digits_end(bytes: &[u8], start: usize) -> usize
    requires { start ≤ length bytes.now }
    ensures from { start ≤ result }
    ensures within { result ≤ length bytes.now }
{
    for at in start..bytes.len() {
        if !byte_at(bytes, at).is_ascii_digit() {
            return at;
        }
    }
    bytes.len()
}

/// The byte after the characters beyond ASCII that are from a byte on.
fn foreign_end(bytes: &[u8], start: usize) -> usize
    requires { start ≤ length bytes.now }
    ensures from { start ≤ result }
    ensures within { result ≤ length bytes.now }
{
    for at in start..bytes.len() {
        if byte_at(bytes, at) < 128 {
            return at;
        }
    }
    bytes.len()
}

/// The end of the line in which a byte is: its line feed, or the text's end.
fn line_end(bytes: &[u8], start: usize) -> usize
    requires { start ≤ length bytes.now }
    ensures from { start ≤ result }
    ensures within { result ≤ length bytes.now }
    ensures end { result < length bytes.now → slice_index_or bytes.now result 0 ≡ 10 }
{
    for at in start..bytes.len() {
        if byte_at(bytes, at) == b'\n' {
            return at;
        }
    }
    bytes.len()
}

/// A string in double quotes, closed or not.
fn scan_text(bytes: &[u8], start: usize) -> (Option<LexemeClass>, usize)
    requires { start < length bytes.now }
    ensures after { start < result.1 }
    ensures within { result.1 ≤ length bytes.now }
{
    let mut escaped = false;
    for at in start.saturating_add(1)..bytes.len() {
        let byte = byte_at(bytes, at);
        if escaped {
            escaped = false;
        } else if byte == b'\\' {
            escaped = true;
        } else if byte == b'"' {
            return (Some(LexemeClass::Text), at.saturating_add(1));
        }
    }
    (Some(LexemeClass::OpenText), bytes.len())
}

/// A text in single quotes, or the quote alone if none closes it in its line.
fn scan_character(bytes: &[u8], start: usize) -> (Option<LexemeClass>, usize)
    requires { start < length bytes.now }
    ensures after { start < result.1 }
    ensures within { result.1 ≤ length bytes.now }
{
    let first = start.saturating_add(1);
    let second = first.saturating_add(1);
    if byte_at(bytes, first) == b'\'' && byte_at(bytes, second) == b'\'' {
        return (Some(LexemeClass::Character), second.saturating_add(1));
    }
    let mut escaped = false;
    for at in first..bytes.len() {
        let byte = byte_at(bytes, at);
        if byte == b'\n' {
            break;
        }
        if escaped {
            escaped = false;
        } else if byte == b'\\' {
            escaped = true;
        } else if byte == b'\'' {
            return (Some(LexemeClass::Character), at.saturating_add(1));
        }
    }
    (Some(LexemeClass::OpenCharacter), first)
}

/// A comment, or a slash.
fn scan_slash(bytes: &[u8], start: usize) -> (Option<LexemeClass>, usize)
    requires { start < length bytes.now }
    ensures after { start < result.1 }
    ensures within { result.1 ≤ length bytes.now }
{
    let second = start.saturating_add(1);
    let third = second.saturating_add(1);
    match (byte_at(bytes, second), byte_at(bytes, third)) {
        (b'/', b'!') => (Some(LexemeClass::GrammarDoc), line_end(bytes, second)),
        (b'/', _) => (None, line_end(bytes, second)),
        (b'*', _) => scan_block(bytes, start),
        _ => (Some(LexemeClass::Sign(b'/')), second),
    }
}

/// A block comment, in which others may be.
fn scan_block(bytes: &[u8], start: usize) -> (Option<LexemeClass>, usize)
    requires { start < length bytes.now }
    ensures after { start < result.1 }
    ensures within { result.1 ≤ length bytes.now }
{
    let mut depth = 0usize;
    let mut next = start;
    for at in start..bytes.len() {
        if at < next {
            continue;
        }
        let second = at.saturating_add(1);
        match (byte_at(bytes, at), byte_at(bytes, second)) {
            (b'/', b'*') => {
                depth = depth.saturating_add(1);
                next = second.saturating_add(1);
            }
            (b'*', b'/') => {
                depth = depth.saturating_sub(1);
                next = second.saturating_add(1);
                if depth == 0 {
                    return (None, next);
                }
            }
            _ => {}
        }
    }
    (Some(LexemeClass::OpenComment), bytes.len())
}
