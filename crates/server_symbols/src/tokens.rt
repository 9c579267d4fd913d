//! The tokens of a text.
ghost use Rattle.std.specs.Prelude.{◌≡◌, ◌≢◌, ◌+◌, ◌++◌, ◌<◌, ◌≤◌, IfOk, OnOk, false, length, slice_index};
ghost use Rattle.server_symbols.specs.Lexemes as lexemes;
ghost use Rattle.server_symbols.specs.Lexemes.{AreTokens, IsLexeme, IsNext};
ghost use Rattle.server_symbols.specs.Occurrences.{extent_of};
ghost use Rattle.server_symbols.specs.Tokens as spec;

use crate::refusals::is_first;
use crate::scanning::{
    block_comment_end, byte_at, character_end, is_wide, line_end, name_end, number_end, string_end,
    wide_end,
};
use std::alloc::{AllocError, Global};

/// The bytes of a part of a text, from `start` up to `end`.
#[derive(Clone, Copy, Debug, PartialEq, Eq)]
pub struct Extent {
    pub start: usize,
    pub end: usize,
}

/// The class of a token.
#[derive(Clone, Copy, Debug, PartialEq, Eq)]
pub enum TokenClass {
    /// Letters, digits and `_`, no digit first.
    Name,
    /// `#` and a name.
    Tag,
    Number,
    /// A string in double quotes, up to the end of its line if none closes it.
    Text,
    /// What is between single quotes in a line.
    Character,
    /// `// ..`, or `/* .. */` with those in it, up to the end of the text if none closes it.
    Comment,
    /// `/// ..`
    Doc,
    /// `//! ..`
    GrammarDoc,
    /// Any other ASCII character.
    Sign(u8),
    /// A run of characters beyond ASCII.
    Unknown,
}

/// A token: its class, and its bytes in the text.
#[derive(Clone, Copy, Debug, PartialEq, Eq)]
pub struct Token {
    pub class: TokenClass,
    pub start: usize,
    pub end: usize,
}

impl Token {
    /// Returns its bytes in the text.
    pub fn extent(self) -> Extent
        ensures { result ≡ extent_of self }
    {
        Extent {
            start: self.start,
            end: self.end,
        }
    }

    /// Whether it is this ASCII character.
    pub fn is_sign(self, sign: u8) -> bool
        ensures { result ≡ spec.is_sign sign self.class }
    {
        match self.class {
            TokenClass::Sign(byte) => byte == sign,
            _ => false,
        }
    }

    /// Whether it opens a bracket.
    pub fn is_opening(self) -> bool
        ensures { result ≡ spec.is_opening self.class }
    {
        self.is_sign(b'(') || self.is_sign(b'{') || self.is_sign(b'[')
    }

    /// Whether it closes a bracket.
    pub fn is_closing(self) -> bool
        ensures { result ≡ spec.is_closing self.class }
    {
        self.is_sign(b')') || self.is_sign(b'}') || self.is_sign(b']')
    }

    /// Whether it is a comment.
    pub fn is_comment(self) -> bool
        ensures { result ≡ spec.is_comment self.class }
    {
        matches!(
            self.class,
            TokenClass::Comment | TokenClass::Doc | TokenClass::GrammarDoc
        )
    }
}

/// Returns the tokens of a text, comments among them, in order and in linear time. What is no token of a
/// grammar is one of the class `Sign` or `Unknown`.
pub fn tokens_of(alloc: Global, text: &str) -> Result<Vec<Token>, AllocError>
    ensures { IfOk result (λ tokens. AreTokens text.now tokens.items) }
{
    let bytes = text.as_bytes();
    let mut tokens = Vec::new(alloc);
    let mut start = 0;
    while start < bytes.len() {
        let (class, end) = next_at(bytes, start);
        push_token(class, start, end, &mut tokens)?;
        start = end;
    }
    Ok(tokens)
}

/// Adds a token, if a class is given.
fn push_token(
    class: Option<TokenClass>,
    start: usize,
    end: usize,
    tokens: &mut Vec<Token>,
) -> Result<(), AllocError>
    ensures { OnOk result
        (tokens.new.items ≡ tokens.old.items ++ lexemes.token_at class start end) }
{
    if let Some(class) = class {
        tokens.push(Token { class, start, end })?;
    }
    Ok(())
}

/// Returns the class of the token that begins at a byte, or none for white space, and the byte after it.
fn next_at(text: &[u8], start: usize) -> (Option<TokenClass>, usize)
    requires { start < length text.now }
    ensures further { start < result.1 }
    ensures within { result.1 ≤ length text.now }
    ensures next { IsNext text.now start result.0 result.1 }
{
    if is_blank(text[start]) {
        return (None, start + 1);
    }
    let (class, end) = lexeme_at(text, start);
    (Some(class), end)
}

/// Whether a byte is white space.
fn is_blank(byte: u8) -> bool
    ensures { result ≡ lexemes.is_blank byte }
{
    byte == b' ' || byte == b'\t' || byte == b'\r' || byte == b'\n'
}

/// Returns the class of the token that begins at a byte, and the byte after it.
fn lexeme_at(text: &[u8], start: usize) -> (TokenClass, usize)
    requires inside { start < length text.now }
    requires no_blank { lexemes.is_blank (slice_index text.now start) ≡ false }
    ensures further { start < result.1 }
    ensures within { result.1 ≤ length text.now }
    ensures lexeme { IsLexeme text.now result.0 start result.1 }
{
    let byte = text[start];
    if byte == b'"' {
        (TokenClass::Text, string_end(text, start + 1))
    } else if byte == b'#' {
        tag_at(text, start)
    } else if byte == b'\'' {
        character_at(text, start)
    } else if byte == b'/' {
        comment_at(text, start)
    } else {
        word_at(text, start)
    }
}

/// Returns the name, the number or the unknown characters that begin at a byte, or the sign there.
fn word_at(text: &[u8], start: usize) -> (TokenClass, usize)
    requires inside { start < length text.now }
    requires no_blank { lexemes.is_blank (slice_index text.now start) ≡ false }
    requires no_text { slice_index text.now start ≢ 34 }
    requires no_character { slice_index text.now start ≢ 39 }
    requires no_tag { slice_index text.now start ≢ 35 }
    requires no_comment { slice_index text.now start ≢ 47 }
    ensures further { start < result.1 }
    ensures within { result.1 ≤ length text.now }
    ensures lexeme { IsLexeme text.now result.0 start result.1 }
{
    let byte = text[start];
    if is_first(byte) {
        (TokenClass::Name, name_end(text, start + 1))
    } else if byte.is_ascii_digit() {
        (TokenClass::Number, number_end(text, start + 1))
    } else if is_wide(byte) {
        (TokenClass::Unknown, wide_end(text, start + 1))
    } else {
        (TokenClass::Sign(byte), start + 1)
    }
}

/// Returns the tag that begins at a byte, or the sign there.
fn tag_at(text: &[u8], start: usize) -> (TokenClass, usize)
    requires inside { start < length text.now }
    requires sign { slice_index text.now start ≡ 35 }
    ensures further { start < result.1 }
    ensures within { result.1 ≤ length text.now }
    ensures lexeme { IsLexeme text.now result.0 start result.1 }
{
    let end = name_end(text, start + 1);
    if end > start + 1 {
        (TokenClass::Tag, end)
    } else {
        (TokenClass::Sign(b'#'), end)
    }
}

/// Returns the character in quotes that begins at a byte, or the sign there.
fn character_at(text: &[u8], start: usize) -> (TokenClass, usize)
    requires inside { start < length text.now }
    requires quote { slice_index text.now start ≡ 39 }
    ensures further { start < result.1 }
    ensures within { result.1 ≤ length text.now }
    ensures lexeme { IsLexeme text.now result.0 start result.1 }
{
    match character_end(text, start + 1) {
        Some(end) => (TokenClass::Character, end),
        None => (TokenClass::Sign(b'\''), start + 1),
    }
}

/// Returns the comment that begins at a byte, or the sign there.
fn comment_at(text: &[u8], start: usize) -> (TokenClass, usize)
    requires inside { start < length text.now }
    requires slash { slice_index text.now start ≡ 47 }
    ensures further { start < result.1 }
    ensures within { result.1 ≤ length text.now }
    ensures lexeme { IsLexeme text.now result.0 start result.1 }
{
    let next = byte_at(text, start + 1);
    if next == b'/' {
        line_comment_at(text, start)
    } else if next == b'*' {
        (TokenClass::Comment, block_comment_end(text, start + 2))
    } else {
        (TokenClass::Sign(b'/'), start + 1)
    }
}

/// Returns the line comment that begins at a byte: its class is by what follows its slashes.
fn line_comment_at(text: &[u8], start: usize) -> (TokenClass, usize)
    requires inside { start + 1 < length text.now }
    requires slash { slice_index text.now start ≡ 47 }
    requires second { slice_index text.now (start + 1) ≡ 47 }
    ensures further { start < result.1 }
    ensures within { result.1 ≤ length text.now }
    ensures lexeme { IsLexeme text.now result.0 start result.1 }
{
    let end = line_end(text, start + 2);
    let third = byte_at(text, start + 2);
    if third == b'!' {
        (TokenClass::GrammarDoc, end)
    } else if third != b'/' {
        (TokenClass::Comment, end)
    } else if byte_at(text, start + 3) == b'/' {
        (TokenClass::Comment, end)
    } else {
        (TokenClass::Doc, end)
    }
}
