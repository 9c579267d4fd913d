//! The lexemes around an error.
ghost use Rattle.std.specs.Prelude.{◌≡◌, ◌≤◌, ◌==◌, ◌&&◌, [], IfOk, OnOk, length, nat_lt};
ghost use Rattle.std.specs.Prelude.{slice_index_or, take};
ghost use Rattle.lint_lexemes.specs.Lexemes as spec;
ghost use Rattle.lint_lexemes.specs.Lexemes.{AreInOrder, IsPart, lexeme_at};

use crate::lexer::{Lexeme, LexemeClass, byte_at, lexemes};
use std::alloc::{AllocError, Global};

/// The position of an error in a text, among its lexemes.
#[derive(Drop)]
pub struct Site<'t> {
    pub text: &'t str,
    /// The byte of the error.
    pub position: usize,
    pub lexemes: Vec<Lexeme>,
    /// The index of the lexeme in which the error is, or else of the next one.
    pub index: usize,
    /// The brackets that are open before the error, outermost first.
    pub open: Vec<Lexeme>,
}

impl<'t> Site<'t> {
    /// The position of a byte of a text.
    pub fn new(alloc: Global, text: &'t str, position: usize) -> Result<Site<'t>, AllocError>
        ensures text { IfOk result (λ site. site.text.now ≡ text.entry.now) }
        ensures position { IfOk result (λ site. site.position ≡ position) }
        ensures ordered { IfOk result (λ site. AreInOrder 0 site.lexemes.items (length text.entry.now)) }
        ensures index { IfOk result (λ site. site.index ≡ spec.index_at position site.lexemes.items) }
        ensures open { IfOk result (λ site.
            site.open.items ≡ spec.open_in [] (take site.index site.lexemes.items)) }
    {
        let lexemes = lexemes(alloc, text)?;
        let index = index_at(&lexemes, position);
        let open = open_in(alloc, &lexemes[..index])?;
        Ok(Site {
            text,
            position,
            lexemes,
            index,
            open,
        })
    }

    /// The lexeme of the error.
    pub fn here(&self) -> Lexeme
        ensures { result ≡ lexeme_at self.now.lexemes.items self.now.index (length self.now.text.now) }
    {
        self.lexeme(self.index)
    }

    /// The `count`th lexeme after that of the error.
    pub fn next_lexeme(&self, count: usize) -> Lexeme
        ensures { result ≡ spec.lexeme_after self.now count }
    {
        self.lexeme(self.index.saturating_add(count))
    }

    /// The `count`th lexeme before that of the error.
    pub fn previous_lexeme(&self, count: usize) -> Lexeme
        ensures { result ≡ spec.lexeme_before self.now count }
    {
        if count > self.index {
            return edge(0);
        }
        self.lexeme(self.index - count)
    }

    /// The lexeme of an index, or the edge at the text's end.
    fn lexeme(&self, index: usize) -> Lexeme
        ensures { result ≡ lexeme_at self.now.lexemes.items index (length self.now.text.now) }
    {
        match self.lexemes.get(index) {
            Some(lexeme) => *lexeme,
            None => edge(self.text.len()),
        }
    }

    /// The text of a lexeme.
    pub fn text_of(&self, lexeme: Lexeme) -> &'t str
        ensures { IsPart self.entry.now.text.now lexeme.start lexeme.end result.now }
    {
        self.part(lexeme.start, lexeme.end)
    }

    /// The bytes `start..end` of the text, or nothing if these are not characters.
    pub fn part(&self, start: usize, end: usize) -> &'t str
        ensures { IsPart self.entry.now.text.now start end result.now }
    {
        self.text.get(start..end).unwrap_or("")
    }

    /// The byte at a position, or 0 after the last.
    pub fn byte(&self, at: usize) -> u8
        ensures { result ≡ slice_index_or self.now.text.now at 0 }
    {
        byte_at(self.text.as_bytes(), at)
    }

    /// The innermost bracket that is open before the error.
    pub fn innermost(&self) -> Option<Lexeme>
        ensures { result ≡ spec.innermost self.now }
    {
        self.open.last().copied()
    }

    /// Whether the innermost open bracket is this one.
    pub fn is_within(&self, bracket: u8) -> bool
        ensures { result ≡ spec.is_bracket bracket (spec.innermost self.now) }
    {
        match self.innermost() {
            Some(lexeme) => is_sign(lexeme, bracket),
            None => false,
        }
    }

    /// Whether the error is in the braces of a count: the innermost ones, in those of a body.
    pub fn is_in_count(&self) -> bool
        ensures { result ≡ (nat_lt 1 (length self.now.open.items)
            && spec.is_bracket 123 (spec.innermost self.now)) }
    {
        self.open.len() > 1 && self.is_within(b'{')
    }

    /// Whether a rule begins at the error: a name and a single `=`, which is no tag.
    pub fn starts_rule(&self) -> bool
        ensures { result ≡ spec.starts_rule self.now }
    {
        self.here().class.is_name()
            && is_sign(self.next_lexeme(1), b'=')
            && !is_sign(self.previous_lexeme(1), b'#')
    }

    /// The innermost bracket that the error shows to be unclosed: a rule begins, the text ends, or another
    /// bracket is closed.
    pub fn unclosed_bracket(&self) -> Option<Lexeme>
        ensures { result ≡ spec.unclosed_bracket self.now }
    {
        let bracket = self.innermost()?;
        if self.is_unclosed(bracket) {
            Some(bracket)
        } else {
            None
        }
    }

    /// Whether the error shows that a bracket before it is not closed.
    fn is_unclosed(&self, bracket: Lexeme) -> bool
        ensures { result ≡ spec.is_unclosed self.now bracket }
    {
        let here = self.here();
        here.class.is_edge()
            || is_sign(here, b'=')
            || is_sign(here, b'}') && !is_sign(bracket, b'{')
            || self.starts_rule()
    }

    /// Whether the error is outside of all brackets.
    pub fn is_outside(&self) -> bool
        ensures { result ≡ (length self.now.open.items == 0) }
    {
        self.open.is_empty()
    }
}

/// No lexeme, at a byte.
fn edge(at: usize) -> Lexeme
    ensures { result ≡ spec.edge at }
{
    Lexeme {
        class: LexemeClass::Edge,
        start: at,
        end: at,
    }
}

/// The index of the first lexeme that ends after a byte, or how many there are.
fn index_at(lexemes: &[Lexeme], position: usize) -> usize
    ensures index { result ≡ spec.index_at position lexemes.now }
    ensures within { result ≤ length lexemes.now }
{
    let mut index = 0usize;
    let mut rest = lexemes;
    while let Some((lexeme, after)) = rest.split_first() {
        if position < lexeme.end {
            return index;
        }
        index += 1;
        rest = after;
    }
    index
}

/// The brackets that are open after some lexemes, outermost first.
fn open_in(alloc: Global, lexemes: &[Lexeme]) -> Result<Vec<Lexeme>, AllocError>
    ensures { IfOk result (λ brackets. brackets.items ≡ spec.open_in [] lexemes.now) }
{
    let mut brackets = Vec::new(alloc);
    let mut rest = lexemes;
    while let Some((lexeme, after)) = rest.split_first() {
        change_open(*lexeme, &mut brackets)?;
        rest = after;
    }
    Ok(brackets)
}

/// Adds a bracket that opens, or takes the innermost away if one closes.
fn change_open(lexeme: Lexeme, brackets: &mut Vec<Lexeme>) -> Result<(), AllocError>
    ensures { OnOk result (brackets.new.items ≡ spec.open_after brackets.old.items lexeme) }
{
    if is_opening(lexeme) {
        brackets.push(lexeme)?;
    } else if is_closing(lexeme) {
        let _ = brackets.pop();
    }
    Ok(())
}

/// Whether a lexeme opens a bracket.
fn is_opening(lexeme: Lexeme) -> bool
    ensures { result ≡ spec.is_opening lexeme.class }
{
    is_sign(lexeme, b'(') || is_sign(lexeme, b'[') || is_sign(lexeme, b'{')
}

/// Whether a lexeme closes a bracket.
fn is_closing(lexeme: Lexeme) -> bool
    ensures { result ≡ spec.is_closing lexeme.class }
{
    is_sign(lexeme, b')') || is_sign(lexeme, b']') || is_sign(lexeme, b'}')
}

/// Whether an expression may end with a lexeme.
pub fn ends_term(lexeme: Lexeme) -> bool
    ensures { result ≡ spec.ends_term lexeme.class }
{
    match lexeme.class {
        LexemeClass::Name | LexemeClass::Text | LexemeClass::Character => true,
        LexemeClass::Sign(byte) => matches!(byte, b')' | b']' | b'}' | b'*' | b'+' | b'?'),
        _ => false,
    }
}

/// Whether an expression may begin with a lexeme.
pub fn starts_term(lexeme: Lexeme) -> bool
    ensures { result ≡ spec.starts_term lexeme.class }
{
    match lexeme.class {
        LexemeClass::Name | LexemeClass::Text | LexemeClass::OpenText => true,
        LexemeClass::Character => true,
        LexemeClass::Sign(byte) => matches!(byte, b'(' | b'^' | b'!' | b'&'),
        _ => false,
    }
}

/// Whether a lexeme is this ASCII character.
pub fn is_sign(lexeme: Lexeme, byte: u8) -> bool
    ensures { result ≡ spec.is_sign byte lexeme.class }
{
    match lexeme.class {
        LexemeClass::Sign(sign) => sign == byte,
        _ => false,
    }
}
