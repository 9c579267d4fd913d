//! Strings that fixes keep.
use lint_hints::Fix;
use lint_lexemes::{Lexeme, LexemeClass, lexemes};
use std::alloc::{AllocError, Global};

/// Strings and characters of a text: those before a part of it, in it, and after it.
#[derive(Drop)]
struct Literals {
    before: Vec<Lexeme>,
    inside: Vec<Lexeme>,
    after: Vec<Lexeme>,
}

/// Whether a fix that makes `next` of a text splits, joins and drops no string and no character: those
/// before and after the fixed part are the same, those in it say the same, and nothing is written between a
/// quote and what touches it. The time is linear in the texts.
pub(crate) fn keeps_literals(
    alloc: Global,
    text: &str,
    fix: &Fix,
    next: &str,
) -> Result<bool, AllocError> {
    let all = lexemes(alloc, text)?;
    if fix.start == fix.end && has_touching_quote(&all, fix.start) {
        return Ok(false);
    }
    let written = fix.start.saturating_add(fix.replacement.as_str().len());
    let old = literals_around(alloc, &all, fix.start, fix.end)?;
    let changed = lexemes(alloc, next)?;
    let new = literals_around(alloc, &changed, fix.start, written)?;
    Ok(
        are_same(text, &old.before, next, &new.before)
            && are_same(text, &old.after, next, &new.after)
            && (old.inside.is_empty() || say_same(text, &old.inside, next, &new.inside)),
    )
}

/// The strings and characters among lexemes, around the bytes `start..end`.
fn literals_around(
    alloc: Global,
    lexemes: &[Lexeme],
    start: usize,
    end: usize,
) -> Result<Literals, AllocError> {
    let mut literals = Literals {
        before: Vec::new(alloc),
        inside: Vec::new(alloc),
        after: Vec::new(alloc),
    };
    for lexeme in lexemes {
        if !is_quoted(*lexeme) {
            continue;
        }
        if lexeme.end <= start {
            literals.before.push(*lexeme)?;
        } else if lexeme.start >= end {
            literals.after.push(*lexeme)?;
        } else {
            literals.inside.push(*lexeme)?;
        }
    }
    Ok(literals)
}

/// Whether a lexeme is a string or a character, closed or not.
fn is_quoted(lexeme: Lexeme) -> bool {
    matches!(
        lexeme.class,
        LexemeClass::Text
            | LexemeClass::OpenText
            | LexemeClass::Character
            | LexemeClass::OpenCharacter
    )
}

/// Whether a quote and another word or quote touch at a byte.
fn has_touching_quote(lexemes: &[Lexeme], at: usize) -> bool {
    let first = lexemes.partition_point(|lexeme| lexeme.end < at);
    let (Some(before), Some(after)) = (lexemes.get(first), lexemes.get(first.saturating_add(1)))
    else {
        return false;
    };
    let touch = before.end == at && after.start == at;
    touch && is_word(*before) && is_word(*after) && (is_quoted(*before) || is_quoted(*after))
}

/// Whether a lexeme is a name, a number, a string or a character.
fn is_word(lexeme: Lexeme) -> bool {
    is_quoted(lexeme) || matches!(lexeme.class, LexemeClass::Name | LexemeClass::Digits)
}

/// Whether lexemes of two texts have the same bytes.
fn are_same(text: &str, lexemes: &[Lexeme], next: &str, others: &[Lexeme]) -> bool {
    for (lexeme, other) in lexemes.iter().zip(others.iter()) {
        if bytes_of(text, *lexeme) != bytes_of(next, *other) {
            return false;
        }
    }
    lexemes.len() == others.len()
}

/// Whether lexemes of two texts have the same bytes between their quotes.
fn say_same(text: &str, lexemes: &[Lexeme], next: &str, others: &[Lexeme]) -> bool {
    for (lexeme, other) in lexemes.iter().zip(others.iter()) {
        if inner_of(text, *lexeme) != inner_of(next, *other) {
            return false;
        }
    }
    lexemes.len() == others.len()
}

/// The text of a lexeme.
fn bytes_of<'t>(text: &'t str, lexeme: Lexeme) -> &'t str {
    text.get(lexeme.start..lexeme.end).unwrap_or("")
}

/// The text between the quotes of a lexeme, if one double quote has no escape.
fn inner_of<'t>(text: &'t str, lexeme: Lexeme) -> &'t str {
    let start = lexeme.start.saturating_add(1);
    let inner = text.get(start..lexeme.end.saturating_sub(1)).unwrap_or("");
    if inner == "\\\"" { "\"" } else { inner }
}
