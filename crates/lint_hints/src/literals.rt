//! Hints at literals.
use crate::help::{Remedy, replace, say};
use crate::mistakes::LiteralMistake;
use lint_lexemes::{Lexeme, LexemeClass, Site, is_sign};
use std::alloc::{AllocError, Global};

/// The string, character or comment that is left open at the error.
pub(crate) fn open_literal(site: &Site<'_>) -> Option<Lexeme> {
    let here = site.here();
    match here.class {
        LexemeClass::OpenText | LexemeClass::OpenComment => Some(here),
        LexemeClass::Edge => {
            let last = site.previous_lexeme(1);
            match last.class {
                LexemeClass::OpenText | LexemeClass::OpenComment => Some(last),
                _ => None,
            }
        }
        _ => None,
    }
}

/// The remedy of an error in a string: an unknown escape.
pub(crate) fn in_text(site: &Site<'_>, here: Lexeme) -> Option<Remedy> {
    let at = escape_at(site, here)?;
    escape_remedy(site.byte(at.saturating_add(1)))
}

/// The byte of the backslash of the escape in which the error is.
fn escape_at(site: &Site<'_>, here: Lexeme) -> Option<usize> {
    let mut found = None;
    let mut next = here.start;
    for at in here.start..site.position.saturating_add(1) {
        let byte = site.byte(at);
        if at < next {
            continue;
        }
        if byte == b'\\' {
            found = Some(at);
            next = at.saturating_add(2);
        } else if !matches!(byte, b'{' | b'}') && !byte.is_ascii_hexdigit() {
            found = None;
        }
    }
    found
}

/// The remedy of an escape that is none, by the byte after its backslash.
fn escape_remedy(byte: u8) -> Option<Remedy> {
    match byte {
        b'x' => say(LiteralMistake::HexEscape),
        b'u' => say(LiteralMistake::UnicodeEscape),
        _ => say(LiteralMistake::UnknownEscape),
    }
}

/// The remedy of an error in single quotes: several characters, or an unknown escape.
pub(crate) fn in_character(
    alloc: Global,
    site: &Site<'_>,
    here: Lexeme,
) -> Result<Option<Remedy>, AllocError> {
    let first = here.start.saturating_add(1);
    if site.position == first && site.byte(first) == b'\\' {
        return Ok(escape_remedy(site.byte(first.saturating_add(1))));
    }
    if is_sign(site.next_lexeme(1), b'.') || is_sign(site.previous_lexeme(1), b'.') {
        return Ok(say(LiteralMistake::LongBound));
    }
    double_quotes(alloc, site, here, LiteralMistake::SingleQuotes)
}

/// A remedy that puts what is in single quotes in double quotes.
fn double_quotes(
    alloc: Global,
    site: &Site<'_>,
    quoted: Lexeme,
    mistake: LiteralMistake,
) -> Result<Option<Remedy>, AllocError> {
    let inner = inner_of(site, quoted);
    if inner == "\"" {
        return replace(alloc, mistake, quoted.start, quoted.end, "\"\\\"\"");
    }
    if inner.contains('"') {
        return Ok(say(mistake));
    }
    let text = format!(in alloc; "\"{inner}\"")?;
    replace(alloc, mistake, quoted.start, quoted.end, text.as_str())
}

/// The text in the quotes of a literal.
pub(crate) fn inner_of<'t>(site: &Site<'t>, quoted: Lexeme) -> &'t str {
    site.part(quoted.start.saturating_add(1), quoted.end.saturating_sub(1))
}

/// The remedy of single quotes where an expression or an operator is expected.
pub(crate) fn at_character(
    alloc: Global,
    site: &Site<'_>,
    here: Lexeme,
) -> Result<Option<Remedy>, AllocError> {
    if is_open(here) {
        return Ok(say(LiteralMistake::OpenCharacter));
    }
    if is_sign(site.previous_lexeme(1), b'^') {
        if is_sign(site.next_lexeme(1), b'.') {
            return Ok(say(LiteralMistake::CaretRange));
        }
        return double_quotes(alloc, site, here, LiteralMistake::SingleQuotes);
    }
    crate::terms::at_term(alloc, site)
}

/// The remedy of a character in single quotes that is before the error, if no range goes on.
pub(crate) fn after_character(
    alloc: Global,
    site: &Site<'_>,
) -> Result<Option<Remedy>, AllocError> {
    let character = site.previous_lexeme(1);
    if is_open(character) || is_open(site.previous_lexeme(2)) {
        return Ok(say(LiteralMistake::OpenCharacter));
    }
    if character.class != LexemeClass::Character || is_sign(site.previous_lexeme(2), b'.') {
        return Ok(None);
    }
    double_quotes(alloc, site, character, LiteralMistake::LoneCharacter)
}

/// Whether a lexeme is a single quote that no other closes.
fn is_open(lexeme: Lexeme) -> bool {
    lexeme.class == LexemeClass::OpenCharacter
}

/// The remedy of a range whose bounds are strings or names: the two dots are at the error, or before it.
pub(crate) fn range_of_strings(
    alloc: Global,
    site: &Site<'_>,
    first: Lexeme,
    last: Lexeme,
) -> Result<Option<Remedy>, AllocError> {
    let low = bound_of(site, first);
    let high = bound_of(site, last);
    if !is_bound(low) || !is_bound(high) {
        return Ok(say(LiteralMistake::QuotedBounds));
    }
    let text = format!(in alloc; "'{low}'..'{high}'")?;
    replace(
        alloc,
        LiteralMistake::QuotedBounds,
        first.start,
        last.end,
        text.as_str(),
    )
}

/// The text of a bound, without its quotes.
pub(crate) fn bound_of<'t>(site: &Site<'t>, bound: Lexeme) -> &'t str {
    match bound.class {
        LexemeClass::Text | LexemeClass::Character => inner_of(site, bound),
        _ => site.text_of(bound),
    }
}

/// Whether a text is one character that needs no escape.
pub(crate) fn is_bound(text: &str) -> bool {
    let mut characters = text.chars();
    match (characters.next(), characters.next()) {
        (Some(c), None) => c != '\'' && c != '\\',
        _ => false,
    }
}
