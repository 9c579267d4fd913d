//! Hints at characters that no part of a grammar has.
use crate::help::{Remedy, replace, say};
use crate::mistakes::ForeignMistake;
use lint_lexemes::{Lexeme, Site};
use std::alloc::{AllocError, Global};

/// A remedy that puts a text in the place of a lexeme.
fn fix_foreign(
    alloc: Global,
    mistake: ForeignMistake,
    here: Lexeme,
    replacement: &str,
) -> Result<Option<Remedy>, AllocError> {
    replace(alloc, mistake, here.start, here.end, replacement)
}

/// The remedy of a byte order mark at the start of the text, or of other characters beyond ASCII.
pub(crate) fn at_first(
    alloc: Global,
    site: &Site<'_>,
    here: Lexeme,
) -> Result<Option<Remedy>, AllocError> {
    if here.start == 0 && site.text_of(here).starts_with('\u{feff}') {
        let mark = Lexeme { end: 3, ..here };
        return fix_foreign(alloc, ForeignMistake::ByteOrderMark, mark, "");
    }
    at_foreign(alloc, site, here)
}

/// The remedy of characters beyond ASCII: a blank, a sign, or part of a name.
pub(crate) fn at_foreign(
    alloc: Global,
    site: &Site<'_>,
    here: Lexeme,
) -> Result<Option<Remedy>, AllocError> {
    let mut characters = site.text_of(here).chars();
    let Some(first) = characters.next() else {
        return Ok(None);
    };
    let mistake = mistake_of(first);
    match (characters.next(), replacement_of(first)) {
        (None, Some(replacement)) => fix_foreign(alloc, mistake, here, replacement),
        _ => Ok(say(mistake)),
    }
}

/// The mistake of a character beyond ASCII.
fn mistake_of(c: char) -> ForeignMistake {
    match c {
        '\u{a0}' | '\u{2000}'..='\u{200a}' | '\u{202f}' | '\u{205f}' | '\u{3000}' => {
            ForeignMistake::Blank
        }
        '\u{85}' | '\u{2028}' | '\u{2029}' => ForeignMistake::Blank,
        '\u{ad}' | '\u{200b}'..='\u{200f}' | '\u{2060}' | '\u{feff}' => {
            ForeignMistake::Invisible
        }
        '\u{2010}'..='\u{2015}' | '\u{2212}' => ForeignMistake::Dash,
        '\u{2018}'..='\u{201f}' | '\u{ab}' | '\u{bb}' => ForeignMistake::Quotes,
        '\u{2026}' => ForeignMistake::Ellipsis,
        c if c.is_alphanumeric() => ForeignMistake::Letter,
        _ => ForeignMistake::Sign,
    }
}

/// The text that a character beyond ASCII stands for, if that is definite.
fn replacement_of(c: char) -> Option<&'static str> {
    match mistake_of(c) {
        ForeignMistake::Blank if matches!(c, '\u{85}' | '\u{2028}' | '\u{2029}') => Some("\n"),
        ForeignMistake::Blank => Some(" "),
        ForeignMistake::Invisible => Some(""),
        ForeignMistake::Ellipsis => Some(".."),
        _ => None,
    }
}

/// The remedy of an ASCII control character.
pub(crate) fn at_control(alloc: Global, here: Lexeme) -> Result<Option<Remedy>, AllocError> {
    fix_foreign(alloc, ForeignMistake::Control, here, "")
}
