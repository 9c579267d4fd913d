//! Classes of characters: the choices that they stand for.
use front_names::CharSet;
use lint_lexemes::Site;
use std::alloc::{AllocError, Global};

/// An expression for a class of characters, and the byte after the class.
#[derive(Drop)]
pub(crate) struct CharacterClass {
    pub text: String,
    pub end: usize,
}

/// The alternatives of a class that were read, and how many there are.
#[derive(Drop)]
struct ClassChoice {
    text: String,
    count: usize,
    /// A range, an escape, or only signs show that this is no option in brackets.
    is_certain: bool,
    /// The byte of the closing bracket.
    end: usize,
}

/// A character of a class, or a set with a name.
#[derive(Clone, Copy)]
struct ClassItem<'t> {
    /// The character as strings and ranges spell it, or the expression of the set.
    text: &'t str,
    /// The character; none for a set.
    character: Option<char>,
    is_escape: bool,
    /// The byte after it.
    end: usize,
}

/// An alternative of a class: the byte after it, and whether only a class has it.
#[derive(Drop)]
struct ClassPart {
    text: String,
    is_certain: bool,
    end: usize,
}

/// Reads the class of characters whose opening bracket is at a byte. There is none if the brackets may be
/// those of an option, or if the class has no expression.
pub(crate) fn class_at(
    alloc: Global,
    site: &Site<'_>,
    bracket: usize,
) -> Result<Option<CharacterClass>, AllocError> {
    let first = bracket.saturating_add(1);
    let is_negated = site.byte(first) == b'^';
    let start = first.saturating_add(usize::from(is_negated));
    let Some(choice) = read_choice(alloc, site, start, is_negated)? else {
        return Ok(None);
    };
    let end = choice.end.saturating_add(1);
    let alternatives = choice.text.as_str();
    let any = CharSet::Any.name();
    let text = match (is_negated, choice.count) {
        (false, _) => format!(in alloc; "({alternatives})")?,
        (true, 1) => format!(in alloc; "(!{alternatives} ~ {any})")?,
        (true, _) => format!(in alloc; "(!({alternatives}) ~ {any})")?,
    };
    Ok(Some(CharacterClass { text, end }))
}

/// Reads the alternatives of a class from a byte to its closing bracket.
fn read_choice(
    alloc: Global,
    site: &Site<'_>,
    start: usize,
    is_negated: bool,
) -> Result<Option<ClassChoice>, AllocError> {
    let mut choice = ClassChoice {
        text: String::new(alloc),
        count: 0,
        is_certain: is_negated || !has_name_character(site, start),
        end: start,
    };
    for _ in start..site.text.len() {
        if site.byte(choice.end) == b']' {
            let is_class = choice.is_certain && choice.count > 0;
            return Ok(if is_class { Some(choice) } else { None });
        }
        let Some(part) = part_at(alloc, site, choice.end, is_negated)? else {
            return Ok(None);
        };
        push_part(&part, &mut choice)?;
    }
    Ok(None)
}

/// Adds an alternative.
fn push_part(part: &ClassPart, choice: &mut ClassChoice) -> Result<(), AllocError> {
    if choice.count > 0 {
        choice.text.push_str(" | ")?;
    }
    choice.text.push_str(part.text.as_str())?;
    let count = if part.text.as_str().contains(" | ") {
        2
    } else {
        1
    };
    choice.count = choice.count.saturating_add(count);
    choice.is_certain = choice.is_certain || part.is_certain;
    choice.end = part.end;
    Ok(())
}

/// Whether a letter, a digit or `_` is between a byte and the next closing bracket.
fn has_name_character(site: &Site<'_>, start: usize) -> bool {
    for at in start..site.text.len() {
        let byte = site.byte(at);
        if byte == b']' {
            return false;
        }
        if byte.is_ascii_alphanumeric() || byte == b'_' {
            return true;
        }
    }
    false
}

/// Reads the character, the set or the range at a byte of a class.
fn part_at(
    alloc: Global,
    site: &Site<'_>,
    at: usize,
    is_negated: bool,
) -> Result<Option<ClassPart>, AllocError> {
    let Some(low) = item_at(site, at, is_negated) else {
        return Ok(None);
    };
    let dash = low.end.saturating_add(1);
    if site.byte(low.end) == b'-' && site.byte(dash) != b']' {
        return range_part(alloc, low, item_at(site, dash, is_negated));
    }
    let text = match low.character {
        Some(_) => format!(in alloc; "\"{}\"", low.text)?,
        None => String::from_str(alloc, low.text)?,
    };
    Ok(Some(ClassPart {
        text,
        is_certain: low.is_escape,
        end: low.end,
    }))
}

/// A range between two characters; none between sets, or from a greater character to a less one.
fn range_part(
    alloc: Global,
    low: ClassItem<'_>,
    high: Option<ClassItem<'_>>,
) -> Result<Option<ClassPart>, AllocError> {
    let Some(high) = high else {
        return Ok(None);
    };
    match (low.character, high.character) {
        (Some(first), Some(last)) if first <= last => {
            let text = format!(in alloc; "'{}'..'{}'", low.text, high.text)?;
            Ok(Some(ClassPart {
                text,
                is_certain: true,
                end: high.end,
            }))
        }
        _ => Ok(None),
    }
}

/// Reads one character or set at a byte of a class.
fn item_at<'t>(site: &Site<'t>, at: usize, is_negated: bool) -> Option<ClassItem<'t>> {
    let character = site.text.get(at..)?.chars().next()?;
    let end = at.saturating_add(character.len_utf8());
    if character == '\\' {
        return escape_at(site, end);
    }
    let may_be_option = matches!(character, '"' | '\'' | ' ' | '|' | '~' | '(' | ')');
    if character.is_control() || may_be_option && !is_negated {
        return None;
    }
    let text = match character {
        '"' => "\\\"",
        '\'' => "\\'",
        _ => site.part(at, end),
    };
    Some(ClassItem {
        text,
        character: Some(character),
        is_escape: false,
        end,
    })
}

/// Reads what follows a backslash in a class, at a byte.
fn escape_at<'t>(site: &Site<'t>, at: usize) -> Option<ClassItem<'t>> {
    let end = at.saturating_add(1);
    let byte = site.byte(at);
    let (text, character) = match byte {
        b'd' => (CharSet::AsciiDigit.name(), None),
        b'w' => ("ASCII_ALPHANUMERIC | \"_\"", None),
        b's' => ("\" \" | \"\\t\" | NEWLINE", None),
        b'n' => ("\\n", Some('\n')),
        b'r' => ("\\r", Some('\r')),
        b't' => ("\\t", Some('\t')),
        b'\\' => ("\\\\", Some('\\')),
        b'"' => ("\\\"", Some('"')),
        b'\'' => ("\\'", Some('\'')),
        _ if byte.is_ascii_punctuation() => (site.part(at, end), Some(byte as char)),
        _ => return None,
    };
    Some(ClassItem {
        text,
        character,
        is_escape: true,
        end,
    })
}
