//! Hints outside of bodies: at names, assignments, braces and comments.
use crate::foreign::{at_control, at_first};
use crate::help::{Remedy, replace, say};
use crate::mistakes::OuterMistake;
use lint_lexemes::{Lexeme, LexemeClass, Site, byte_at, ends_term, is_sign};
use std::alloc::{AllocError, Global};

/// The remedy of an error outside of all brackets.
pub(crate) fn at_definition(alloc: Global, site: &Site<'_>) -> Result<Option<Remedy>, AllocError> {
    let here = site.here();
    match here.class {
        LexemeClass::GrammarDoc => late_doc(alloc, here),
        LexemeClass::Sign(byte) => at_outer_sign(alloc, site, here, byte),
        LexemeClass::Foreign => at_first(alloc, site, here),
        LexemeClass::Digits => Ok(say(OuterMistake::DigitFirst)),
        LexemeClass::Name => Ok(at_outer_name(site, here)),
        LexemeClass::Text | LexemeClass::Character | LexemeClass::Edge => Ok(lost_braces(site)),
        LexemeClass::OpenComment => Ok(say(OuterMistake::OpenComment)),
        _ => Ok(None),
    }
}

/// The remedy of a sign outside of all brackets.
fn at_outer_sign(
    alloc: Global,
    site: &Site<'_>,
    here: Lexeme,
    byte: u8,
) -> Result<Option<Remedy>, AllocError> {
    match byte {
        b'#' => at_hash(alloc, site, here),
        b'-' if is_adjacent(here, site.next_lexeme(1), b'-') => {
            line_comment(alloc, site, here, 2)
        }
        b';' if is_in_front(site, here) => line_comment(alloc, site, here, 1),
        b';' => replace(alloc, OuterMistake::Semicolon, here.start, here.end, ""),
        b',' => replace(alloc, OuterMistake::Comma, here.start, here.end, ""),
        b'=' if site.index == 0 => Ok(say(OuterMistake::NoName)),
        b':' | b'-' | b'<' | b'=' | b'>' => assignment(alloc, site, here),
        b'{' if site.previous_lexeme(1).class == LexemeClass::Name => {
            let at = site.previous_lexeme(1).end;
            replace(alloc, OuterMistake::Assignment, at, at, " =")
        }
        byte if byte.is_ascii_control() => at_control(alloc, here),
        _ => Ok(at_other_sign(site, here, byte)),
    }
}

/// The remedy of a sign outside of all brackets, which has no fix.
fn at_other_sign(site: &Site<'_>, here: Lexeme, byte: u8) -> Option<Remedy> {
    let after = site.next_lexeme(1);
    match byte {
        b'|' | b'~' => say(OuterMistake::SplitBody),
        b'@' | b'$' | b'!' => outer_modifier(site),
        b'(' if is_adjacent(here, after, b'*') => say(OuterMistake::EbnfComment),
        b'(' if site.previous_lexeme(1).class == LexemeClass::Name => {
            say(OuterMistake::Parameters)
        }
        b'(' | b'[' | b'^' | b'&' => lost_braces(site),
        b'*' if is_adjacent(here, after, b'/') => say(OuterMistake::ClosedComment),
        b'%' => say(OuterMistake::Directive),
        b'.' => say(OuterMistake::NameSign),
        b'}' => say(OuterMistake::ClosedBrace),
        _ => None,
    }
}

/// Whether a lexeme is this sign, and follows another without a blank.
fn is_adjacent(first: Lexeme, second: Lexeme, byte: u8) -> bool {
    is_sign(second, byte) && first.end == second.start
}

/// Whether a sign begins its line, and another lexeme follows it there.
fn is_in_front(site: &Site<'_>, here: Lexeme) -> bool {
    let after = site.next_lexeme(1);
    is_line_start(site.text.as_bytes(), here.start)
        && after.class != LexemeClass::Edge
        && !site.part(here.end, after.start).contains('\n')
}

/// The remedy of a hash: a comment, or a directive of another language.
fn at_hash(alloc: Global, site: &Site<'_>, here: Lexeme) -> Result<Option<Remedy>, AllocError> {
    if is_import(site, site.next_lexeme(1)) {
        return Ok(say(OuterMistake::Import));
    }
    line_comment(alloc, site, here, 1)
}

/// Whether a lexeme is the word for an import of other notations.
fn is_import(site: &Site<'_>, lexeme: Lexeme) -> bool {
    matches!(site.text_of(lexeme), "import" | "include" | "use")
}

/// The remedy for a comment that begins with `length` other signs. If they are at the start of a line, they
/// are replaced.
fn line_comment(
    alloc: Global,
    site: &Site<'_>,
    here: Lexeme,
    length: usize,
) -> Result<Option<Remedy>, AllocError> {
    let end = here.start.saturating_add(length);
    if !is_line_start(site.text.as_bytes(), here.start) {
        return Ok(say(OuterMistake::CommentSign));
    }
    replace(alloc, OuterMistake::CommentSign, here.start, end, "//")
}

/// Whether only blanks are before a byte in its line.
fn is_line_start(bytes: &[u8], start: usize) -> bool {
    let mut is_start = true;
    for at in 0..start {
        match byte_at(bytes, at) {
            b'\n' => is_start = true,
            b' ' | b'\t' | b'\r' => {}
            _ => is_start = false,
        }
    }
    is_start
}

/// The remedy of another sign than `=` after a rule's name, as `:=`, `::=`, `->` and `=>`.
fn assignment(alloc: Global, site: &Site<'_>, here: Lexeme) -> Result<Option<Remedy>, AllocError> {
    if is_dash_in_name(site, here) {
        return dash_in_name(alloc, site);
    }
    if is_sign(here, b'<') && site.next_lexeme(1).class == LexemeClass::Name {
        return Ok(say(OuterMistake::AngleBrackets));
    }
    let previous = site.previous_lexeme(1);
    let first = if is_sign(previous, b'=') {
        previous
    } else if previous.class == LexemeClass::Name {
        here
    } else {
        return Ok(say(OuterMistake::Assignment));
    };
    let end = signs_end(site.text.as_bytes(), here.start);
    replace(alloc, OuterMistake::Assignment, first.start, end, "=")
}

/// The byte after the signs of an assignment.
fn signs_end(bytes: &[u8], start: usize) -> usize {
    for at in start..bytes.len() {
        if !matches!(byte_at(bytes, at), b':' | b'=' | b'-' | b'<' | b'>') {
            return at;
        }
    }
    bytes.len()
}

/// Whether a dash is between two parts of a name, without a blank.
fn is_dash_in_name(site: &Site<'_>, here: Lexeme) -> bool {
    let before = site.previous_lexeme(1);
    let after = site.next_lexeme(1);
    is_sign(here, b'-')
        && before.class == LexemeClass::Name
        && before.end == here.start
        && matches!(after.class, LexemeClass::Name | LexemeClass::Digits)
        && after.start == here.end
}

/// The remedy of a name with dashes, up to its end.
fn dash_in_name(alloc: Global, site: &Site<'_>) -> Result<Option<Remedy>, AllocError> {
    let first = site.previous_lexeme(1);
    let end = dashed_end(site.text.as_bytes(), first.start);
    let name = site.part(first.start, end).replace(alloc, "-", "_")?;
    replace(
        alloc,
        OuterMistake::NameSign,
        first.start,
        end,
        name.as_str(),
    )
}

/// The byte after a name that may have dashes.
fn dashed_end(bytes: &[u8], start: usize) -> usize {
    for at in start..bytes.len() {
        let byte = byte_at(bytes, at);
        if !byte.is_ascii_alphanumeric() && byte != b'_' && byte != b'-' {
            return at;
        }
    }
    bytes.len()
}

/// The remedy of a modifier before a name or after a body.
fn outer_modifier(site: &Site<'_>) -> Option<Remedy> {
    if is_import(site, site.previous_lexeme(1)) {
        return say(OuterMistake::Import);
    }
    if is_sign(site.previous_lexeme(1), b'=') {
        return lost_braces(site);
    }
    if is_sign(site.previous_lexeme(2), b'=') {
        return say(OuterMistake::TwoModifiers);
    }
    say(OuterMistake::OuterModifier)
}

/// The remedy of a name outside of all brackets.
fn at_outer_name(site: &Site<'_>, here: Lexeme) -> Option<Remedy> {
    if follows_equals(site) {
        return lost_braces(site);
    }
    if site.text_of(here).starts_with("PUSH") {
        return say(OuterMistake::PushName);
    }
    if site.previous_lexeme(1).class == LexemeClass::Name {
        return say(OuterMistake::WordBefore);
    }
    None
}

/// Whether an equals sign is right before the error, or a modifier that follows one.
fn follows_equals(site: &Site<'_>) -> bool {
    let before = site.previous_lexeme(1);
    is_sign(before, b'=') || is_modifier(site, before) && is_sign(site.previous_lexeme(2), b'=')
}

/// Whether a lexeme is a modifier.
fn is_modifier(site: &Site<'_>, lexeme: Lexeme) -> bool {
    matches!(site.text_of(lexeme), "_" | "@" | "$" | "!")
}

/// The remedy of a body that is not in braces, or of a name that no rule follows.
fn lost_braces(site: &Site<'_>) -> Option<Remedy> {
    let before = site.previous_lexeme(1);
    if is_import(site, before) {
        return say(OuterMistake::Import);
    }
    if site.here().class == LexemeClass::Text && is_sign(site.next_lexeme(1), b'=') {
        return say(OuterMistake::QuotedName);
    }
    if follows_equals(site) {
        return say(OuterMistake::NoBraces);
    }
    if before.class == LexemeClass::Name {
        return say(OuterMistake::Assignment);
    }
    if site.here().class == LexemeClass::Edge {
        return None;
    }
    say(OuterMistake::NoName)
}

/// The remedy of a comment of the grammar that is not before its first rule.
pub(crate) fn late_doc(alloc: Global, here: Lexeme) -> Result<Option<Remedy>, AllocError> {
    let end = here.start.saturating_add(3);
    replace(alloc, OuterMistake::LateDoc, here.start, end, "//")
}

/// The remedy of a comment of a rule that is in its body.
pub(crate) fn inner_doc(alloc: Global, site: &Site<'_>) -> Result<Option<Remedy>, AllocError> {
    let end = site.position.saturating_add(3);
    replace(alloc, OuterMistake::InnerDoc, site.position, end, "//")
}

/// Whether a comment of a rule begins at the error.
pub(crate) fn starts_doc(site: &Site<'_>) -> bool {
    site.part(site.position, site.position.saturating_add(3)) == "///"
}

/// The remedy for a rule that begins before the last one is closed.
pub(crate) fn before_rule(alloc: Global, site: &Site<'_>) -> Result<Option<Remedy>, AllocError> {
    let last = site.previous_lexeme(1);
    if site.is_within(b'{') && site.open.len() == 1 && ends_term(last) {
        return replace(alloc, OuterMistake::OpenRule, last.end, last.end, " }");
    }
    Ok(say(OuterMistake::OpenBracket))
}
