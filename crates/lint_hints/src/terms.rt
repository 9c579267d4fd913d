//! Hints in bodies: missing operators, operands and closing brackets.
use crate::help::{Remedy, replace, say};
use crate::literals::{after_character, inner_of, range_of_strings};
use crate::mistakes::{LiteralMistake, SignMistake, TermMistake};
use front_names::Builtin;
use lint_lexemes::{Lexeme, LexemeClass, Site, ends_term, is_sign};
use std::alloc::{AllocError, Global};

/// The remedy of an expression where none may begin.
pub(crate) fn at_term(alloc: Global, site: &Site<'_>) -> Result<Option<Remedy>, AllocError> {
    let before = site.previous_lexeme(1);
    if is_sign(before, b'.') && is_sign(site.previous_lexeme(2), b'.') {
        return range_of_strings(alloc, site, site.previous_lexeme(3), site.here());
    }
    if is_sign(before, b'^') {
        return Ok(say(TermMistake::Caret));
    }
    if let Some(remedy) = after_name(alloc, site)? {
        return Ok(Some(remedy));
    }
    if is_prefix(site, before, "i") {
        return replace(alloc, TermMistake::AnyCase, before.start, before.end, "^");
    }
    if let Some(mistake) = word_mistake(site) {
        return Ok(say(mistake));
    }
    if let Some(remedy) = after_character(alloc, site)? {
        return Ok(Some(remedy));
    }
    if site.here().class == LexemeClass::OpenText || touches_string(site, before) {
        return Ok(say(LiteralMistake::OpenString));
    }
    if !ends_term(before) {
        return Ok(None);
    }
    lost_tilde(alloc, site, before)
}

/// Whether a string ends right before a quote, a letter or a digit: then the quote that ends it may be one of
/// the text that was meant.
fn touches_string(site: &Site<'_>, before: Lexeme) -> bool {
    let here = site.here();
    let is_part = matches!(
        here.class,
        LexemeClass::Text | LexemeClass::Character | LexemeClass::Name | LexemeClass::Digits
    );
    before.class == LexemeClass::Text && before.end == here.start && is_part
}

/// The mistake that a word or a string around the error shows.
fn word_mistake(site: &Site<'_>) -> Option<TermMistake> {
    let before = site.previous_lexeme(1);
    if before.class == LexemeClass::Text && inner_of(site, before).contains('\n') {
        return Some(TermMistake::LostQuote);
    }
    if is_prefix(site, before, "r") {
        return Some(TermMistake::RawString);
    }
    match word_of(site, site.here()) {
        None => word_of(site, before),
        mistake => mistake,
    }
}

/// Whether this name is right before a string, as in other notations.
fn is_prefix(site: &Site<'_>, before: Lexeme, name: &str) -> bool {
    let here = site.here();
    here.class == LexemeClass::Text && before.end == here.start && site.text_of(before) == name
}

/// The mistake of a word that other notations have for an operator.
fn word_of(site: &Site<'_>, lexeme: Lexeme) -> Option<TermMistake> {
    match site.text_of(lexeme) {
        "or" | "and" | "not" | "OR" | "AND" | "NOT" => Some(TermMistake::Word),
        "except" | "but" | "without" => Some(TermMistake::Except),
        "to" => Some(TermMistake::WordRange),
        _ => None,
    }
}

/// The remedy of two expressions with no operator between them.
fn lost_tilde(
    alloc: Global,
    site: &Site<'_>,
    before: Lexeme,
) -> Result<Option<Remedy>, AllocError> {
    let here = site.here();
    if is_apart(site, before) {
        return Ok(say(TermMistake::Plus));
    }
    if before.class == LexemeClass::Name && before.end == here.start && is_sign(here, b'(') {
        return Ok(say(TermMistake::Arguments));
    }
    let tilde = if before.end == here.start {
        " ~ "
    } else {
        " ~"
    };
    replace(alloc, TermMistake::LostTilde, before.end, before.end, tilde)
}

/// Whether a postfix operator has blanks on both sides, as a binary one has.
fn is_apart(site: &Site<'_>, before: Lexeme) -> bool {
    let is_operator = is_sign(before, b'+') || is_sign(before, b'*') || is_sign(before, b'?');
    is_operator && site.previous_lexeme(2).end < before.start && before.end < site.here().start
}

/// The remedy if the name before the error says what was meant: a tag, a modifier, or a builtin that takes
/// parentheses or none.
fn after_name(alloc: Global, site: &Site<'_>) -> Result<Option<Remedy>, AllocError> {
    let before = site.previous_lexeme(1);
    if before.class != LexemeClass::Name {
        return Ok(None);
    }
    if is_sign(site.previous_lexeme(2), b'#') {
        return replace(alloc, TermMistake::TagSign, before.end, before.end, " =");
    }
    let is_first = is_sign(site.previous_lexeme(2), b'{') && is_sign(site.previous_lexeme(3), b'=');
    let is_called = is_sign(site.here(), b'(');
    match site.text_of(before) {
        "_" if is_first => late_modifier(alloc, site, before, "_{"),
        "push" if is_called => {
            replace(
                alloc,
                TermMistake::SmallPush,
                before.start,
                before.end,
                "PUSH",
            )
        }
        name => after_builtin(alloc, site, name, is_called),
    }
}

/// The remedy of a builtin of this name that is called with parentheses or without.
fn after_builtin(
    alloc: Global,
    site: &Site<'_>,
    name: &str,
    is_called: bool,
) -> Result<Option<Remedy>, AllocError> {
    match name {
        "PUSH" if !is_called => Ok(say(TermMistake::Push)),
        "PUSH_LITERAL" if !is_called => Ok(say(TermMistake::PushLiteral)),
        _ if is_called => match call_mistake(name) {
            Some(mistake) => called_builtin(alloc, site, mistake),
            None => Ok(None),
        },
        _ => Ok(None),
    }
}

/// The mistake of a builtin of this name that is called with parentheses.
fn call_mistake(name: &str) -> Option<TermMistake> {
    match Builtin::from_name(name)? {
        Builtin::Peek => Some(TermMistake::Peek),
        Builtin::Pop | Builtin::Drop | Builtin::PeekAll | Builtin::PopAll => Some(TermMistake::Pop),
        Builtin::Set(_) | Builtin::Soi | Builtin::Eoi | Builtin::Newline => None,
    }
}

/// The remedy of a builtin before parentheses at the error, which are taken away if they are empty.
fn called_builtin(
    alloc: Global,
    site: &Site<'_>,
    mistake: TermMistake,
) -> Result<Option<Remedy>, AllocError> {
    let close = site.next_lexeme(1);
    if !is_sign(close, b')') {
        return Ok(say(mistake));
    }
    replace(alloc, mistake, site.here().start, close.end, "")
}

/// The remedy of a modifier after the brace, which begins at the lexeme before it.
pub(crate) fn late_modifier(
    alloc: Global,
    site: &Site<'_>,
    sign: Lexeme,
    replacement: &str,
) -> Result<Option<Remedy>, AllocError> {
    let brace = site.open.last().copied().unwrap_or(sign);
    replace(
        alloc,
        TermMistake::LateModifier,
        brace.start,
        sign.end,
        replacement,
    )
}

/// The remedy of a name in a body.
pub(crate) fn at_name(
    alloc: Global,
    site: &Site<'_>,
    here: Lexeme,
) -> Result<Option<Remedy>, AllocError> {
    if has_dots(site) {
        return range_of_strings(alloc, site, here, site.next_lexeme(3));
    }
    let before = site.previous_lexeme(1);
    if site.text_of(here) == "i" && before.class == LexemeClass::Text && before.end == here.start {
        let text = format!(in alloc; "^{}", site.text_of(before))?;
        return replace(
            alloc,
            TermMistake::AnyCase,
            before.start,
            here.end,
            text.as_str(),
        );
    }
    if is_sign(before, b'(') && site.text_of(site.previous_lexeme(2)) == "PUSH_LITERAL" {
        return Ok(say(TermMistake::PushLiteral));
    }
    if site.text_of(here).starts_with("PUSH") && !ends_term(before) {
        return Ok(say(TermMistake::PushPrefix));
    }
    at_term(alloc, site)
}

/// Whether two dots are after the error.
fn has_dots(site: &Site<'_>) -> bool {
    is_sign(site.next_lexeme(1), b'.') && is_sign(site.next_lexeme(2), b'.')
}

/// The remedy of a number in a body: a bound of a range, or a count without braces.
pub(crate) fn at_digits(
    alloc: Global,
    site: &Site<'_>,
    here: Lexeme,
) -> Result<Option<Remedy>, AllocError> {
    let before = site.previous_lexeme(1);
    if has_dots(site) {
        return range_of_strings(alloc, site, here, site.next_lexeme(3));
    }
    if is_sign(before, b'^') {
        return Ok(say(TermMistake::Caret));
    }
    if is_sign(before, b'*') && ends_term(site.previous_lexeme(2)) {
        let text = format!(in alloc; "{{{}}}", site.text_of(here))?;
        return replace(
            alloc,
            TermMistake::EarlyCount,
            before.start,
            here.end,
            text.as_str(),
        );
    }
    Ok(say(TermMistake::EarlyCount))
}

/// The remedy of an error in the braces of a count: another sign between two numbers, or no count at all.
pub(crate) fn in_count(alloc: Global, site: &Site<'_>) -> Result<Option<Remedy>, AllocError> {
    let before = site.previous_lexeme(1);
    let after = site.next_lexeme(if has_other_dot(site) { 2 } else { 1 });
    let is_between = matches!(site.text_of(site.here()), "." | "-" | ":" | ";");
    if is_between && before.class == LexemeClass::Digits && after.class == LexemeClass::Digits {
        return replace(alloc, TermMistake::CountSign, before.end, after.start, ", ");
    }
    Ok(say(TermMistake::Count))
}

/// Whether two dots are at the error.
fn has_other_dot(site: &Site<'_>) -> bool {
    is_sign(site.here(), b'.') && is_sign(site.next_lexeme(1), b'.')
}

/// The remedy at the end of the text, if brackets are open.
pub(crate) fn at_end(alloc: Global, site: &Site<'_>) -> Result<Option<Remedy>, AllocError> {
    let last = site.previous_lexeme(1);
    if last.class == LexemeClass::OpenText {
        return Ok(say(LiteralMistake::OpenString));
    }
    if site.is_within(b'(') {
        return Ok(say(SignMistake::OpenParenthesis));
    }
    if site.is_within(b'{') && site.open.len() == 1 && ends_term(last) {
        return replace(alloc, TermMistake::LastRule, last.end, last.end, " }");
    }
    Ok(None)
}
