//! Hints at signs in bodies.
use crate::classes::class_at;
use crate::foreign::at_control;
use crate::help::{Remedy, replace, say};
use crate::literals::{after_character, bound_of, is_bound, range_of_strings};
use crate::mistakes::{LiteralMistake, OuterMistake, SignMistake};
use crate::terms::{at_term, late_modifier};
use front_names::{Builtin, CharSet};
use lint_lexemes::{Lexeme, LexemeClass, Site, ends_term, is_sign, starts_term};
use std::alloc::{AllocError, Global};

/// The remedy of a sign in a body.
pub(crate) fn at_sign(
    alloc: Global,
    site: &Site<'_>,
    here: Lexeme,
    byte: u8,
) -> Result<Option<Remedy>, AllocError> {
    match byte {
        b')' | b'}' => at_closing(alloc, site, byte),
        b'.' => at_dot(alloc, site, here),
        b'|' | b'~' => at_infix(alloc, site, here),
        b'*' | b'+' | b'?' => at_postfix(alloc, site, here),
        b'&' if is_sign(site.next_lexeme(1), b'&') => {
            let end = site.next_lexeme(1).end;
            replace(alloc, SignMistake::OtherTilde, here.start, end, "~")
        }
        b'!' | b'&' if !starts_term(site.next_lexeme(1)) => Ok(say(SignMistake::LateTest)),
        b'(' | b'^' | b'!' | b'&' => at_term(alloc, site),
        b'-' => at_dash(alloc, site, here),
        byte if byte.is_ascii_control() => at_control(alloc, here),
        _ => at_other_sign(alloc, site, here, byte),
    }
}

/// The remedy of a sign that bodies have in no place, or in few.
fn at_other_sign(
    alloc: Global,
    site: &Site<'_>,
    here: Lexeme,
    byte: u8,
) -> Result<Option<Remedy>, AllocError> {
    match byte {
        b'[' => at_bracket(alloc, site, here),
        b'=' => at_equals(alloc, site, here),
        b'%' => Ok(at_percent(site)),
        b'{' => Ok(at_brace(site)),
        b'@' | b'$' => at_modifier(alloc, site, here, byte),
        b'/' => at_slash(alloc, site, here),
        b':' => at_colon(alloc, site, here),
        b',' => swap(alloc, site, here, SignMistake::OtherTilde, " ~"),
        b';' if is_sign(site.next_lexeme(1), b'}') => {
            let (start, end) = removed_bytes(site, here);
            replace(alloc, OuterMistake::Semicolon, start, end, "")
        }
        b'\\' => at_backslash(alloc, site, here),
        b'#' => Ok(say(SignMistake::Hash)),
        b'<' => at_angle(alloc, site, here),
        b'`' => Ok(say(LiteralMistake::SingleQuotes)),
        _ => Ok(None),
    }
}

/// A remedy that puts another sign in place of one between two expressions.
fn swap(
    alloc: Global,
    site: &Site<'_>,
    here: Lexeme,
    mistake: SignMistake,
    sign: &str,
) -> Result<Option<Remedy>, AllocError> {
    if ends_term(site.previous_lexeme(1)) && starts_term(site.next_lexeme(1)) {
        return replace(alloc, mistake, here.start, here.end, sign);
    }
    Ok(None)
}

/// The remedy of an equals sign: in a range, in an arrow, or of a tag without `#`.
fn at_equals(alloc: Global, site: &Site<'_>, here: Lexeme) -> Result<Option<Remedy>, AllocError> {
    if is_sign(site.previous_lexeme(1), b'.') {
        return replace(
            alloc,
            LiteralMistake::InclusiveRange,
            here.start,
            here.end,
            "",
        );
    }
    if is_sign(site.next_lexeme(1), b'>') {
        return Ok(say(SignMistake::Arrow));
    }
    Ok(say(SignMistake::Equals))
}

/// The remedy of a percent sign: of a list, or of a character by its number.
fn at_percent(site: &Site<'_>) -> Option<Remedy> {
    if ends_term(site.previous_lexeme(1)) {
        return say(SignMistake::ListSign);
    }
    say(SignMistake::CharacterNumber)
}

/// The remedy of a slash: between alternatives, or around a regular expression.
fn at_slash(alloc: Global, site: &Site<'_>, here: Lexeme) -> Result<Option<Remedy>, AllocError> {
    if ends_term(site.previous_lexeme(1)) {
        return swap(alloc, site, here, SignMistake::Slash, "|");
    }
    Ok(say(SignMistake::RegularExpression))
}

/// The remedy of a colon after a name, as of a label.
fn at_colon(alloc: Global, site: &Site<'_>, here: Lexeme) -> Result<Option<Remedy>, AllocError> {
    let name = site.previous_lexeme(1);
    if name.class != LexemeClass::Name || !starts_term(site.next_lexeme(1)) {
        return Ok(None);
    }
    let text = format!(in alloc; "#{} = ", site.text_of(name))?;
    replace(
        alloc,
        SignMistake::Label,
        name.start,
        here.end,
        text.as_str(),
    )
}

/// The remedy of a closing parenthesis or brace.
fn at_closing(alloc: Global, site: &Site<'_>, byte: u8) -> Result<Option<Remedy>, AllocError> {
    let before = site.previous_lexeme(1);
    if is_sign(before, b'|') || is_sign(before, b'~') {
        let (start, end) = removed_bytes(site, before);
        return replace(alloc, SignMistake::MissingAfter, start, end, "");
    }
    if is_sign(before, b'{') && byte == b'}' || is_sign(before, b'(') && byte == b')' {
        return Ok(say(SignMistake::Nothing));
    }
    if is_sign(before, b'.') {
        return Ok(say(LiteralMistake::LostBound));
    }
    if site.is_within(b'(') && byte == b'}' {
        return Ok(say(SignMistake::OpenParenthesis));
    }
    if site.is_within(b'{') && byte == b')' {
        return Ok(say(SignMistake::ClosedParenthesis));
    }
    after_character(alloc, site)
}

/// The remedy of a bracket: a class of characters, or an optional part. A class that follows an expression
/// gets its `~`.
fn at_bracket(alloc: Global, site: &Site<'_>, here: Lexeme) -> Result<Option<Remedy>, AllocError> {
    let is_negated = site.byte(here.start.saturating_add(1)) == b'^';
    let mistake = if is_negated {
        SignMistake::NegatedClass
    } else {
        SignMistake::Class
    };
    let Some(class) = class_at(alloc, site, here.start)? else {
        return Ok(if is_negated {
            say(mistake)
        } else {
            say(SignMistake::Brackets)
        });
    };
    let text = format!(in alloc; "{}{}", tilde_before(site, here), class.text)?;
    replace(alloc, mistake, here.start, class.end, text.as_str())
}

/// The `~` that an expression at a lexeme needs, with blanks; nothing if none ends before it.
fn tilde_before(site: &Site<'_>, here: Lexeme) -> &'static str {
    let before = site.previous_lexeme(1);
    if !ends_term(before) {
        ""
    } else if before.end == here.start {
        " ~ "
    } else {
        "~ "
    }
}

/// The remedy of a dot: a range, or any character.
fn at_dot(alloc: Global, site: &Site<'_>, here: Lexeme) -> Result<Option<Remedy>, AllocError> {
    let before = site.previous_lexeme(1);
    if is_sign(before, b'.') {
        return replace(alloc, LiteralMistake::ThreeDots, here.start, here.end, "");
    }
    if is_sign(site.next_lexeme(1), b'.') {
        return at_dots(alloc, site, before);
    }
    if ends_term(before) {
        return Ok(say(SignMistake::DottedName));
    }
    let any = CharSet::Any.name();
    replace(alloc, SignMistake::Dot, here.start, here.end, any)
}

/// The remedy of two dots: between strings, or with a bound that is missing.
fn at_dots(alloc: Global, site: &Site<'_>, before: Lexeme) -> Result<Option<Remedy>, AllocError> {
    match before.class {
        LexemeClass::Text | LexemeClass::Name => {
            range_of_strings(alloc, site, before, site.next_lexeme(2))
        }
        _ => Ok(say(LiteralMistake::LostBound)),
    }
}

/// The remedy of an infix operator with nothing before it.
fn at_infix(alloc: Global, site: &Site<'_>, here: Lexeme) -> Result<Option<Remedy>, AllocError> {
    let before = site.previous_lexeme(1);
    if ends_term(before) {
        return after_character(alloc, site);
    }
    if is_sign(before, b'^') {
        return Ok(say(SignMistake::CaretForStart));
    }
    if is_sign(here, b'~') && !is_sign(before, b'~') && site.next_lexeme(1).start == here.end {
        return Ok(say(SignMistake::TildeForNot));
    }
    if before.class == here.class || is_sign(before, b'{') || is_sign(before, b'(') {
        let (start, end) = removed_bytes(site, here);
        return replace(alloc, SignMistake::MissingBefore, start, end, "");
    }
    Ok(say(SignMistake::MissingBefore))
}

/// The bytes that go with a sign: the blank after it, too, if one is before it.
fn removed_bytes(site: &Site<'_>, sign: Lexeme) -> (usize, usize) {
    let is_between = site.byte(sign.start.saturating_sub(1)) == b' ' && site.byte(sign.end) == b' ';
    if is_between {
        (sign.start, sign.end.saturating_add(1))
    } else {
        (sign.start, sign.end)
    }
}

/// The remedy of a postfix operator with nothing before it.
fn at_postfix(alloc: Global, site: &Site<'_>, here: Lexeme) -> Result<Option<Remedy>, AllocError> {
    if ends_term(site.previous_lexeme(1)) {
        return after_character(alloc, site);
    }
    if is_sign(site.previous_lexeme(1), b'(') && is_sign(here, b'?') {
        return Ok(say(SignMistake::RegexGroup));
    }
    let operand = site.next_lexeme(1);
    if !matches!(operand.class, LexemeClass::Name | LexemeClass::Text) {
        return Ok(say(SignMistake::EarlyPostfix));
    }
    let sign = site.text_of(here);
    let text = format!(in alloc; "{}{sign}", site.text_of(operand))?;
    replace(
        alloc,
        SignMistake::EarlyPostfix,
        here.start,
        operand.end,
        text.as_str(),
    )
}

/// The remedy of a brace in a body that begins no count.
fn at_brace(site: &Site<'_>) -> Option<Remedy> {
    let before = site.previous_lexeme(1);
    if ends_term(before) {
        return None;
    }
    if is_sign(before, b'!') {
        return say(SignMistake::InnerModifier);
    }
    say(SignMistake::InnerBraces)
}

/// The remedy of a modifier in a body.
fn at_modifier(
    alloc: Global,
    site: &Site<'_>,
    here: Lexeme,
    byte: u8,
) -> Result<Option<Remedy>, AllocError> {
    if is_sign(site.previous_lexeme(1), b'{') && is_sign(site.previous_lexeme(2), b'=') {
        return late_modifier(alloc, site, here, if byte == b'@' { "@{" } else { "${" });
    }
    let after = site.next_lexeme(1);
    let is_prefix = after.start == here.end && (starts_term(after) || is_sign(after, b'{'));
    if byte == b'@' || is_prefix {
        return Ok(say(SignMistake::InnerModifier));
    }
    Ok(say(SignMistake::DollarForEnd))
}

/// The remedy of a dash: a comment, a range, part of a name, or a difference.
fn at_dash(alloc: Global, site: &Site<'_>, here: Lexeme) -> Result<Option<Remedy>, AllocError> {
    let before = site.previous_lexeme(1);
    let after = site.next_lexeme(1);
    if is_sign(after, b'-') && after.start == here.end {
        return Ok(say(OuterMistake::CommentSign));
    }
    if before.class == LexemeClass::Character && after.class == LexemeClass::Character {
        return replace(
            alloc,
            LiteralMistake::DashedRange,
            here.start,
            here.end,
            "..",
        );
    }
    if before.class == LexemeClass::Name && before.end == here.start && after.start == here.end {
        return Ok(say(OuterMistake::NameSign));
    }
    if is_letter(site, before) && is_letter(site, after) {
        return range_of_strings(alloc, site, before, after);
    }
    if ends_term(before) && starts_term(after) {
        return Ok(say(SignMistake::Difference));
    }
    Ok(None)
}

/// Whether a lexeme is a string of one character.
fn is_letter(site: &Site<'_>, lexeme: Lexeme) -> bool {
    lexeme.class == LexemeClass::Text && is_bound(bound_of(site, lexeme))
}

/// The remedy of a backslash outside of a string, as in regular expressions.
fn at_backslash(
    alloc: Global,
    site: &Site<'_>,
    here: Lexeme,
) -> Result<Option<Remedy>, AllocError> {
    let name = site.next_lexeme(1);
    let replacement = match site.text_of(name) {
        "d" => CharSet::AsciiDigit.name(),
        "n" => Builtin::Newline.name(),
        "s" => "(\" \" | \"\\t\" | NEWLINE)",
        "w" => "(ASCII_ALPHANUMERIC | \"_\")",
        _ => return Ok(say(SignMistake::RegexEscape)),
    };
    replace(
        alloc,
        SignMistake::RegexClass,
        here.start,
        name.end,
        replacement,
    )
}

/// The remedy of a name in angle brackets.
fn at_angle(alloc: Global, site: &Site<'_>, here: Lexeme) -> Result<Option<Remedy>, AllocError> {
    let before = site.previous_lexeme(1);
    if before.class == LexemeClass::Name && before.end == here.start {
        return Ok(say(OuterMistake::Parameters));
    }
    let name = site.next_lexeme(1);
    let close = site.next_lexeme(2);
    if name.class != LexemeClass::Name || !is_sign(close, b'>') {
        return Ok(None);
    }
    let text = site.text_of(name);
    replace(
        alloc,
        OuterMistake::AngleBrackets,
        here.start,
        close.end,
        text,
    )
}
