//! Fixes of warnings. A safe one needs a law that the rules match the same with it.
use crate::bodies::{RuleBody, body_around};
use crate::codes::Code;
use base_language::runtime::Span;
use lint_hints::{Applicability, Fix, Help};
use lint_lexemes::{Lexeme, is_sign, lexemes};
use lint_warnings::UnreachableChoice;
use std::alloc::{AllocError, Global};

/// The most bytes of a part that a fix looks at, so that the fixes of a text take linear time.
const MOST_BYTES: usize = 1_000;

/// Returns `help` with `fix`, if there is one.
pub(crate) fn add_fix(help: Option<Help>, fix: Option<Fix>) -> Option<Help> {
    let Help {
        message,
        fix: earlier,
    } = help?;
    Some(Help {
        message,
        fix: fix.or(earlier),
    })
}

/// The fix of a warning of `code` at `span`, if one is known. `bodies` are those of the rules of the text. A
/// span of more than 1,000 bytes has no fix.
pub(crate) fn fix_of_warning(
    alloc: Global,
    code: Code,
    span: Span<'_>,
    bodies: &[RuleBody],
) -> Result<Option<Fix>, AllocError> {
    if span.as_str().len() > MOST_BYTES {
        return Ok(None);
    }
    match code {
        Code::ReversedRange => swap_bounds(alloc, span),
        Code::ReversedCount => swap_numbers(alloc, span),
        Code::IdleTest => remove_option(alloc, span),
        Code::RepeatedAlternative => remove_alternative(alloc, span),
        Code::MissingEnd => add_end(alloc, span, bodies),
        Code::BlanksInToken => add_modifier(alloc, span, bodies),
        _ => Ok(None),
    }
}

/// The text of a part of the text of a span.
fn part<'i>(span: Span<'i>, start: usize, end: usize) -> &'i str {
    span.get_input().get(start..end).unwrap_or("")
}

/// An unsafe fix: the bounds of a range change places.
fn swap_bounds(alloc: Global, span: Span<'_>) -> Result<Option<Fix>, AllocError> {
    let text = span.as_str();
    let lexemes = lexemes(alloc, text)?;
    match lexemes.as_slice() {
        [first, dot, other, last] if is_sign(*dot, b'.') && is_sign(*other, b'.') => {
            swap(alloc, span, text, *first, *last)
        }
        _ => Ok(None),
    }
}

/// An unsafe fix: the numbers of a count change places.
fn swap_numbers(alloc: Global, span: Span<'_>) -> Result<Option<Fix>, AllocError> {
    let text = span.as_str();
    let lexemes = lexemes(alloc, text)?;
    let start = lexemes.len().saturating_sub(5);
    match lexemes.get(start..) {
        Some([open, first, comma, last, _]) if is_sign(*open, b'{') && is_sign(*comma, b',') => {
            swap(alloc, span, text, *first, *last)
        }
        _ => Ok(None),
    }
}

/// An unsafe fix: two lexemes of the text of a span change places.
fn swap(
    alloc: Global,
    span: Span<'_>,
    text: &str,
    first: Lexeme,
    last: Lexeme,
) -> Result<Option<Fix>, AllocError> {
    let replacement = format!(in alloc;
        "{}{}{}",
        text.get(last.start..last.end).unwrap_or(""),
        text.get(first.end..last.start).unwrap_or(""),
        text.get(first.start..first.end).unwrap_or("")
    )?;
    let start = span.start().saturating_add(first.start);
    let end = span.start().saturating_add(last.end);
    let input = span.get_input();
    let fix = Fix::of(
        alloc,
        input,
        start,
        end,
        replacement.as_str(),
        Applicability::Unsafe,
    )?;
    Ok(Some(fix))
}

/// A safe fix: an option of what cannot fail is taken away, unless a repetition was meant to be lazy. A
/// test of an option is no option.
fn remove_option(alloc: Global, span: Span<'_>) -> Result<Option<Fix>, AllocError> {
    let text = span.as_str();
    if text.starts_with('&') || !text.ends_with('?') || text.ends_with("*?") {
        return Ok(None);
    }
    let start = span.end().saturating_sub(1);
    let input = span.get_input();
    let fix = Fix::of(alloc, input, start, span.end(), "", Applicability::Safe)?;
    Ok(Some(fix))
}

/// The byte of the `|` before `span`, if only blanks are between, and no comment is in its line before that.
/// There is none if the line has more than 1,000 bytes before `span`.
fn bar_before(span: Span<'_>) -> Option<usize> {
    let first = span.start().saturating_sub(MOST_BYTES);
    let before = span.get_input().get(first..span.start())?;
    let line_start = match before.rfind('\n') {
        Some(feed) => feed.saturating_add(1),
        None if first == 0 => 0,
        None => return None,
    };
    let line = before.get(line_start..)?;
    if line.contains("//") || line.contains("/*") {
        return None;
    }
    let rest = line.trim_end().strip_suffix('|')?;
    Some(first.saturating_add(line_start).saturating_add(rest.len()))
}

/// Whether each bracket of a text is closed in it, and no other one.
fn is_balanced(alloc: Global, text: &str) -> Result<bool, AllocError> {
    let lexemes = lexemes(alloc, text)?;
    let mut depth = 0usize;
    for lexeme in &lexemes {
        if is_sign(*lexeme, b'(') {
            depth = depth.saturating_add(1);
        } else if is_sign(*lexeme, b')') {
            if depth == 0 {
                return Ok(false);
            }
            depth = depth.saturating_sub(1);
        }
    }
    Ok(depth == 0)
}

/// A safe fix: an alternative that is never taken, since it is the same as one before it, is taken away.
pub(crate) fn remove_alternative(alloc: Global, span: Span<'_>) -> Result<Option<Fix>, AllocError> {
    let Some(bar) = bar_before(span) else {
        return Ok(None);
    };
    if span.as_str().len() > MOST_BYTES || !is_balanced(alloc, span.as_str())? {
        return Ok(None);
    }
    let line = part(span, 0, bar);
    let start = line.trim_end_matches(' ').len();
    let input = span.get_input();
    let fix = Fix::of(alloc, input, start, span.end(), "", Applicability::Safe)?;
    Ok(Some(fix))
}

/// An unsafe fix: the first alternative that is never taken goes before the one that begins all that it
/// matches. There is none if they are not in one line, or have comments between them.
pub(crate) fn reorder(
    alloc: Global,
    choice: &UnreachableChoice<'_>,
) -> Result<Option<Fix>, AllocError> {
    let (Some((start, _)), Some(span)) = (choice.begun_by, choice.spans.first()) else {
        return Ok(None);
    };
    let Some(bar) = bar_before(*span) else {
        return Ok(None);
    };
    let earlier = part(*span, start, bar).trim_end();
    let later = span.as_str();
    if earlier.is_empty() || earlier.len().max(later.len()) > MOST_BYTES {
        return Ok(None);
    }
    if earlier.contains('\n') || later.contains('\n') || later.contains("//") {
        return Ok(None);
    }
    if !is_balanced(alloc, earlier)? || !is_balanced(alloc, later)? {
        return Ok(None);
    }
    let replacement = format!(in alloc; "{later} | {earlier}")?;
    let fix = Fix::of(
        alloc,
        span.get_input(),
        start,
        span.end(),
        replacement.as_str(),
        Applicability::Unsafe,
    )?;
    Ok(Some(fix))
}

/// An unsafe fix: the body of the rule with this name ends with `EOI`. A choice of several lines has none.
fn add_end(alloc: Global, name: Span<'_>, bodies: &[RuleBody]) -> Result<Option<Fix>, AllocError> {
    let Some(body) = body_around(bodies, name.start()) else {
        return Ok(None);
    };
    let inner = part(name, body.first, body.last);
    if body.has_choice && inner.contains('\n') {
        return Ok(None);
    }
    let (start, text) = if body.has_choice {
        (body.first, format!(in alloc; "({inner}) ~ EOI")?)
    } else {
        (body.last, String::from_str(alloc, " ~ EOI")?)
    };
    let input = name.get_input();
    let fix = Fix::of(
        alloc,
        input,
        start,
        body.last,
        text.as_str(),
        Applicability::Unsafe,
    )?;
    Ok(Some(fix))
}

/// An unsafe fix: the rule around a span is atomic, if it has no modifier.
fn add_modifier(
    alloc: Global,
    span: Span<'_>,
    bodies: &[RuleBody],
) -> Result<Option<Fix>, AllocError> {
    let Some(body) = body_around(bodies, span.start()) else {
        return Ok(None);
    };
    if body.has_modifier {
        return Ok(None);
    }
    let input = span.get_input();
    let fix = Fix::of(
        alloc,
        input,
        body.brace,
        body.brace,
        "@",
        Applicability::Unsafe,
    )?;
    Ok(Some(fix))
}
