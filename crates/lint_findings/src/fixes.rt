//! Fixes of syntax errors, applied one after another.

ghost use Rattle.std.specs.Prelude.{◌≡◌, ◌≤◌, ℕ, List, IfOk, IfSome, string_bytes, true};
ghost use Rattle.lint_findings.specs.Fixes.{AreFixed, IsApplied, IsErrorOf, IsFixed, IsFurther, is_allowed};
ghost use Rattle.base_language.specs.declared.grammar.Rule.TheVariants.{grammar_rules};
ghost use Rattle.front_syntax.specs.Parses.{FailsAt, IsSyntaxError};

use crate::repairs::fix_for;
use base_language::grammar::Rule;
use base_language::runtime::{Error, Fault, InputLocation};
use front_syntax::grammar::PestParser;
use lint_hints::{Applicability, Fix};
use std::alloc::{AllocError, Global};

/// The most fixes that are applied to a text.
const MOST_FIXES: usize = 100;

/// A text after fixes, with the fixes that were applied.
#[derive(Drop)]
pub struct Mended {
    pub text: String,
    /// The number of fixes of syntax errors that were applied.
    pub count: usize,
    /// The fixes that were applied, in order.
    pub applied: Vec<Applied>,
    /// The byte of the syntax error that is left, if one is.
    pub error: Option<usize>,
}

/// A fix that was applied.
#[derive(Drop)]
pub struct Applied {
    /// The line, from 1, of the first byte that the fix changed, in the text before this fix.
    pub line: usize,
    /// The change, in words.
    pub title: String,
}

/// A text to which `count` fixes were applied, and the byte of the syntax error that is left, if one is.
#[derive(Drop)]
struct FixedText {
    text: String,
    count: usize,
    error: Option<usize>,
}

/// A text after a fix, and the byte of the syntax error that is left, if one is.
#[derive(Drop)]
struct Fixed {
    text: String,
    applied: Applied,
    error: Option<usize>,
}

/// Fixes the syntax errors of the grammar `text`, one after another, by at most 100 fixes. Unsafe
/// fixes are applied only if `takes_unsafe` is true. After each fix the text is read again. A fix
/// is kept only if the fixed text has no syntax error, or if its syntax error is at a later
/// position. This position must be after the replacement, and after the position of the error that
/// was fixed.
///
/// Returns the fixed text, the fixes that were applied, and the position of the syntax error that
/// is left, if there is one, in bytes.
///
/// # Errors
/// `AllocError` if an allocation fails.
pub fn mend(alloc: Global, text: &str, takes_unsafe: bool) -> Result<Mended, AllocError>
    ensures fixed { IfOk result (λ mended.
        AreFixed takes_unsafe text.now mended.count (string_bytes mended.text)) }
    ensures error { IfOk result (λ mended. IsErrorOf (string_bytes mended.text) mended.error) }
    ensures most { IfOk result (λ mended. mended.count ≤ 100) }
{
    let error = find_error(alloc, text)?;
    let mut applied = Vec::new(alloc);
    let mut mended = FixedText {
        text: String::from_str(alloc, text)?,
        count: 0,
        error,
    };
    for count in 0..MOST_FIXES {
        let Some(fixed) = fix_once(alloc, mended.text.as_str(), mended.error, takes_unsafe)? else {
            break;
        };
        applied.push(fixed.applied)?;
        mended = FixedText {
            text: fixed.text,
            count: count + 1,
            error: fixed.error,
        };
    }
    Ok(Mended {
        text: mended.text,
        count: mended.count,
        applied,
        error: mended.error,
    })
}

/// Returns `text` after the fix of its syntax error, which is at the byte `error`. There is none without an
/// error, without a fix that may be applied, or if the fix is no progress.
fn fix_once(
    alloc: Global,
    text: &str,
    error: Option<usize>,
    takes_unsafe: bool,
) -> Result<Option<Fixed>, AllocError>
    requires { IsErrorOf text.now error }
    ensures { IfOk result (λ answer. IfSome answer (λ fixed.
        IsFixed takes_unsafe text.now (string_bytes fixed.text)
        × IsErrorOf (string_bytes fixed.text) fixed.error)) }
{
    let Some(place) = error else {
        return Ok(None);
    };
    let Some(fix) = fix_for(alloc, text, place)? else {
        return Ok(None);
    };
    if !is_allowed(fix.applicability, takes_unsafe) {
        return Ok(None);
    }
    let Some(next) = apply_fix(alloc, text, &fix)? else {
        return Ok(None);
    };
    let left = find_error(alloc, next.as_str())?;
    if !is_further(place, &fix, left) {
        return Ok(None);
    }
    let line = line_of(text, fix.start);
    Ok(Some(Fixed {
        text: next,
        applied: Applied {
            line,
            title: fix.title,
        },
        error: left,
    }))
}

/// Returns whether a fix with the applicability `applicability` may be applied. A safe fix may
/// always be applied. An unsafe fix may be applied if `takes_unsafe` is true.
pub fn is_allowed(applicability: Applicability, takes_unsafe: bool) -> bool
    ensures { result ≡ is_allowed takes_unsafe applicability }
{
    match applicability {
        Applicability::Safe => true,
        Applicability::Unsafe => takes_unsafe,
    }
}

/// Returns the line, from 1, of the byte `position` of `text`.
pub fn line_of(text: &str, position: usize) -> usize {
    let feeds = text.bytes().take(position).filter(|byte| *byte == b'\n');
    feeds.count().saturating_add(1)
}

/// The byte of the syntax error of a text, if it is no grammar.
pub(crate) fn find_error(alloc: Global, text: &str) -> Result<Option<usize>, AllocError>
    ensures { IfOk result (IsErrorOf text.now) }
{
    match PestParser::tokens(alloc, Rule::grammar_rules, text) {
        Ok(_) => Ok(None),
        Err(Fault::Grammar(errors)) => Ok(Some(place_of(&errors))),
        Err(Fault::Memory(error)) => Err(error),
    }
}

/// The byte of a syntax error.
fn place_of(errors: &[Error<Rule>]) -> usize
    ensures { (text : List ℕ) (place : ℕ) → IsSyntaxError text place errors.now → result ≡ place }
{
    let Some(error) = errors.first() else {
        return 0;
    };
    match error.location {
        InputLocation::Pos(place) => place,
        InputLocation::Span((start, _)) => start,
    }
}

/// Returns `text` with the bytes of `fix` replaced. There is none if `text` has no such bytes, or if these
/// are not whole characters.
///
/// # Errors
/// `AllocError` if an allocation fails.
pub fn apply_fix(alloc: Global, text: &str, fix: &Fix) -> Result<Option<String>, AllocError>
    ensures { IfOk result (λ answer. IfSome answer (λ next. IsApplied text.now fix.now (string_bytes next))) }
{
    let (Some(before), Some(after)) = (text.get(..fix.start), text.get(fix.end..)) else {
        return Ok(None);
    };
    if fix.start > fix.end {
        return Ok(None);
    }
    let mut next = String::from_str(alloc, before)?;
    next.push_str(fix.replacement.as_str())?;
    next.push_str(after)?;
    Ok(Some(next))
}

/// Returns whether no error is left after `fix`, or one after the replacement and after the byte `error`.
pub(crate) fn is_further(error: usize, fix: &Fix, left: Option<usize>) -> bool
    ensures { result ≡ true → IsFurther error fix.now left }
{
    let Some(place) = left else {
        return true;
    };
    let written = fix.replacement.as_str().len();
    if place < fix.start || place - fix.start < written {
        return false;
    }
    let behind = place - fix.start - written;
    fix.end > error || behind > error - fix.end
}
