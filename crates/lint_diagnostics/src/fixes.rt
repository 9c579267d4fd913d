//! Fixes: of syntax errors, then of other errors and of warnings.
ghost use Rattle.std.specs.Prelude.{◌≡◌, ◌<◌, ◌⊎◌, IfOk, IfSome, count_by, false, string_bytes, true};
ghost use Rattle.std.specs.List.{list_any};
ghost use Rattle.lint_diagnostics.specs.Diagnosis.{IsDiagnosis};
ghost use Rattle.lint_diagnostics.specs.Fixing.{AreImproved, IsImproved, IsMended};
ghost use Rattle.lint_findings.specs.Reports.{is_error};
ghost use Rattle.lint_warnings.specs.Lists.{texts_of};

use crate::diagnose;
use lint_findings::{
    Applied, Diagnostic, Fix, Mended, Options, Severity, apply_fix, is_allowed, line_of, mend,
};
use std::alloc::{AllocError, Global};

/// The most fixes that are tried after those of syntax errors.
const MOST_FIXES: usize = 100;

/// A text and its diagnostics.
#[derive(Drop)]
struct DiagnosedText {
    text: String,
    diagnostics: Vec<Diagnostic>,
}

/// A text after a fix.
#[derive(Drop)]
struct Improved {
    draft: DiagnosedText,
    applied: Applied,
}

/// Fixes the grammar `text`. First the syntax errors are fixed, as by `mend`. If no syntax error is
/// left, at most 100 fixes of other diagnostics are tried. Such a fix is applied only if the fixed
/// text is accepted, or has fewer errors. Unsafe fixes are applied only if `takes_unsafe` is true.
///
/// Returns the fixed text, with the fixes that were applied. If a syntax error is left, its
/// position in bytes is returned, too.
///
/// # Errors
/// `AllocError` if an allocation fails.
pub fn fix_text(
    alloc: Global,
    text: &str,
    options: Options<'_>,
    takes_unsafe: bool,
) -> Result<Mended, AllocError>
    ensures { IfOk result (λ mended.
        IsMended takes_unsafe (texts_of options.entry.starts.now) text.now (string_bytes mended.text)) }
{
    let mended = mend(alloc, text, takes_unsafe)?;
    if mended.error.is_some() {
        return Ok(mended);
    }
    let Mended {
        text,
        count,
        applied,
        ..
    } = mended;
    let diagnostics = diagnose(alloc, text.as_str(), options)?;
    let draft = DiagnosedText { text, diagnostics };
    let (text, applied) = improve(alloc, draft, applied, options, takes_unsafe)?;
    Ok(Mended {
        text,
        count,
        applied,
        error: None,
    })
}

/// Applies the fixes of the diagnostics of a text, and adds them to `applied`.
fn improve(
    alloc: Global,
    first: DiagnosedText,
    applied: Vec<Applied>,
    options: Options<'_>,
    takes_unsafe: bool,
) -> Result<(String, Vec<Applied>), AllocError>
    requires { IsDiagnosis (texts_of options.starts.now)
        (string_bytes first.text) first.diagnostics.items }
    ensures { IfOk result (λ improved. AreImproved takes_unsafe (texts_of options.entry.starts.now)
        (string_bytes first.text) (string_bytes improved.0)) }
{
    let mut draft = first;
    let mut applied = applied;
    let mut index = 0usize;
    for _tried in 0..MOST_FIXES {
        let Some(next) = fixable_from(&draft.diagnostics, index, takes_unsafe) else {
            break;
        };
        let Some(improved) = improve_once(alloc, &draft, next, options, takes_unsafe)? else {
            index = next.saturating_add(1);
            continue;
        };
        index = next;
        draft = improved.draft;
        applied.push(improved.applied)?;
    }
    Ok((draft.text, applied))
}

/// Returns the index of the first diagnostic from `start` on whose fix may be applied.
fn fixable_from(diagnostics: &[Diagnostic], start: usize, takes_unsafe: bool) -> Option<usize> {
    for index in start..diagnostics.len() {
        if let Some(fix) = fix_at(diagnostics, index) {
            if is_allowed(fix.applicability, takes_unsafe) {
                return Some(index);
            }
        }
    }
    None
}

/// Returns the fix of the diagnostic at `index`, if it has one.
fn fix_at(diagnostics: &[Diagnostic], index: usize) -> Option<&Fix> {
    let help = diagnostics.get(index)?.help.as_ref()?;
    help.fix.as_ref()
}

/// Returns the text of `draft` after the fix of the diagnostic at `index`. There is none if that fix may not
/// be applied, or if the fixed text has errors, and not fewer than before.
fn improve_once(
    alloc: Global,
    draft: &DiagnosedText,
    index: usize,
    options: Options<'_>,
    takes_unsafe: bool,
) -> Result<Option<Improved>, AllocError>
    requires { IsDiagnosis (texts_of options.starts.now)
        (string_bytes draft.now.text) draft.now.diagnostics.items }
    ensures known { IfOk result (λ found. IfSome found (λ improved.
        IsDiagnosis (texts_of options.entry.starts.now)
        (string_bytes improved.draft.text) improved.draft.diagnostics.items)) }
    ensures better { IfOk result (λ found. IfSome found (λ improved.
        IsImproved takes_unsafe (texts_of options.entry.starts.now)
        (string_bytes draft.now.text) (string_bytes improved.draft.text))) }
{
    let Some(fix) = fix_at(&draft.diagnostics, index) else {
        return Ok(None);
    };
    if !is_allowed(fix.applicability, takes_unsafe) {
        return Ok(None);
    }
    let Some(text) = apply_fix(alloc, draft.text.as_str(), fix)? else {
        return Ok(None);
    };
    let diagnostics = diagnose(alloc, text.as_str(), options)?;
    if !is_progress(&draft.diagnostics, &diagnostics) {
        return Ok(None);
    }
    let applied = Applied {
        line: line_of(draft.text.as_str(), fix.start),
        title: String::from_str(alloc, fix.title.as_str())?,
    };
    Ok(Some(Improved {
        draft: DiagnosedText { text, diagnostics },
        applied,
    }))
}

/// Whether a diagnostic is an error.
fn is_error(diagnostic: &Diagnostic) -> bool
    ensures { result ≡ is_error diagnostic.now }
{
    matches!(diagnostic.severity, Severity::Error)
}

/// Returns whether there are no errors in `after`, or fewer than in `before`.
fn is_progress(before: &[Diagnostic], after: &[Diagnostic]) -> bool
    ensures { result ≡ true → (list_any is_error after.now ≡ false)
        ⊎ (count_by is_error after.now < count_by is_error before.now) }
{
    !has_errors(after) || error_count(after) < error_count(before)
}

/// Whether some diagnostics are errors.
fn has_errors(diagnostics: &[Diagnostic]) -> bool
    ensures { result ≡ list_any is_error diagnostics.now }
{
    diagnostics.iter().any(|diagnostic| is_error(diagnostic))
}

/// How many diagnostics are errors.
fn error_count(diagnostics: &[Diagnostic]) -> usize
    ensures { result ≡ count_by is_error diagnostics.now }
{
    diagnostics
        .iter()
        .filter(|diagnostic| is_error(diagnostic))
        .count()
}
