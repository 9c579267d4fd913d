//! Repairs of lines: the fixes of their syntax errors, as one fix.
use crate::fixes::{apply_fix, find_error, is_further};
use crate::quotes::keeps_literals;
use lint_hints::{Applicability, Fix, Help, Hint, hint_at};
use std::alloc::{AllocError, Global};

/// The most fixes of one repair.
const MOST_STEPS: usize = 10;

/// A text with some fixes applied: which part they changed, and what is left.
#[derive(Drop)]
struct RepairDraft {
    text: String,
    /// The first byte that was changed.
    start: usize,
    /// How many bytes at the end were not.
    kept: usize,
    /// The byte of the syntax error that is left, if one is.
    error: Option<usize>,
    is_safe: bool,
}

/// A fix, and whether it mends the lines that it changes: no syntax error is left in them.
#[derive(Drop)]
struct Repair {
    fix: Fix,
    is_whole: bool,
}

/// Returns a hint for the syntax error of the grammar `text` at the byte `error`. If the hint has a
/// fix, the fix leaves no syntax error in the lines that it changes. A safe fix splits, joins and
/// removes no string and no character literal. The time is linear in the bytes of `text`.
///
/// # Errors
/// `AllocError` if an allocation fails.
pub fn hint_for(alloc: Global, text: &str, error: usize) -> Result<Hint, AllocError> {
    let Hint {
        mistake,
        help,
        related,
    } = hint_at(alloc, text, error)?;
    let help = match help {
        Some(help) => Some(repaired(alloc, text, error, help)?),
        None => None,
    };
    Ok(Hint {
        mistake,
        help,
        related,
    })
}

/// A help whose fix is the repair that begins with its fix, if that mends the lines.
fn repaired(alloc: Global, text: &str, error: usize, help: Help) -> Result<Help, AllocError> {
    let Help { message, fix } = help;
    let repair = match fix {
        Some(fix) => repair_lines(alloc, text, error, &fix)?,
        None => None,
    };
    let fix = match repair {
        Some(repair) if repair.is_whole => Some(repair.fix),
        _ => None,
    };
    Ok(Help { message, fix })
}

/// Returns the fix of a hint, if it has one.
fn fix_of_hint(hint: Hint) -> Option<Fix> {
    let Hint { help, .. } = hint;
    let Help { fix, .. } = help?;
    fix
}

/// The fix for the syntax error of a text at a byte. Another error may be left after it in the lines that it
/// changes.
pub(crate) fn fix_for(alloc: Global, text: &str, error: usize) -> Result<Option<Fix>, AllocError> {
    let Some(fix) = fix_of_hint(hint_at(alloc, text, error)?) else {
        return Ok(None);
    };
    match repair_lines(alloc, text, error, &fix)? {
        Some(repair) => Ok(Some(repair.fix)),
        None => Ok(None),
    }
}

/// Returns the repair that begins with `fix`. It also fixes the errors that are left in the changed lines, as
/// far as their fixes are known. There is none if `fix` is no progress.
fn repair_lines(
    alloc: Global,
    text: &str,
    error: usize,
    fix: &Fix,
) -> Result<Option<Repair>, AllocError> {
    let Some(mut draft) = first_draft(alloc, text, error, fix)? else {
        return Ok(None);
    };
    let mut is_whole = false;
    for _ in 0..MOST_STEPS {
        let Some(place) = error_inside(&draft) else {
            is_whole = true;
            break;
        };
        let Some(next) = next_draft(alloc, &draft, place)? else {
            break;
        };
        draft = next;
    }
    let fix = fix_of(alloc, text, &draft)?;
    Ok(Some(Repair { fix, is_whole }))
}

/// The byte of the syntax error that is left in the lines that were changed, if one is.
fn error_inside(draft: &RepairDraft) -> Option<usize> {
    let place = draft.error?;
    let text = draft.text.as_str();
    let changed = text.len().saturating_sub(draft.kept);
    let rest = text.get(changed..).unwrap_or("");
    let end = match rest.find('\n') {
        Some(length) => changed.saturating_add(length),
        None => text.len(),
    };
    if place <= end && place < text.len() {
        Some(place)
    } else {
        None
    }
}

/// A text after a fix of its syntax error, if that is progress.
fn first_draft(
    alloc: Global,
    text: &str,
    error: usize,
    fix: &Fix,
) -> Result<Option<RepairDraft>, AllocError> {
    let Some(next) = apply_fix(alloc, text, fix)? else {
        return Ok(None);
    };
    let left = find_error(alloc, next.as_str())?;
    if !is_further(error, fix, left) {
        return Ok(None);
    }
    let is_safe = keeps_literals(alloc, text, fix, next.as_str())?;
    Ok(Some(RepairDraft {
        text: next,
        start: fix.start,
        kept: text.len().saturating_sub(fix.end),
        error: left,
        is_safe,
    }))
}

/// A draft after the fix of its syntax error at a byte, if there is one, and it is progress.
fn next_draft(
    alloc: Global,
    draft: &RepairDraft,
    place: usize,
) -> Result<Option<RepairDraft>, AllocError> {
    let text = draft.text.as_str();
    let Some(fix) = fix_of_hint(hint_at(alloc, text, place)?) else {
        return Ok(None);
    };
    let Some(next) = first_draft(alloc, text, place, &fix)? else {
        return Ok(None);
    };
    Ok(Some(RepairDraft {
        text: next.text,
        start: next.start.min(draft.start),
        kept: next.kept.min(draft.kept),
        error: next.error,
        is_safe: next.is_safe && draft.is_safe,
    }))
}

/// The fix that makes the text of a draft of another text.
fn fix_of(alloc: Global, text: &str, draft: &RepairDraft) -> Result<Fix, AllocError> {
    let applicability = if draft.is_safe {
        Applicability::Safe
    } else {
        Applicability::Unsafe
    };
    let next = draft.text.as_str();
    let end = text.len().saturating_sub(draft.kept);
    let written = next.len().saturating_sub(draft.kept);
    let replacement = next.get(draft.start..written).unwrap_or("");
    Fix::of(alloc, text, draft.start, end, replacement, applicability)
}
