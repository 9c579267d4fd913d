//! Helps, fixes, related positions.
ghost use Rattle.std.specs.Prelude.{◌≡◌, ◌↔◌, IfOk, IsSome, None, Some, string_bytes};
ghost use Rattle.lint_hints.specs.Hints.{IsReplacement};

use crate::mistakes::Mistake;
use std::alloc::{AllocError, Global};

/// Whether a fix may be applied unasked.
#[derive(Clone, Copy, Debug, PartialEq, Eq)]
pub enum Applicability {
    /// The fixed text says what its author wrote.
    Safe,
    /// The fixed text may say something else.
    Unsafe,
}

/// A replacement of a part of the text, in bytes: `start..end` becomes `replacement`.
#[derive(Debug, Drop, PartialEq, Eq)]
pub struct Fix {
    pub start: usize,
    pub end: usize,
    pub replacement: String,
    pub applicability: Applicability,
    /// The change, in words, as "Add `}`".
    pub title: String,
}

/// How a mistake may be mended, and the replacement that does so if one is definite.
#[derive(Debug, Drop, PartialEq, Eq)]
pub struct Help {
    pub message: String,
    pub fix: Option<Fix>,
}

/// Another part of the text that matters to a diagnostic, in bytes, and why it does.
#[derive(Debug, Drop, PartialEq, Eq)]
pub struct Related {
    pub start: usize,
    pub end: usize,
    pub message: String,
}

/// A help if the mistake is known, and the positions that matter to it.
#[derive(Drop)]
pub struct Hint {
    pub mistake: Option<Mistake>,
    pub help: Option<Help>,
    pub related: Vec<Related>,
}

/// A known mistake, and the replacement that mends it if one is definite.
#[derive(Drop)]
pub(crate) struct Remedy {
    pub mistake: Mistake,
    pub fix: Option<Fix>,
}

/// Returns the remedy of a mistake, without a fix.
pub(crate) fn say(mistake: impl Into<Mistake>) -> Option<Remedy>
    ensures { IsSome result }
{
    Some(Remedy {
        mistake: mistake.into(),
        fix: None,
    })
}

/// Returns the remedy of a mistake, which replaces the bytes `start..end`.
pub(crate) fn replace(
    alloc: Global,
    mistake: impl Into<Mistake>,
    start: usize,
    end: usize,
    replacement: &str,
) -> Result<Option<Remedy>, AllocError>
    ensures { IfOk result IsSome }
{
    let mistake = mistake.into();
    let fix = Fix::new(alloc, start, end, replacement)?;
    Ok(Some(Remedy {
        mistake,
        fix: Some(fix),
    }))
}

impl Fix {
    /// The bytes `start..end` become a text; whether it may be applied, and what it does, is not said.
    pub(crate) fn new(
        alloc: Global,
        start: usize,
        end: usize,
        replacement: &str,
    ) -> Result<Fix, AllocError>
        ensures { IfOk result (IsReplacement start end replacement.now) }
    {
        let replacement = String::from_str(alloc, replacement)?;
        Ok(Fix {
            start,
            end,
            replacement,
            applicability: Applicability::Unsafe,
            title: String::new(alloc),
        })
    }

    /// Returns a fix that replaces the bytes `start..end` of `text` by `replacement`.
    ///
    /// # Errors
    /// `AllocError` if an allocation fails.
    pub fn of(
        alloc: Global,
        text: &str,
        start: usize,
        end: usize,
        replacement: &str,
        applicability: Applicability,
    ) -> Result<Fix, AllocError>
        ensures replaces { IfOk result (IsReplacement start end replacement.now) }
        ensures applicability { IfOk result (λ fix. fix.applicability ≡ applicability) }
    {
        let removed = text.get(start..end).unwrap_or("");
        let mut fix = Fix::suggest(alloc, removed, start, end, replacement)?;
        fix.applicability = applicability;
        Ok(fix)
    }

    /// Returns an unsafe fix that replaces the bytes `start..end`, which are `removed`, by `replacement`.
    ///
    /// # Errors
    /// `AllocError` if an allocation fails.
    pub fn suggest(
        alloc: Global,
        removed: &str,
        start: usize,
        end: usize,
        replacement: &str,
    ) -> Result<Fix, AllocError>
        ensures replaces { IfOk result (IsReplacement start end replacement.now) }
        ensures unsafe_alone { IfOk result (λ fix. fix.applicability ≡ Applicability.Unsafe) }
    {
        let title = title_of(alloc, removed.trim(), replacement.trim())?;
        let replacement = String::from_str(alloc, replacement)?;
        Ok(Fix {
            start,
            end,
            replacement,
            applicability: Applicability::Unsafe,
            title,
        })
    }
}

impl Help {
    /// A help of this message, without a fix.
    pub fn new(alloc: Global, message: &str) -> Result<Help, AllocError>
        ensures message { IfOk result (λ help. string_bytes help.message ≡ message.now) }
        ensures fix { IfOk result (λ help. help.fix ≡ None) }
    {
        let message = String::from_str(alloc, message)?;
        Ok(Help { message, fix: None })
    }

    /// Returns a help with the message `message` and with `fix`.
    ///
    /// # Errors
    /// `AllocError` if an allocation fails.
    pub fn with_fix(alloc: Global, message: &str, fix: Fix) -> Result<Help, AllocError>
        ensures message { IfOk result (λ help. string_bytes help.message ≡ message.now) }
        ensures fix { IfOk result (λ help. help.fix ≡ Some fix) }
    {
        let message = String::from_str(alloc, message)?;
        Ok(Help {
            message,
            fix: Some(fix),
        })
    }
}

/// The title of a fix that takes one text away and writes another, both without blanks around them.
fn title_of(alloc: Global, removed: &str, written: &str) -> Result<String, AllocError> {
    if removed.is_empty() {
        format!(in alloc; "Add `{written}`")
    } else if written.is_empty() {
        format!(in alloc; "Remove `{removed}`")
    } else {
        format!(in alloc; "Replace `{removed}` with `{written}`")
    }
}

impl Hint {
    /// The hint of a remedy, if there is one.
    pub(crate) fn new(
        alloc: Global,
        remedy: Option<Remedy>,
        related: Vec<Related>,
    ) -> Result<Hint, AllocError>
        ensures { IfOk result (λ hint. IsSome hint.mistake ↔ IsSome hint.help) }
    {
        let Some(Remedy { mistake, fix }) = remedy else {
            return Ok(Hint {
                mistake: None,
                help: None,
                related,
            });
        };
        let message = String::from_str(alloc, mistake.text())?;
        Ok(Hint {
            mistake: Some(mistake),
            help: Some(Help { message, fix }),
            related,
        })
    }
}

impl Related {
    /// The bytes `start..end`, with this message.
    pub fn new(
        alloc: Global,
        start: usize,
        end: usize,
        message: &str,
    ) -> Result<Related, AllocError>
        ensures start { IfOk result (λ related. related.start ≡ start) }
        ensures end { IfOk result (λ related. related.end ≡ end) }
        ensures message { IfOk result (λ related. string_bytes related.message ≡ message.now) }
    {
        let message = String::from_str(alloc, message)?;
        Ok(Related {
            start,
            end,
            message,
        })
    }
}
