//! Diagnostics, and options.
ghost use Rattle.std.specs.Prelude.{◌≡◌, IfOk, string_bytes};
ghost use Rattle.lint_findings.specs.Codes.{severity_of};

use crate::codes::{Code, Severity};
use lint_hints::{Help, Related};
use std::alloc::{AllocError, Global};

/// A diagnostic of a text. Positions are in bytes, from 0.
#[derive(Debug, Drop)]
pub struct Diagnostic {
    pub code: Code,
    pub severity: Severity,
    /// The byte at which it begins.
    pub start: usize,
    /// The byte before which it ends. If the diagnostic has a position and no span, this is
    /// `start`.
    pub end: usize,
    pub message: String,
    /// The names that are expected at a syntax error, in the order of the meta-grammar. Empty for
    /// any other diagnostic.
    pub expected: Vec<&'static str>,
    /// Other parts of the text that the message is about.
    pub related: Vec<Related>,
    /// How the text may be corrected, if that is known.
    pub help: Option<Help>,
}

/// What a caller knows about a grammar, besides its text.
#[derive(Clone, Copy)]
pub struct Options<'o> {
    /// Rules that need no call, since matching starts with them.
    pub starts: &'o [&'o str],
}

impl Default for Options<'_> {
    /// No further starts.
    fn default() -> Self {
        Options { starts: &[] }
    }
}

impl Diagnostic {
    /// Returns a diagnostic of the code `code` at the bytes `start..end`, with the message
    /// `message`, and without expected names, related parts and help.
    pub(crate) fn new(
        alloc: Global,
        code: Code,
        start: usize,
        end: usize,
        message: &str,
    ) -> Result<Diagnostic, AllocError>
        ensures code { IfOk result (λ diagnostic. diagnostic.code ≡ code) }
        ensures severity { IfOk result (λ diagnostic. diagnostic.severity ≡ severity_of code) }
        ensures start { IfOk result (λ diagnostic. diagnostic.start ≡ start) }
        ensures end { IfOk result (λ diagnostic. diagnostic.end ≡ end) }
        ensures message { IfOk result (λ diagnostic. string_bytes diagnostic.message ≡ message.now) }
    {
        Ok(Diagnostic {
            code,
            severity: code.severity(),
            start,
            end,
            message: String::from_str(alloc, message)?,
            expected: Vec::new(alloc),
            related: Vec::new(alloc),
            help: None,
        })
    }
}
