//! Counts of errors and warnings.
ghost use Rattle.std.specs.Prelude.{◌≡◌, IfOk, fold, string_bytes};
ghost use Rattle.pest_lint.specs.Counts as spec;

use lint_diagnostics::{Diagnostic, Severity};
use std::alloc::{AllocError, Global};

/// How many errors and warnings were printed.
#[derive(Clone, Copy, Default)]
pub struct Counts {
    pub errors: usize,
    pub warnings: usize,
}

impl Counts {
    /// Counts these, too, up to `usize::MAX`.
    pub fn add(&mut self, diagnostics: &[Diagnostic])
        ensures { self.new ≡ fold spec.counts_after self.old diagnostics.now }
    {
        for diagnostic in diagnostics {
            self.add_one(diagnostic.severity);
        }
    }

    /// Counts one of this severity.
    fn add_one(&mut self, severity: Severity)
        ensures { self.new ≡ spec.counts_of self.old severity }
    {
        match severity {
            Severity::Error => self.errors = self.errors.saturating_add(1),
            Severity::Warning => self.warnings = self.warnings.saturating_add(1),
        }
    }

    /// The line `2 errors, 5 warnings`, without what there is none of; nothing if there is neither.
    pub fn line(self, alloc: Global) -> Result<String, AllocError>
        ensures { IfOk result (λ line. string_bytes line ≡ spec.counts_line self) }
    {
        let errors = count_text(alloc, self.errors, "error")?;
        let warnings = count_text(alloc, self.warnings, "warning")?;
        match (self.errors, self.warnings) {
            (0, 0) => Ok(String::new(alloc)),
            (_, 0) => format!(in alloc; "{errors}\n"),
            (0, _) => format!(in alloc; "{warnings}\n"),
            _ => format!(in alloc; "{errors}, {warnings}\n"),
        }
    }
}

/// A number of things, with an `s` behind their name but for one.
fn count_text(alloc: Global, count: usize, name: &str) -> Result<String, AllocError>
    ensures { IfOk result (λ text. string_bytes text ≡ spec.count_text count name.now) }
{
    if count == 1 {
        format!(in alloc; "1 {name}")
    } else {
        format!(in alloc; "{count} {name}s")
    }
}
