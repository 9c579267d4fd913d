//! The diagnostics of a grammar's text, as lines of JSON.
ghost use Rattle.std.specs.Prelude.{[], IfOk, string_bytes};
ghost use Rattle.pest_meta_c.specs.Diagnostics.{AreDiagnostics, ArePrinted};

use lint_diagnostics::{Diagnostic, Options, diagnose};
use lint_output::{LineIndex, Origin, Style, print_diagnostic};
use std::alloc::{AllocError, Global};

/// Returns the diagnostics of a text, a line of JSON for each. The only error is an allocation failure.
pub(crate) fn diagnostics_lines(alloc: Global, text: &str) -> Result<String, AllocError>
    ensures { IfOk result (λ lines. AreDiagnostics text.now (string_bytes lines)) }
{
    let options = Options { starts: &[] };
    let diagnostics = diagnose(alloc, text, options)?;
    let lines = LineIndex::new(alloc, text)?;
    let origin = Origin {
        name: "",
        text,
        lines: &lines,
    };
    lines_of(alloc, origin, &diagnostics)
}

/// Returns a line of JSON for each of these diagnostics.
fn lines_of(
    alloc: Global,
    origin: Origin<'_>,
    diagnostics: &[Diagnostic],
) -> Result<String, AllocError>
    ensures { IfOk result (λ lines. ArePrinted diagnostics.now (string_bytes lines)) }
{
    let mut lines = String::new(alloc);
    for diagnostic in diagnostics {
        let line = print_diagnostic(alloc, origin, diagnostic, Style::Json)?;
        lines.push_str(line.as_str())?;
    }
    Ok(lines)
}
