//! Diagnostics in a style.
ghost use Rattle.std.specs.Prelude.{IfOk, string_bytes};
ghost use Rattle.lint_output.specs.Locations.{IsIndexOf};
ghost use Rattle.lint_output.specs.Prints.{IsExact, IsPrinted};

use crate::github::to_annotation;
use crate::json::to_json_line;
use crate::text::to_text;
use crate::{Origin, Style};
use lint_findings::Diagnostic;
use std::alloc::{AllocError, Global};

/// A diagnostic as it is printed. The only error is an allocation failure.
pub fn print_diagnostic(
    alloc: Global,
    origin: Origin<'_>,
    diagnostic: &Diagnostic,
    style: Style,
) -> Result<String, AllocError>
    ensures shape { IfOk result (λ text. IsPrinted style diagnostic.now (string_bytes text)) }
    ensures exact { IfOk result (λ text. IsIndexOf origin.entry.text.now origin.entry.lines.now
        → IsExact style origin.entry.name.now origin.entry.text.now diagnostic.now (string_bytes text)) }
{
    match style {
        Style::Text(has_colour) => to_text(alloc, origin, diagnostic, has_colour),
        Style::Json => to_json_line(alloc, origin, diagnostic),
        Style::Github => to_annotation(alloc, origin, diagnostic),
    }
}
