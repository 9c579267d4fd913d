//! Printed faults.
ghost use Rattle.std.specs.Prelude.{◌≡◌, IfErr, IfOk, IsErrAnd, string_bytes};
ghost use Rattle.pest_meta.specs.Reports.{IsReportOf, report_text};

use base_language::grammar::Rule;
use base_language::runtime::{Error, Fault};
use std::alloc::{AllocError, Global};

/// A printed fault.
#[derive(Debug, Drop)]
pub enum Report {
    /// An allocation failed: in the call whose outcome this is, or while the report was printed.
    Memory,
    /// `grammar error`, an empty line, and the printed errors with an empty line between two of them.
    Text(String),
}

/// Returns the value of `outcome`, or the report of its fault.
///
/// # Errors
/// - `Report::Text` with the printed errors, if `outcome` is `Fault::Grammar`.
/// - `Report::Memory` if `outcome` is `Fault::Memory`, or if an allocation fails while the errors are
///   printed.
pub fn unwrap_or_report<T>(alloc: Global, outcome: Result<T, Fault>) -> Result<T, Report>
    ensures value { IfOk outcome (λ value. result ≡ Ok value) }
    ensures report { IfErr outcome (λ fault. IsErrAnd result (IsReportOf fault)) }
{
    match outcome {
        Ok(value) => Ok(value),
        Err(Fault::Memory(_)) => Err(Report::Memory),
        Err(Fault::Grammar(errors)) => match print_errors(alloc, &errors) {
            Ok(text) => Err(Report::Text(text)),
            Err(_) => Err(Report::Memory),
        },
    }
}

/// Prints `grammar error`, an empty line, and the errors with an empty line between two of them.
fn print_errors(alloc: Global, errors: &[Error<Rule>]) -> Result<String, AllocError>
    ensures { IfOk result (λ text. string_bytes text ≡ report_text errors.now) }
{
    let mut text = String::from_str(alloc, "grammar error\n\n")?;
    if let [first, others @ ..] = errors {
        write!(text, "{first}")?;
        for error in others {
            write!(text, "\n\n{error}")?;
        }
    }
    Ok(text)
}
