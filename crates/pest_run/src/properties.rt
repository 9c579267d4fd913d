//! The note on properties that only pest has.
ghost use Rattle.std.specs.Prelude.{◌≡◌, IfOk, IsErr, IsOk, MatchOption, false, string_bytes, true};
ghost use Rattle.std.specs.Option.{option_copied};
ghost use Rattle.pest_run.specs.Properties.{IsMissing, IsPropertyIn, IsPropertyOf, TellsProperty, is_missing, is_missing_property, property_text};

use front_names::{NameFinding, NameProblem};
use lint_hints::is_pest_property;
use pest_meta::OpenError;
use program_support::output::{Output, RefusedWrite};
use std::alloc::{AllocError, Global};
use std::io::Write;

/// Writes a note to `err` that pest has a Unicode property which this front end does not have, if one is
/// given. None is written after an allocation failure.
pub fn note_property<E: Write>(
    alloc: Global,
    property: Option<&str>,
    err: &mut Output<E>,
) -> Result<(), RefusedWrite>
    ensures tells { TellsProperty (option_copied property.entry) (err.new ≡ err.old) result
        (E.contents err.old.writer) (E.contents err.new.writer) }
    ensures told { IsOk result → err.new.refused ≡ err.old.refused }
    ensures refused_line { IsErr result → err.new.refused ≡ true }
{
    let Some(name) = property else {
        return Ok(());
    };
    match property_message(alloc, name) {
        Ok(message) => err.write_line(&[message.as_str()]),
        Err(_) => Ok(()),
    }
}

/// Returns the first property of pest that a grammar calls undefined, if it is refused for one.
pub fn find_property<'g>(error: &OpenError<'g>) -> Option<&'g str>
    ensures { IsPropertyOf error.now result }
{
    match error {
        OpenError::Names(findings) => first_missing(findings),
        OpenError::Memory(_) | OpenError::Syntax(_) | OpenError::Flaw(_) | OpenError::Rules(_) =>
            None,
    }
}

/// Returns the first property of pest that findings call undefined, if there is one.
fn first_missing<'g>(findings: &[NameFinding<'g>]) -> Option<&'g str>
    ensures { IsPropertyIn findings.now result }
{
    for finding in findings {
        if let Some(name) = missing_property(*finding) {
            return Some(name);
        }
    }
    None
}

/// Returns the property of pest that a finding calls undefined, if it does.
fn missing_property<'g>(finding: NameFinding<'g>) -> Option<&'g str>
    ensures { MatchOption result (is_missing finding.entry ≡ false) (IsMissing finding.entry) }
{
    let name = finding.span.as_str();
    if is_missing(finding.problem, name) {
        Some(name)
    } else {
        None
    }
}

/// Returns whether a problem with a name is that a property of pest is undefined.
fn is_missing(problem: NameProblem, name: &str) -> bool
    ensures { result ≡ is_missing_property problem name.now }
{
    match problem {
        NameProblem::Undefined => is_pest_property(name),
        NameProblem::RustKeyword | NameProblem::PestKeyword | NameProblem::AlreadyDefined => false,
    }
}

/// Returns the note that this front end does not have a property. The only error is an allocation failure.
fn property_message(alloc: Global, name: &str) -> Result<String, AllocError>
    ensures { IfOk result (λ message. string_bytes message ≡ property_text name.now) }
{
    let mut message = String::from_str(
        alloc,
        "note: this front end does not have the Unicode property ",
    )?;
    message.push_str(name)?;
    message.push_str("; pest does")?;
    Ok(message)
}
