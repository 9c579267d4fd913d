//! Messages on standard error. A character that a terminal obeys is shown as an escape.
ghost use Rattle.std.specs.Prelude.{◌≡◌, ◌++◌, IfOk, codes, string_bytes};
ghost use Rattle.program_support.specs.Escapes.{escaped_bytes};
ghost use Rattle.std.specs.List.{zip};
ghost use Rattle.pest_meta.specs.Opening.{IsOpenError};
ghost use Rattle.pest_doc.specs.Messages.{IsAbsence, IsNamedAbsence};
ghost use Rattle.pest_doc.specs.Refusals.{IsRefusal, ShowsError, help_line};
ghost use Rattle.program_support.specs.Messages.{ArePartsOf};

use base_language::grammar::Rule;
use base_language::runtime::Error;
use lint_findings::{Diagnostic, Help, diagnose_refusal};
use lint_hints::nearest_name;
use pest_meta::OpenError;
use program_support::escape::{escape, escape_lines};
use program_support::messages::place_error;
use std::alloc::{AllocError, Global};

/// The message for a rule that is named although no diagram is asked for.
pub const NO_DIAGRAM: &str = "--rule is for --format svg alone; pest-doc --help shows the usage\n";

/// Returns the message that a grammar has no rule of a name, with the nearest of its names, if one is near;
/// if no name is given, that it has no rule at all.
pub fn has_no_rule(
    alloc: Global,
    file: &str,
    rule: Option<&str>,
    names: &[&str],
) -> Result<String, AllocError>
    ensures { IfOk result (λ message. IsAbsence file.now rule.entry names.now
        (string_bytes message)) }
{
    match rule {
        Some(rule) => has_none_named(alloc, file, rule, names),
        None => has_no_rules(alloc, file),
    }
}

/// Returns the message that a grammar has no rule of a name, with the nearest of its names, if one is near.
fn has_none_named(
    alloc: Global,
    file: &str,
    rule: &str,
    names: &[&str],
) -> Result<String, AllocError>
    ensures { IfOk result (λ message. IsNamedAbsence file.now rule.now names.now
        (string_bytes message)) }
{
    let file = escape(alloc, file)?;
    let shown = escape(alloc, rule)?;
    match nearest_name(alloc, rule, names)? {
        Some(near) => format!(in alloc; "{file} has no rule {shown}; there is {near}\n"),
        None => format!(in alloc; "{file} has no rule {shown}\n"),
    }
}

/// Returns the message that a grammar has no rules.
fn has_no_rules(alloc: Global, file: &str) -> Result<String, AllocError>
    ensures { IfOk result (λ message. string_bytes message
        ≡ escaped_bytes file.now ++ codes " has no rules\n") }
{
    let file = escape(alloc, file)?;
    format!(in alloc; "{file} has no rules\n")
}

/// Returns the message that a grammar is refused: for each error what is wrong, the place and the line, and
/// how it may be mended.
pub fn refusal_message(
    alloc: Global,
    name: &str,
    text: &str,
    error: OpenError<'_>,
) -> Result<String, AllocError>
    requires { IsOpenError text.now error }
    ensures { IfOk result (λ message.
        IsRefusal (escaped_bytes name.now) text.now error.entry (string_bytes message)) }
{
    let diagnostics = diagnose_refusal(alloc, text, &error)?;
    let Ok(errors) = error.into_errors(alloc, text) else {
        // The only fault is this.
        return Err(AllocError);
    };
    let name = escape(alloc, name)?;
    let shown = show_errors(alloc, name.as_str(), &errors, &diagnostics)?;
    escape_lines(alloc, shown.as_str())
}

/// Shows errors with their diagnostics.
fn show_errors(
    alloc: Global,
    name: &str,
    errors: &[Error<Rule>],
    diagnostics: &[Diagnostic],
) -> Result<String, AllocError>
    ensures { IfOk result (λ text.
        ArePartsOf (ShowsError name.now) (zip errors.now diagnostics.now) (string_bytes text)) }
{
    let mut text = String::new(alloc);
    for (error, diagnostic) in errors.iter().zip(diagnostics) {
        let part = show_error(alloc, name, error, diagnostic)?;
        text.push_str(part.as_str())?;
    }
    Ok(text)
}

/// Shows what is wrong, the place and the line of an error, and how it may be mended.
fn show_error(
    alloc: Global,
    name: &str,
    error: &Error<Rule>,
    diagnostic: &Diagnostic,
) -> Result<String, AllocError>
    ensures { IfOk result (λ part. ShowsError name.now (error.now, diagnostic.now) (string_bytes part)) }
{
    let placed = place_error(alloc, name, error)?;
    let help = help_line(alloc, &diagnostic.help)?;
    let what = diagnostic.message.as_str();
    format!(in alloc; "error: {what}\n{placed}{help}")
}

/// The line of a help, if there is one.
fn help_line(alloc: Global, help: &Option<Help>) -> Result<String, AllocError>
    ensures { IfOk result (λ line. string_bytes line ≡ help_line help.now) }
{
    match help {
        Some(help) => {
            let message = help.message.as_str();
            format!(in alloc; "help: {message}\n")
        }
        None => Ok(String::new(alloc)),
    }
}
