//! Why a grammar is refused, as diagnostics.
ghost use Rattle.std.specs.Prelude.{IfOk};
ghost use Rattle.std.specs.List.{AllZip};
ghost use Rattle.lint_findings.specs.Helps.{IsHelpOf};
ghost use Rattle.lint_findings.specs.Reports.{IsAt, ReportsFlawFound, ReportsNameFinding, ReportsRefusal};
ghost use Rattle.lint_findings.specs.Reports.{ReportsRuleFinding, ReportsSyntax};

use crate::codes::Code;
use crate::diagnostic::Diagnostic;
use crate::helps::{help_of, listed_help};
use crate::messages::expected_names;
use crate::problems::{flaw_code, flaw_help, name_code, rule_code, rule_help};
use crate::repairs::hint_for;
use crate::undefined::Definitions;
use base_language::grammar::Rule;
use base_language::runtime::{Error, InputLocation};
use front_names::NameFinding;
use front_reader::rules::Flaw;
use front_validator::{RuleFinding, RuleProblem};
use lint_hints::{Help, Hint, Related};
use pest_meta::OpenError;
use program_support::syntax::syntax_message;
use std::alloc::{AllocError, Global};

/// The most calls of a left recursion that are shown.
const MOST_CALLS: usize = 19;

/// Returns the diagnostics of `error`, with which `open` refused `text`, in the order of the errors
/// of `parse_and_optimize`.
///
/// # Errors
/// `AllocError` if an allocation fails, or if `error` is `OpenError::Memory`.
pub fn diagnose_refusal(
    alloc: Global,
    text: &str,
    error: &OpenError<'_>,
) -> Result<Vec<Diagnostic>, AllocError>
    ensures { IfOk result (λ diagnostics. ReportsRefusal text.now error.now diagnostics.items) }
{
    match error {
        OpenError::Memory(_) => Err(AllocError),
        OpenError::Syntax(error) => {
            let diagnostic = diagnose_syntax(alloc, text, error)?;
            Ok(vec![in alloc; diagnostic]?)
        }
        OpenError::Names(findings) => diagnose_names(alloc, text, findings),
        OpenError::Flaw(flaw) => {
            let diagnostic = diagnose_flaw(alloc, *flaw)?;
            Ok(vec![in alloc; diagnostic]?)
        }
        OpenError::Rules(findings) => diagnose_findings(alloc, text, findings),
    }
}

/// The diagnostic of a syntax error.
fn diagnose_syntax(alloc: Global, text: &str, error: &Error<Rule>) -> Result<Diagnostic, AllocError>
    ensures { IfOk result (ReportsSyntax text.now error.now) }
{
    let (start, end) = bytes_of(error);
    let expected = expected_names(alloc, text)?;
    let message = syntax_message(alloc, text, start, &expected)?;
    let Hint { help, related, .. } = hint_for(alloc, text, start)?;
    let mut diagnostic = Diagnostic::new(alloc, Code::Syntax, start, end, message.as_str())?;
    diagnostic.expected = expected;
    diagnostic.related = related;
    diagnostic.help = help;
    Ok(diagnostic)
}

/// The bytes at which an error begins and before which it ends.
fn bytes_of(error: &Error<Rule>) -> (usize, usize)
    ensures { IsAt error.now.location result.0 result.1 }
{
    match error.location {
        InputLocation::Pos(position) => (position, position),
        InputLocation::Span(span) => span,
    }
}

/// The diagnostics of findings about names.
fn diagnose_names(
    alloc: Global,
    text: &str,
    findings: &[NameFinding<'_>],
) -> Result<Vec<Diagnostic>, AllocError>
    ensures { IfOk result (λ diagnostics. AllZip ReportsNameFinding findings.now diagnostics.items) }
{
    let mut names = Definitions::new(alloc, text)?;
    let mut diagnostics = Vec::new(alloc);
    for finding in findings {
        let diagnostic = diagnose_name(alloc, &mut names, *finding)?;
        diagnostics.push(diagnostic)?;
    }
    Ok(diagnostics)
}

/// The diagnostic of a finding about a name. Of a rule that is defined twice the first definition is shown.
fn diagnose_name(
    alloc: Global,
    names: &mut Definitions<'_>,
    finding: NameFinding<'_>,
) -> Result<Diagnostic, AllocError>
    ensures { IfOk result (ReportsNameFinding finding.entry) }
{
    let name = finding.span.as_str();
    let code = name_code(finding.problem, name);
    let (start, end) = (finding.span.start(), finding.span.end());
    let message = finding.message(alloc)?;
    let mut diagnostic = Diagnostic::new(alloc, code, start, end, message.as_str())?;
    diagnostic.help = help_for_name(alloc, names, code, name, start, end)?;
    if let Code::DuplicateRule = code {
        let first = "it is first defined here";
        names.push_definition(alloc, name, first, &mut diagnostic.related)?;
    }
    Ok(diagnostic)
}

/// The help for a name at the bytes `start..end`.
fn help_for_name(
    alloc: Global,
    names: &mut Definitions<'_>,
    code: Code,
    name: &str,
    start: usize,
    end: usize,
) -> Result<Option<Help>, AllocError>
    ensures { IfOk result (IsHelpOf code) }
{
    match code {
        Code::UndefinedRule => names.help_undefined(alloc, name, start, end),
        _ => listed_help(alloc, code, name, false),
    }
}

/// The diagnostic of a flaw.
fn diagnose_flaw(alloc: Global, flaw: Flaw<'_>) -> Result<Diagnostic, AllocError>
    ensures { IfOk result (ReportsFlawFound flaw.entry) }
{
    let code = flaw_code(flaw.cause);
    let (start, end) = (flaw.span.start(), flaw.span.end());
    let mut diagnostic = Diagnostic::new(alloc, code, start, end, flaw.cause.message())?;
    diagnostic.help = help_of(alloc, flaw_help(flaw.cause))?;
    Ok(diagnostic)
}

/// The diagnostics of findings in rules.
fn diagnose_findings(
    alloc: Global,
    text: &str,
    findings: &[RuleFinding<'_>],
) -> Result<Vec<Diagnostic>, AllocError>
    ensures { IfOk result (λ diagnostics. AllZip ReportsRuleFinding findings.now diagnostics.items) }
{
    let names = Definitions::new(alloc, text)?;
    let mut diagnostics = Vec::new(alloc);
    for finding in findings {
        let diagnostic = diagnose_finding(alloc, &names, finding)?;
        diagnostics.push(diagnostic)?;
    }
    Ok(diagnostics)
}

/// The diagnostic of a finding in rules. Of a left recursion the definitions of its rules are shown.
fn diagnose_finding(
    alloc: Global,
    names: &Definitions<'_>,
    finding: &RuleFinding<'_>,
) -> Result<Diagnostic, AllocError>
    ensures { IfOk result (ReportsRuleFinding finding.now) }
{
    let code = rule_code(&finding.problem);
    let (start, end) = (finding.span.start(), finding.span.end());
    let message = finding.message(alloc)?;
    let mut diagnostic = Diagnostic::new(alloc, code, start, end, message.as_str())?;
    diagnostic.help = help_of(alloc, rule_help(&finding.problem))?;
    if let RuleProblem::LeftRecursion(cycle) = &finding.problem {
        push_cycle(alloc, names, cycle, &mut diagnostic.related)?;
    }
    Ok(diagnostic)
}

/// Adds the definitions of a cycle of calls, each once.
fn push_cycle(
    alloc: Global,
    names: &Definitions<'_>,
    cycle: &[String],
    related: &mut Vec<Related>,
) -> Result<(), AllocError> {
    let calls = cycle.iter().zip(cycle.iter().skip(1));
    for (caller, name) in calls.take(MOST_CALLS) {
        let message = format!(in alloc; "{caller} calls {name} first")?;
        names.push_definition(alloc, caller.as_str(), message.as_str(), related)?;
    }
    Ok(())
}
