//! Choices with alternatives that are never taken.
ghost use Rattle.std.specs.Prelude.{◌++◌, IfOk, List, OnOk, map, take};
ghost use Rattle.std.specs.List.{AllZip};
ghost use Rattle.front_spanned.specs.Nodes.{rule_views};
ghost use Rattle.lint_findings.specs.Codes as spec;
ghost use Rattle.lint_findings.specs.Reports.{ReportsWarning};
ghost use Rattle.lint_findings.specs.declared.codes.Code.TheVariants as code;
ghost use Rattle.lint_warnings.specs.Groups.{pieces_of};

use crate::codes::Code;
use crate::diagnostic::Diagnostic;
use crate::remedies::{add_fix, remove_alternative, reorder};
use crate::repeats::repeated_leaves;
use crate::warnings::report_span;
use front_spanned::ParserRule;
use lint_hints::Related;
use lint_warnings::{UnreachableChoice, unreachable_choices};
use std::alloc::{AllocError, Global};
use std::collections::HashSet;

/// The warnings of alternatives that are never taken: for each choice that has some, one at the first.
pub(crate) fn diagnose_choices(
    alloc: Global,
    rules: &[ParserRule<'_>],
) -> Result<Vec<Diagnostic>, AllocError>
    ensures { IfOk result (λ diagnostics. AllZip ReportsWarning
        (map (spec.warning code.Unreachable) (spec.first_unreachable (rule_views rules.now)))
        diagnostics.items) }
{
    let choices = unreachable_choices(alloc, rules)?;
    let repeats = repeated_leaves(alloc, rules)?;
    let mut diagnostics = Vec::new(alloc);
    for choice in &choices {
        add_choice(alloc, choice, &repeats, &mut diagnostics)?;
    }
    Ok(diagnostics)
}

/// Adds the warning of a choice; `repeats` are the places of repeated alternatives.
fn add_choice(
    alloc: Global,
    choice: &UnreachableChoice<'_>,
    repeats: &HashSet<usize>,
    diagnostics: &mut Vec<Diagnostic>,
) -> Result<(), AllocError>
    ensures { OnOk result ((earlier : List spec.Warning)
        → AllZip ReportsWarning earlier diagnostics.old.items
        → AllZip ReportsWarning
        (earlier ++ map (spec.warning code.Unreachable) (take 1 (pieces_of choice.now)))
        diagnostics.new.items) }
{
    let Some(first) = choice.spans.first() else {
        return Ok(());
    };
    let is_repeat = repeats.contains(&first.start());
    let mut diagnostic = report_span(alloc, Code::Unreachable, *first, is_repeat)?;
    diagnostic.related = notes_on(alloc, choice)?;
    let fix = if is_repeat {
        remove_alternative(alloc, *first)?
    } else {
        reorder(alloc, choice)?
    };
    diagnostic.help = add_fix(diagnostic.help, fix);
    diagnostics.push(diagnostic)?;
    Ok(())
}

/// The notes on a choice: the alternative that begins the first one that is never taken, and how many more
/// there are.
fn notes_on(alloc: Global, choice: &UnreachableChoice<'_>) -> Result<Vec<Related>, AllocError> {
    let mut notes = Vec::new(alloc);
    if let Some((start, end)) = choice.begun_by {
        let message = "this alternative matches first";
        notes.push(Related::new(alloc, start, end, message)?)?;
    }
    if let Some(span) = choice.spans.get(1) {
        let message = count_message(alloc, choice.spans.len().saturating_sub(1))?;
        notes.push(Related::new(alloc, span.start(), span.end(), message.as_str())?)?;
    }
    Ok(notes)
}

/// That `count` further alternatives are never taken.
fn count_message(alloc: Global, count: usize) -> Result<String, AllocError> {
    if count == 1 {
        return String::from_str(alloc, "this alternative is unreachable too");
    }
    format!(in alloc; "{count} more alternatives are unreachable, this one first")
}
