//! Reports of verdicts.

use crate::arguments::{ReportFormat, TestRequest};
use crate::cases::{Case, Expected};
use crate::expected::Event;
use crate::lines::{expected_lines, found_lines, has_ends, has_texts, print_difference};
use crate::verdicts::{Failure, Verdict, most_steps, rule_of};
use base_language::grammar::Rule;
use base_language::runtime::{Error, ErrorVariant, Fault, LineColLocation, Position};
use matcher_engine::matcher::ParseTree;
use matcher_program::answers::Stop;
use matcher_support::compiled::CompiledGrammar;
use matcher_support::expectations::failure_message;
use program_support::escape::{escape, escape_lines};
use program_support::json::escape_json;
use program_support::messages::show_error;
use serde_json::json;
use std::alloc::{AllocError, Global};

/// The numbers of cases.
#[derive(Clone, Copy)]
pub struct Tally {
    pub passed: usize,
    pub failed: usize,
    pub skipped: usize,
    /// Cases whose trees were written.
    pub updated: usize,
}

/// A file whose cases were run, with the compiled grammar and the rule by default.
#[derive(Clone, Copy)]
pub struct Tested<'t> {
    pub name: &'t str,
    pub rules: &'t CompiledGrammar<'t>,
    pub default: &'t str,
}

impl Tally {
    /// No cases.
    pub fn none() -> Tally {
        Tally {
            passed: 0,
            failed: 0,
            skipped: 0,
            updated: 0,
        }
    }

    /// Returns the number of all cases.
    pub fn count(self) -> usize {
        self.passed
            .saturating_add(self.failed)
            .saturating_add(self.skipped)
            .saturating_add(self.updated)
    }

    /// Counts the case that has the verdict `verdict`. If `is_update` is true, a case whose trees
    /// differ counts as updated.
    pub fn add(&mut self, verdict: &Verdict, is_update: bool) {
        match verdict {
            Verdict::Passed => self.passed = self.passed.saturating_add(1),
            Verdict::Skipped => self.skipped = self.skipped.saturating_add(1),
            Verdict::Failed(Failure::Differs(_)) if is_update => {
                self.updated = self.updated.saturating_add(1);
            }
            Verdict::Failed(_) => self.failed = self.failed.saturating_add(1),
        }
    }
}

/// Returns the text before the verdicts.
pub fn heading(format: ReportFormat) -> &'static str {
    match format {
        ReportFormat::Tap => "TAP version 13\n",
        ReportFormat::Text | ReportFormat::Json => "",
    }
}

/// Returns the text after the verdicts.
pub fn print_summary(
    alloc: Global,
    format: ReportFormat,
    tally: Tally,
) -> Result<String, AllocError> {
    let Tally {
        passed,
        failed,
        skipped,
        updated,
    } = tally;
    match format {
        ReportFormat::Tap => {
            let count = tally.count();
            format!(in alloc; "1..{count}\n")
        }
        ReportFormat::Json => format!(in alloc;
            "{{\"passed\":{passed},\"failed\":{failed},\"skipped\":{skipped},\"updated\":{updated}}}\n"
        ),
        ReportFormat::Text => {
            if updated == 0 {
                format!(in alloc; "{passed} passed, {failed} failed, {skipped} skipped\n")
            } else {
                format!(in alloc;
                    "{passed} passed, {failed} failed, {skipped} skipped, {updated} updated\n"
                )
            }
        }
    }
}

/// Appends the reports of verdicts, and counts them.
pub fn report_all(
    alloc: Global,
    out: &mut String,
    request: TestRequest<'_>,
    tested: Tested<'_>,
    cases: &[Case<'_>],
    verdicts: &[Verdict],
    is_update: bool,
    tally: &mut Tally,
) -> Result<(), AllocError> {
    for (case, verdict) in cases.iter().zip(verdicts) {
        tally.add(verdict, is_update);
        report(alloc, out, request, tested, case, verdict, *tally)?;
    }
    Ok(())
}

/// Appends the report of a verdict. `tally` counts its case, too.
fn report(
    alloc: Global,
    out: &mut String,
    request: TestRequest<'_>,
    tested: Tested<'_>,
    case: &Case<'_>,
    verdict: &Verdict,
    tally: Tally,
) -> Result<(), AllocError> {
    match request.format {
        ReportFormat::Text => match verdict {
            Verdict::Passed | Verdict::Skipped => Ok(()),
            Verdict::Failed(failure) => {
                let title = title_of(alloc, tested, case)?;
                let message = describe(alloc, tested, case, failure)?;
                out.push_str(title.as_str())?;
                out.push_str(": ")?;
                write_lines(alloc, out, message.as_str(), "", request.has_colour)
            }
        },
        ReportFormat::Tap => report_as_tap(alloc, out, tested, case, verdict, tally.count()),
        ReportFormat::Json => report_as_json(alloc, out, tested, case, verdict),
    }
}

/// Returns the file, the line and the name of a case.
fn title_of(alloc: Global, tested: Tested<'_>, case: &Case<'_>) -> Result<String, AllocError> {
    let file = escape(alloc, tested.name)?;
    let name = escape(alloc, case.name)?;
    let line = case.line;
    format!(in alloc; "{file}:{line}: {name}")
}

/// Appends lines, each after a prefix, with escapes of hidden characters. Those of a difference have colours
/// if `has_colour`.
fn write_lines(
    alloc: Global,
    out: &mut String,
    lines: &str,
    prefix: &str,
    has_colour: bool,
) -> Result<(), AllocError> {
    for line in lines.split('\n') {
        let shown = escape_lines(alloc, line)?;
        out.push_str(prefix)?;
        let colour = colour_of(line, has_colour);
        out.push_str(colour)?;
        out.push_str(shown.as_str())?;
        out.push_str(if colour.is_empty() {
            "\n"
        } else {
            "\u{1b}[0m\n"
        })?;
    }
    Ok(())
}

/// Returns the start of the colour of a line: red if it is only expected, green if it is only found.
fn colour_of(line: &str, has_colour: bool) -> &'static str {
    if has_colour && line.starts_with("  - ") {
        "\u{1b}[31m"
    } else if has_colour && line.starts_with("  + ") {
        "\u{1b}[32m"
    } else {
        ""
    }
}

/// Appends a verdict as a line of the Test Anything Protocol, and comments.
fn report_as_tap(
    alloc: Global,
    out: &mut String,
    tested: Tested<'_>,
    case: &Case<'_>,
    verdict: &Verdict,
    number: usize,
) -> Result<(), AllocError> {
    let name = escape(alloc, case.name)?
        .as_str()
        .replace(alloc, '#', "\\#")?;
    match verdict {
        Verdict::Passed => write!(out, "ok {number} - {name}\n"),
        Verdict::Skipped => write!(out, "ok {number} - {name} # SKIP\n"),
        Verdict::Failed(failure) => {
            let title = title_of(alloc, tested, case)?;
            let message = describe(alloc, tested, case, failure)?;
            write!(out, "not ok {number} - {name}\n# {title}:\n")?;
            write_lines(alloc, out, message.as_str(), "# ", false)
        }
    }
}

/// Appends a verdict as a line of JSON.
fn report_as_json(
    alloc: Global,
    out: &mut String,
    tested: Tested<'_>,
    case: &Case<'_>,
    verdict: &Verdict,
) -> Result<(), AllocError> {
    let (outcome, message) = match verdict {
        Verdict::Passed => ("passed", String::new(alloc)),
        Verdict::Skipped => ("skipped", String::new(alloc)),
        Verdict::Failed(failure) => ("failed", describe(alloc, tested, case, failure)?),
    };
    let value = json!(in alloc; {
        "file": tested.name,
        "line": case.line,
        "name": case.name,
        "outcome": outcome,
        "message": message.as_str()
    })?;
    let line = escape_json(alloc, value.to_string(alloc)?.as_str())?;
    out.push_str(line.as_str())?;
    out.push_str("\n")
}

/// Returns why a case fails, in lines, the last one without its end.
fn describe(
    alloc: Global,
    tested: Tested<'_>,
    case: &Case<'_>,
    failure: &Failure,
) -> Result<String, AllocError> {
    let rule = rule_of(case, tested.default);
    match failure {
        Failure::Differs(found) => describe_difference(alloc, tested, case, found),
        Failure::Matches => format!(in alloc; "rule {rule} matches the text, despite `:error`"),
        Failure::EndsEarly(found) => {
            let (line, column) = place_in(case, found.end);
            let excerpt = describe_place(alloc, tested, case, found.end, found.furthest)?;
            format!(in alloc; "rule {rule} matched only up to {line}:{column}\n{excerpt}")
        }
        Failure::NoMatch(place) => {
            let excerpt = describe_place(alloc, tested, case, *place, *place)?;
            format!(in alloc; "rule {rule} does not match\n{excerpt}")
        }
        Failure::NoRule => format!(in alloc; "the grammar has no rule {rule}"),
        Failure::Stopped(stop) => describe_stop(alloc, stop, most_steps(case.text.len())),
    }
}

/// Returns why a run was stopped.
fn describe_stop(alloc: Global, stop: &Stop, steps: u64) -> Result<String, AllocError> {
    match stop {
        Stop::OutOfSteps => format!(in alloc; "the match was stopped after {steps} steps"),
        Stop::EmptyStack => String::from_str(alloc, "PEEK or POP found nothing on the stack"),
        Stop::TextTooLong => String::from_str(alloc, "the text has 4 GiB or more"),
        Stop::Memory => String::from_str(alloc, "out of memory"),
    }
}

/// Returns the difference of the expected and the found trees.
fn describe_difference(
    alloc: Global,
    tested: Tested<'_>,
    case: &Case<'_>,
    found: &ParseTree,
) -> Result<String, AllocError> {
    match &case.expected {
        Expected::Trees(events) => compare_trees(alloc, tested, case, events, found),
        Expected::Failure => Ok(String::new(alloc)),
    }
}

/// Returns the difference of these expected trees and the found ones.
fn compare_trees(
    alloc: Global,
    tested: Tested<'_>,
    case: &Case<'_>,
    events: &[Event<'_>],
    found: &ParseTree,
) -> Result<String, AllocError> {
    let expected = expected_lines(alloc, events)?;
    let walk = tested.rules.walk(alloc, found);
    let found = found_lines(alloc, case.text, walk, has_ends(events))?;
    let lines = print_difference(alloc, &expected, &found, has_texts(events))?;
    let mut out = String::from_str(alloc, "the trees differ: - is expected, + is found")?;
    for line in &lines {
        out.push_str("\n")?;
        out.push_str(line.as_str())?;
    }
    Ok(out)
}

/// Returns the line and the column of the file for a byte of the text of a case.
fn place_in(case: &Case<'_>, place: usize) -> (usize, usize) {
    match Position::new(case.text, place) {
        Some(position) => {
            let (line, column) = position.line_col();
            (line_in_file(case, line), column)
        }
        None => (case.line, 1),
    }
}

/// Returns the number of a line of the text of a case in the file.
fn line_in_file(case: &Case<'_>, line: usize) -> usize {
    line.saturating_add(case.text_line).saturating_sub(1)
}

/// Returns the line of a byte of the text of a case, with a mark, and the names that are expected at the
/// furthest failure, if that is no earlier.
fn describe_place(
    alloc: Global,
    tested: Tested<'_>,
    case: &Case<'_>,
    place: usize,
    furthest: usize,
) -> Result<String, AllocError> {
    let message = if place <= furthest {
        expected_names(alloc, tested, case, furthest)?
    } else {
        String::from_str(alloc, "the match ends here")?
    };
    let Some(position) = Position::new(case.text, place) else {
        return Ok(message);
    };
    match place_error(alloc, case, message, position) {
        Ok(error) => show_error(alloc, Some(tested.name), &error),
        Err(_) => Err(AllocError),
    }
}

/// Returns the error of a message at a position of the text of a case, with the line of the file.
fn place_error(
    alloc: Global,
    case: &Case<'_>,
    message: String,
    position: Position<'_>,
) -> Result<Error<Rule>, Fault> {
    let (line, column) = position.line_col();
    let mut error = Error::new_from_pos(alloc, ErrorVariant::CustomError { message }, position)?;
    error.line_col = LineColLocation::Pos((line_in_file(case, line), column));
    Ok(error)
}

/// Returns the message on the names that are expected at a byte of the text of a case.
fn expected_names(
    alloc: Global,
    tested: Tested<'_>,
    case: &Case<'_>,
    place: usize,
) -> Result<String, AllocError> {
    let rule = rule_of(case, tested.default);
    let steps = most_steps(case.text.len());
    match tested
        .rules
        .expected_at(alloc, rule, case.text, place, steps)
    {
        Ok(names) => {
            if names.is_empty() {
                String::from_str(alloc, "no rule is expected here")
            } else {
                failure_message(alloc, &names)
            }
        }
        Err(_) => String::from_str(alloc, "what is expected here was not found"),
    }
}
